// H, the least common multiple of all T, string after string: a product over the greatest common divisor, which Euclid's way finds.
ghost use Rattle.std.specs.Prelude.{◌≡◌, ◌≤◌, unwrap_or, IfSome};
ghost use Rattle.base.specs.Divisors.{gcd};
ghost use Rattle.base.specs.Multiples.{lcm};
ghost use Rattle.rules.specs.Plan.{multiple_of};
ghost use Rattle.bounds.specs.inner.Capped.{capped};

use rules::Plan;

// The greatest common divisor: what divides two numbers divides the rest of their division too.
fn common_divisor(a: u32, b: u32) -> u32
    ensures exact { result ≡ gcd a b }
{
    let mut number = a;
    let mut divisor = b;
    while 0 < divisor {
        let rest = number % divisor;
        number = divisor;
        divisor = rest;
    }
    number
}

// The least common multiple of h and t, where that is 1 to 100,000. The product is made only once it is known to fit.
fn next_multiple(h: u32, t: u32) -> Option<u32>
    requires { 1 ≤ h }
    ensures exact { unwrap_or result 100001 ≡ capped 100000 (lcm h t) }
    ensures within { IfSome result (λ m. m ≤ 100000) }
{
    if t < 1 {
        return None;
    }
    let part = h / common_divisor(h, t);
    if 100000 / t < part {
        None
    } else {
        Some(part * t)
    }
}

// H, or 100,001 where it is over 100,000.
pub fn multiple(p: Plan) -> u32
    ensures exact { result ≡ multiple_of p }
{
    let mut h: u32 = 1;
    for s in &p.strings[..p.n.min(10)] {
        let Some(next) = next_multiple(h, s.t.0) else {
            return 100001;
        };
        h = next;
    }
    h
}
