// What the entries say of a lawful plan: they refuse no such plan, and a refusal is taken for a plan that does not pass and breaks nowhere.
ghost use Rattle.std.specs.Prelude.{◌≡◌};
ghost use Rattle.rules.specs.Verdict.{broken_at, verdict_of, is_pass};
ghost use Rattle.verdict.specs.inner.Asked.{Ready};
ghost use Rattle.tries.specs.Tries.{own_break};

use rules::{Broken, Plan};

// Whether the plan passes.
pub(crate) fn passes(p: Plan) -> bool
    requires { Ready p }
    ensures { result ≡ is_pass (verdict_of p) }
{
    match verdict::quick(p) {
        Ok(verdict) => verdict.passes(),
        Err(_) => false,
    }
}

// The first pair at which the rule breaks.
pub(crate) fn where_broken(p: Plan) -> Option<Broken>
    requires { Ready p }
    ensures { result ≡ broken_at (own_break p) }
{
    verdict::first_break(p).unwrap_or(None)
}
