// The lines that say where a verdict comes from. Each is written on a page of its own, whatever the numbers are.
ghost use Rattle.std.specs.Prelude.{◌≡◌, [], ◌∷◌, ◌++◌, ◌+◌, ◌-◌, ◌≤◌, cond, length};
ghost use Rattle.std.specs.Prelude.{eqb};
ghost use Rattle.rules.specs.Lines.{decimal, worded_in};
ghost use Rattle.lines.specs.Pages.{page_of, text_of};
ghost use Rattle.lines.specs.Why.{padded, columned, pair_line, blocker_line, blocking_line, share_line};
ghost use Rattle.lines.specs.Why.{demand_line, multiple_line, over_line, stair_line, stretch_line, nowhere_line};

use super::Page;
use super::pages::blank;
use super::templates::lone_line;
use days::Length;

impl Page {
    // Spaces behind the text, to fill so many columns.
    fn pad(self, columns: usize) -> Page
        requires columns_bound { columns ≤ 41 }
        requires len_bound { self.len + 41 ≤ 256 }
        ensures exact { text_of result ≡ padded columns (text_of self) }
        ensures short { result.len ≤ self.len + 41 }
    {
        let missing = columns.saturating_sub(self.len);
        self.append(&[b' '; 41][..missing])
    }

    // A number behind the text, so that it ends in column 41.
    fn end_column(self, n: u64) -> Page
        requires { self.len + 64 ≤ 256 }
        ensures exact { text_of result ≡ columned (text_of self) n }
    {
        let figure = blank().append_number(n);
        self.append(b" ")
            .pad(41 - figure.len)
            .append(&figure.bytes[..figure.len])
            .append(b"\n")
    }

    // A number in one of two templates: the first is for the number 1.
    fn count_in(self, one: &[u8], others: &[u8], n: u32) -> Page
        requires first { self.len + length one.now + 20 ≤ 256 }
        requires second { self.len + length others.now + 20 ≤ 256 }
        ensures exact { text_of result ≡ text_of self
            ++ cond (eqb n 1) (worded_in one.now (decimal n ∷ [])) (worded_in others.now (decimal n ∷ [])) }
        ensures short { result.len ≤ self.len + length one.now + length others.now + 20 }
    {
        self.fill_in(if n == 1 { one } else { others }, &[n as u64])
    }
}

// The pair that is explained.
#[tactic(auto, unfolding(rules::specs::Lines::bytes_of, crate::specs::Why::pair_line))]
pub fn pair_line(interval: Length, blocking: Length) -> Page
    ensures exact { result ≡ page_of (pair_line interval.0 blocking.0) }
{
    lone_line(
        b"interval # blocking #\n",
        &[interval.0 as u64, blocking.0 as u64],
    )
}

// The string that blocks, with its E and its D. A job of it has used a day.
pub fn blocker_line(place: usize, hold: u32, due: Length) -> Page
    ensures exact { result ≡ page_of (blocker_line place hold due.0) }
{
    lone_line(
        b"blocker string #: E #, due #, holds at most #\n",
        &[
            place as u64,
            hold as u64,
            due.0 as u64,
            hold.saturating_sub(1) as u64,
        ],
    )
}

// What the blocking takes.
#[tactic(auto, using(crate::proofs::Growing::page_is), unfolding(rules::specs::Lines::bytes_of, crate::specs::Why::blocking_line))]
pub fn blocking_line(blocking: Length) -> Page
    ensures exact { result ≡ page_of (blocking_line blocking.0) }
{
    blank().append(b"blocking").end_column(blocking.0 as u64)
}

// What a string asks: its jobs in so many days, the days of each, and what that comes to.
pub fn share_line(place: usize, jobs: u32, days: u32, each: u32) -> Page
    ensures exact { result ≡ page_of (share_line place jobs days each) }
{
    blank()
        .fill_in(b"string #", &[place as u64])
        .pad(11)
        .count_in(b"# job", b"# jobs", jobs)
        .count_in(b" in # day", b" in # days", days)
        .fill_in(b", # each", &[each as u64])
        .end_column(jobs as u64 * each as u64)
}

// The demand of an interval, and how much of the interval it leaves or lacks.
pub fn demand_line(demand: u64, interval: Length) -> Page
    ensures exact { result ≡ page_of (demand_line demand interval.0) }
{
    let days = interval.0 as u64;
    if days < demand {
        lone_line(
            b"demand # of #: # too many\n",
            &[demand, days, demand - days],
        )
    } else {
        lone_line(b"demand # of #: # spare\n", &[demand, days, days - demand])
    }
}

#[tactic(auto, unfolding(rules::specs::Lines::bytes_of, crate::specs::Why::multiple_line))]
pub fn multiple_line(multiple: u32) -> Page
    ensures exact { result ≡ page_of (multiple_line multiple) }
{
    lone_line(b"H #\n", &[multiple as u64])
}

// The load of a plan that is overloaded.
pub fn over_line(load: u32, multiple: u32) -> Page
    ensures exact { result ≡ page_of (over_line load multiple) }
{
    lone_line(
        b"load # of #: # too many\n",
        &[
            load as u64,
            multiple as u64,
            load.saturating_sub(multiple) as u64,
        ],
    )
}

// A step of the demand. Not one function with `demand_line`: the two lines say their numbers in another order.
#[tactic(auto, unfolding(rules::specs::Lines::bytes_of, crate::specs::Why::stair_line))]
pub fn stair_line(interval: Length, demand: u64) -> Page
    ensures exact { result ≡ page_of (stair_line interval.0 demand) }
{
    let days = interval.0 as u64;
    if days < demand {
        lone_line(
            b"interval # demand # over #\n",
            &[days, demand, demand - days],
        )
    } else {
        lone_line(
            b"interval # demand # spare #\n",
            &[days, demand, days - demand],
        )
    }
}

// Intervals that break the rule, from one to another, of those that are compared.
pub fn stretch_line(first: Length, last: Length, end: Length) -> Page
    ensures exact { result ≡ page_of (stretch_line first.0 last.0 end.0) }
{
    if first == last {
        lone_line(b"broken at #, of #\n", &[first.0 as u64, end.0 as u64])
    } else {
        lone_line(
            b"broken at # to #, of #\n",
            &[first.0 as u64, last.0 as u64, end.0 as u64],
        )
    }
}

#[tactic(auto, unfolding(rules::specs::Lines::bytes_of, crate::specs::Why::nowhere_line))]
pub fn nowhere_line(end: Length) -> Page
    ensures exact { result ≡ page_of (nowhere_line end.0) }
{
    lone_line(b"broken nowhere, of #\n", &[end.0 as u64])
}
