// What a C program gives: a plan and a list of releases as rows of numbers.
ghost use Rattle.std.specs.Prelude.{◌≡◌, ◌+◌, ◌-◌, ◌*◌, ◌≤◌, length, get_or};
ghost use Rattle.entries.specs.Given.{string_count, string_from, plan_given, release_count, need_from, release_from, releases_given, limit_given};

use days::{Day, Length};
use faults::Refusal;
use lines::Limit;
use rules::{BatteryString, NO_RELEASE, NO_STRING, Plan, Release, Releases};
use slack::{Letter, limit_at};

// The number at a place; 0 where the numbers have ended.
fn number_at(numbers: &[u32], at: usize) -> u32
    ensures exact { result ≡ get_or numbers.now at 0 }
{
    numbers.get(at).copied().unwrap_or(0)
}

// n. Numbers that are no plan of at most ten strings have none, and a plan without strings is refused.
#[tactic(auto, unfolding(crate::specs::Given::string_count))]
fn string_count(numbers: &[u32]) -> usize
    ensures exact { result ≡ string_count numbers.now }
    ensures few { result ≤ 10 }
    ensures room { result * 6 ≤ length numbers.now - 1 }
{
    let n = numbers.len() / 6;
    if numbers.len() % 6 == 1 && n <= 10 {
        n
    } else {
        0
    }
}

// The string whose six numbers start at `at`.
fn string_from(numbers: &[u32], at: usize) -> BatteryString
    requires { at + 6 ≤ length numbers.now }
    ensures exact { result ≡ string_from numbers.now at }
{
    let t = Length(numbers[at]);
    let c = Length(numbers[at + 1]);
    let d = Length(numbers[at + 2]);
    let x = numbers[at + 3];
    let a = Length(numbers[at + 4]);
    let j = Length(numbers[at + 5]);
    BatteryString { t, c, d, x, a, j }
}

// The plan that the numbers say.
pub(crate) fn plan_given(numbers: &[u32]) -> Plan
    ensures exact { result ≡ plan_given numbers.now }
{
    let n = string_count(numbers);
    let run = Length(number_at(numbers, 0));
    let mut strings = [NO_STRING; 10];
    for i in 0..n {
        strings[i] = string_from(numbers, 1 + i * 6);
    }
    Plan { n, run, strings }
}

// How many releases there are. One that lacks a number counts: it is refused at its place.
#[tactic(auto, unfolding(crate::specs::Given::release_count))]
fn release_count(numbers: &[u32]) -> usize
    ensures exact { result ≡ release_count numbers.now }
{
    numbers.len().div_ceil(4)
}

// The need of the release whose four numbers start at `at`: none where one of them is lacking.
#[tactic(auto, unfolding(crate::specs::Given::need_from))]
fn need_from(numbers: &[u32], at: usize) -> u32
    requires { at ≤ 4000 }
    ensures exact { result ≡ need_from numbers.now at }
{
    if at + 3 < numbers.len() {
        return numbers[at + 2];
    }
    0
}

// The release whose four numbers start at `at`.
fn release_from(numbers: &[u32], at: usize) -> Release
    requires { at ≤ 4000 }
    ensures exact { result ≡ release_from numbers.now at }
{
    let day = Day(number_at(numbers, at));
    let place = number_at(numbers, at + 1) as usize;
    let need = Length(need_from(numbers, at));
    let due = Day(number_at(numbers, at + 3));
    Release {
        day,
        place,
        need,
        due,
    }
}

// The releases that the numbers say.
pub(crate) fn releases_given(numbers: &[u32]) -> Releases
    ensures exact { result ≡ releases_given numbers.now }
{
    let count = release_count(numbers);
    let mut list = [NO_RELEASE; 1000];
    for i in 0..count.min(1000) {
        list[i] = release_from(numbers, i * 4);
    }
    Releases { count, list }
}

// The limit of the number that a letter names. Another letter names none: it is answered as a place without a string.
#[tactic(auto, unfolding(crate::specs::Given::limit_given))]
pub(crate) fn limit_given(p: Plan, place: usize, letter: u32) -> Result<Limit, Refusal>
    ensures exact { result ≡ limit_given p place letter }
{
    match letter {
        67 => limit_at(p, place, Letter::C),
        68 => limit_at(p, place, Letter::D),
        84 => limit_at(p, place, Letter::T),
        65 => limit_at(p, place, Letter::A),
        74 => limit_at(p, place, Letter::J),
        _ => limit_at(p, 0, Letter::C),
    }
}
