// Why a plan file is refused, by name: what stands behind the line of a refusal.
ghost use Rattle.std.specs.Prelude.{◌≡◌, ◌++◌, ◌+◌, ◌≤◌};
ghost use Rattle.lines.specs.Pages.{page_of, text_of};
ghost use Rattle.lines.specs.Reasons.{reason_words, reason_line};

use super::Page;
use super::pages::blank;
use faults::Fault;

// Which rule of a refusal's number is broken, with the numbers that it speaks of: 1, 2, 3, 4, 5, 6, 7, 8 in this order. A character is
// counted from 1 within its line.
#[derive(Clone, Copy, PartialEq, Eq)]
pub enum Reason {
    TooLong,
    Empty,
    CarriageReturn { character: u64 },
    Space { character: u64 },
    Capital { character: u64 },
    NoDigit { character: u64 },
    OddNumber { characters: u64 },
    Unended,
    NoHeader,
    StringMissing { place: u64, n: u64 },
    OtherKind { kind: u64, due: u64 },
    OtherVersion { version: u64 },
    OtherLength { bytes: u64, due: u64 },
    StringsOut { n: u64 },
    CommonCostOut { a: u64 },
    RunOut { run: u64 },
    PeriodOut { place: u64, t: u64 },
    DueOut { place: u64, d: u64, t: u64 },
    LateOut { place: u64, j: u64, d: u64 },
    NoWork { place: u64 },
    WorkOut { place: u64, c: u64, d: u64 },
    LateWorkOut { place: u64, c: u64, d: u64, j: u64 },
    PermissionOut { place: u64, x: u64 },
    CostOut { place: u64, a: u64 },
    Fits { place: u64, t: u64, smaller: u64 },
    NoneFits { place: u64, t: u64, d: u64 },
    OverThousand,
    PlaceOut { place: u64, n: u64 },
    NeedOut { place: u64, need: u64, c: u64 },
    AfterRun { day: u64, run: u64 },
    OutOfOrder { day: u64, ahead: u64 },
    BeforeDue { day: u64, due: u64 },
    TooLate { day: u64, j: u64, due: u64 },
    TooClose { due: u64, t: u64, last: u64 },
}

impl Page {
    // The reason behind the text of the page.
    #[tactic(auto, unfolding(rules::specs::Lines::bytes_of, rules::specs::Lines::worded_in, crate::specs::Reasons::reason_words))]
    fn append_reason(self, reason: Reason) -> Page
        requires { self.len ≤ 64 }
        ensures exact { text_of result ≡ text_of self ++ reason_words reason }
    {
        match reason {
            Reason::TooLong => self.append(b"more than 65536 bytes\n"),
            Reason::Empty => self.append(b"the line is empty\n"),
            Reason::CarriageReturn { character } => self.fill_in(
                b"character # is a carriage return\n",
                &[character],
            ),
            Reason::Space { character } => self.fill_in(b"character # is a space\n", &[character]),
            Reason::Capital { character } => self.fill_in(
                b"character # is a capital letter\n",
                &[character],
            ),
            Reason::NoDigit { character } => self.fill_in(
                b"character # is not one of 0 to 9, a to f\n",
                &[character],
            ),
            Reason::OddNumber { characters } => self.fill_in(
                b"# characters, an odd number\n",
                &[characters],
            ),
            Reason::Unended => self.append(b"the line has no line end\n"),
            Reason::NoHeader => self.append(b"the file is empty\n"),
            Reason::StringMissing { place, n } => self.fill_in(
                b"string # of # is missing\n",
                &[place, n],
            ),
            Reason::OtherKind { kind, due } => self.fill_in(
                b"kind # in place of #\n",
                &[kind, due],
            ),
            Reason::OtherVersion { version } => self.fill_in(
                b"version # is none of 1, 2, 3\n",
                &[version],
            ),
            Reason::OtherLength { bytes, due } => self.fill_in(
                b"length # in place of #\n",
                &[bytes, due],
            ),
            Reason::StringsOut { n } => self.fill_in(b"n # is not 1 to 10\n", &[n]),
            Reason::CommonCostOut { a } => self.fill_in(b"A # above 1000\n", &[a]),
            Reason::RunOut { run } => self.fill_in(b"N # is not 1 to 1000000\n", &[run]),
            Reason::PeriodOut { place, t } => self.fill_in(
                b"string #, T # is not 1 to 1000\n",
                &[place, t],
            ),
            Reason::DueOut { place, d, t } => self.fill_in(
                b"string #, D # is not 1 to T #\n",
                &[place, d, t],
            ),
            Reason::LateOut { place, j, d } => self.fill_in(
                b"string #, J # not below D #\n",
                &[place, j, d],
            ),
            Reason::NoWork { place } => self.fill_in(b"string #, C 0 below 1\n", &[place]),
            Reason::WorkOut { place, c, d } => self.fill_in(
                b"string #, C # above D #\n",
                &[place, c, d],
            ),
            Reason::LateWorkOut { place, c, d, j } => self.fill_in(
                b"string #, C # above D # less J #\n",
                &[place, c, d, j],
            ),
            Reason::PermissionOut { place, x } => self.fill_in(
                b"string #, X # is not 0 or 1\n",
                &[place, x],
            ),
            Reason::CostOut { place, a } => self.fill_in(
                b"string #, A # above 1000\n",
                &[place, a],
            ),
            Reason::Fits { place, t, smaller } => self.fill_in(
                b"string #, T # brings H over 100000; T # fits\n",
                &[place, t, smaller],
            ),
            Reason::NoneFits { place, t, d } => self.fill_in(
                b"string #, T # brings H over 100000; no T from D # on fits\n",
                &[place, t, d],
            ),
            Reason::OverThousand => self.append(b"a release after the 1000th\n"),
            Reason::PlaceOut { place, n } => self.fill_in(b"place # is not 1 to #\n", &[place, n]),
            Reason::NeedOut { place, need, c } => self.fill_in(
                b"string #, need # is not 1 to C #\n",
                &[place, need, c],
            ),
            Reason::AfterRun { day, run } => self.fill_in(b"day # is not below N #\n", &[day, run]),
            Reason::OutOfOrder { day, ahead } => self.fill_in(
                b"day # is before day # of the release ahead\n",
                &[day, ahead],
            ),
            Reason::BeforeDue { day, due } => self.fill_in(
                b"day # is before its due day #\n",
                &[day, due],
            ),
            Reason::TooLate { day, j, due } => self.fill_in(
                b"day # is over J # days after its due day #\n",
                &[day, j, due],
            ),
            Reason::TooClose { due, t, last } => self.fill_in(
                b"due day # is less than T # days after # of the same string\n",
                &[due, t, last],
            ),
        }
    }
}

// The line of a refusal, and its reason.
#[tactic(auto, using(crate::proofs::Growing::page_is), unfolding(rules::specs::Lines::bytes_of, crate::specs::Reasons::reason_line))]
pub fn reason_line(fault: Fault, at: usize, reason: Reason) -> Page
    ensures exact { result ≡ page_of (reason_line fault at reason) }
{
    blank()
        .fill_in(b"refused # line #: ", &[u32::from(fault) as u64, at as u64])
        .append_reason(reason)
}
