// A command is its words, each ended by a byte 0: the words of a start, or those of a line in a list of commands.
ghost use Rattle.std.specs.Counts.{IsPrefixLen};

use super::outside::word_count;
use std::rt::Env;

#[derive(Clone, Copy)]
pub(crate) struct Command<'a> {
    pub(crate) words: &'a [u8],
}

impl<'a> Command<'a> {
    // A word, counted from 0; an empty one where there is none.
    pub(crate) fn word(self, k: usize) -> &'a [u8] {
        self.words.split(|b| *b == 0).nth(k).unwrap_or(&[])
    }

    // How many words there are.
    pub(crate) fn count(self) -> usize {
        self.words.iter().filter(|b| **b == 0).count()
    }
}

// The first bytes of a text, or all of it where it has fewer.
pub(crate) fn first(text: &[u8], n: usize) -> &[u8] {
    &text[..n.min(text.len())]
}

// Why a word is no number below 2^64 in decimal digits.
#[derive(Clone, Copy, PartialEq, Eq)]
pub(crate) enum NoNumber {
    Larger,
    Malformed,
}

// A number that is too large as far as it was read.
fn larger(rest: &[u8]) -> NoNumber {
    if rest.iter().all(|b| b.is_ascii_digit()) {
        NoNumber::Larger
    } else {
        NoNumber::Malformed
    }
}

// The number that a word writes in decimal digits. std's `parse` takes a sign, too.
pub(crate) fn decimal(word: &[u8]) -> Result<u64, NoNumber> {
    if word.is_empty() {
        return Err(NoNumber::Malformed);
    }
    let mut value: u64 = 0;
    for (i, b) in word.iter().enumerate() {
        if !b.is_ascii_digit() {
            return Err(NoNumber::Malformed);
        }
        let digit = u64::from(*b - b'0');
        let Some(next) = value
            .checked_mul(10)
            .and_then(|tens| tens.checked_add(digit))
        else {
            return Err(larger(&word[i..]));
        };
        value = next;
    }
    Ok(value)
}

// The words of this start from the `from`-th on, in lent room; their length, or 0 where one is empty or there is too little room.
pub(crate) fn taken(rt: &HostRuntime, from: usize, room: &mut [u8]) -> usize
    ensures { IsPrefixLen result room.new }
{
    let mut at: usize = 0;
    for i in from..word_count(rt) {
        let n = rt.arg(i, &mut room[at..]).unwrap_or(0);
        if n == 0 {
            return 0;
        }
        at += n;
        if room.len() <= at {
            return 0;
        }
        room[at] = 0;
        at += 1;
    }
    at
}
