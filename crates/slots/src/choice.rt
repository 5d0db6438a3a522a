// The places of the slots that a day asks for: the late job's, the one on the bank, the one that takes it, the next, the first due.
// A place counts from 1, and there is none where no slot passes.
ghost use Rattle.std.specs.Prelude.{◌≡◌, ◌≤◌, ◌&&◌, Bool, ltb, length, unwrap_or, IfSome};
ghost use Rattle.rules.specs.declared.Slot.{Slot};
ghost use Rattle.rules.specs.Run.{left, late_at, holder, may_take, due_before, next_up, goes_first, chosen};

use super::job::{is_on_bank, is_waiting, unfinished};
use days::Day;
use rules::Slot;

// The slot that passes and than which no other that passes is ahead; the first of several.
fn chosen_place<P: Fn(Slot) -> bool, A: Fn(Slot, Slot) -> bool>(
    slots: &[Slot],
    passes: P,
    is_ahead: A,
) -> Option<usize>
    requires asked { P.IsAlwaysCallable passes }
    requires compared { A.IsAlwaysCallable is_ahead }
    ensures exact { (ok : Slot → Bool) (ahead : Slot → Slot → Bool)
        → ((s : Slot) (b : Bool) → P.post passes s b → b ≡ ok s)
        → ((s r : Slot) (b : Bool) → A.post is_ahead s r b → b ≡ ahead s r)
        → unwrap_or result 0 ≡ chosen ok ahead slots.now (length slots.now) }
    ensures within { IfSome result (λ place. (1 ≤ place) × (place ≤ length slots.now)) }
{
    let mut best: Option<usize> = None;
    for (i, s) in slots.iter().enumerate() {
        let leads = match best {
            None => true,
            Some(place) => is_ahead(*s, slots[place - 1]),
        };
        if leads && passes(*s) {
            best = Some(i + 1);
        }
    }
    best
}

// Step 1: due on the day, and something is left.
pub fn late_place(slots: &[Slot], day: Day) -> Option<usize>
    ensures exact { unwrap_or result 0 ≡ late_at day.0 slots.now }
    ensures within { IfSome result (λ place. (1 ≤ place) × (place ≤ length slots.now)) }
{
    chosen_place(
        slots,
        |s| s.deadline == day && unfinished(s.job),
        |_, _| false,
    )
}

// Whoever holds the bank.
pub fn holder_place(slots: &[Slot]) -> Option<usize>
    ensures exact { unwrap_or result 0 ≡ holder slots.now }
    ensures within { IfSome result (λ place. (1 ≤ place) × (place ≤ length slots.now)) }
{
    chosen_place(slots, |s| is_on_bank(s.job), |_, _| false)
}

// Step 3: released on the day, allowed to take the bank, and due strictly before `due`; of those the one due first.
pub fn taker_place(slots: &[Slot], day: Day, due: Day) -> Option<usize>
    ensures exact { unwrap_or result 0 ≡ chosen (may_take day.0 due.0) due_before slots.now (length slots.now) }
    ensures within { IfSome result (λ place. (1 ≤ place) × (place ≤ length slots.now)) }
{
    chosen_place(
        slots,
        |s| is_waiting(s.job) && s.release == day && s.string.x == 1 && s.deadline < due,
        |s, r| s.deadline < r.deadline,
    )
}

// Step 4: the earlier deadline, then the earlier release.
fn goes_first(s: Slot, r: Slot) -> bool
    ensures exact { result ≡ goes_first s r }
{
    s.deadline < r.deadline || s.deadline == r.deadline && s.release < r.release
}

// Step 4: the waiting job that goes first.
pub fn next_place(slots: &[Slot]) -> Option<usize>
    ensures exact { unwrap_or result 0 ≡ next_up slots.now }
    ensures within { IfSome result (λ place. (1 ≤ place) × (place ≤ length slots.now)) }
{
    chosen_place(slots, |s| is_waiting(s.job), goes_first)
}

// The job due first of those with something left that are due after a day.
pub fn due_place(slots: &[Slot], after: Day) -> Option<usize>
    ensures exact { unwrap_or result 0
        ≡ chosen (λ s. ltb after.0 s.deadline.0 && ltb 0 (left s.job)) due_before slots.now (length slots.now) }
    ensures within { IfSome result (λ place. (1 ≤ place) × (place ≤ length slots.now)) }
{
    chosen_place(
        slots,
        |s| after < s.deadline && unfinished(s.job),
        |s, r| s.deadline < r.deadline,
    )
}
