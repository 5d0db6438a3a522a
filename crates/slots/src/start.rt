// The slots before any release.
ghost use Rattle.std.specs.Prelude.{◌≡◌, map};
ghost use Rattle.rules.specs.Run.{empty_slot};

use days::Day;
use rules::{BatteryString, Job, Slot};

fn empty_slot(string: BatteryString) -> Slot
    ensures exact { result ≡ empty_slot string }
{
    Slot {
        string,
        job: Job::Empty,
        release: Day(0),
        deadline: Day(0),
        serves: 0,
    }
}

// The slots of day 0: a slot for each string, and no job.
pub fn empty_slots(strings: [BatteryString; 10]) -> [Slot; 10]
    ensures exact { result ≡ map empty_slot strings }
{
    strings.map(empty_slot)
}
