// The plan with every moving cost 0.
ghost use Rattle.std.specs.Prelude.{◌≡◌};
ghost use Rattle.exact.specs.Missing.{moved_freely, freely};

use days::Length;
use rules::{BatteryString, Plan};

pub(crate) fn moved_freely(s: BatteryString) -> BatteryString
    ensures { result ≡ moved_freely s }
{
    BatteryString { a: Length(0), ..s }
}

pub(crate) fn with_free_moving(p: Plan) -> Plan
    ensures { result ≡ freely p }
{
    let mut strings = p.strings;
    for s in strings.iter_mut() {
        *s = moved_freely(*s);
    }
    Plan { strings, ..p }
}
