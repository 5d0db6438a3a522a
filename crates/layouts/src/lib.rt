// The layouts of the plan file, in bytes: version 01, document 01's, and versions 02 and 03 (document 02, W-207 and W-213). A frame starts
// with its kind, and a field starts where the one before it ends. In the text two digits write a byte, and a line ends by its 0a.
#![tactic(auto)]

ghost use Rattle.std.specs.Prelude.{◌≡◌};
ghost use Rattle.rules.specs.Layout.{held_to};
ghost use Rattle.layouts.specs.inner.Versions.{layouts_for, meant_by};

// A field: the bytes that stand ahead of it in its frame, and its own.
#[derive(Clone, Copy)]
pub struct Field {
    pub at: usize,
    pub size: usize,
}

// A frame: its kind, its bytes, and the bytes of text that its line takes.
#[derive(Clone, Copy)]
pub struct Layout {
    pub kind: u32,
    pub size: usize,
    pub line: usize,
}

// The versions of the plan file: 01, 02 and 03.
#[derive(Clone, Copy, PartialEq, Eq)]
pub enum Version {
    First,
    Second,
    Third,
}

// What a version says of a text: its number, its three frames, and the fields that other versions have in another place. `common` is
// the moving cost that the header says for every string, `own` the one that a string frame says, `late` its late days, `due` the due
// day that a release frame says. A field that a frame does not have takes no byte.
#[derive(Clone, Copy)]
pub struct Layouts {
    pub number: u32,
    pub header: Layout,
    pub common: Field,
    pub run: Field,
    pub string: Layout,
    pub own: Field,
    pub late: Field,
    pub release: Layout,
    pub due: Field,
}

// Macros, since a constant can call no function: the field right behind another, and the frame that ends with a field.
macro_rules! after {
    ($before:ident, $size:literal) => {
        Field {
            at: $before.at + $before.size,
            size: $size,
        }
    };
}

macro_rules! frame {
    ($kind:ident, $last:ident) => {
        Layout {
            kind: $kind,
            size: $last.at + $last.size,
            line: ($last.at + $last.size) * 2 + 1,
        }
    };
}

pub const KIND: Field = Field { at: 0, size: 1 };

// The header of any version: version, n.
const HEADER_KIND: u32 = 1;

pub const HEADER_NUMBER: Field = after!(KIND, 1);

pub const HEADER_COUNT: Field = after!(HEADER_NUMBER, 1);

// A string of any version: X, T, C, D.
const STRING_KIND: u32 = 2;

pub const STRING_X: Field = after!(KIND, 1);

pub const STRING_T: Field = after!(STRING_X, 2);

pub const STRING_C: Field = after!(STRING_T, 2);

pub const STRING_D: Field = after!(STRING_C, 2);

// A release of any version: place, day, need.
const RELEASE_KIND: u32 = 3;

pub const RELEASE_PLACE: Field = after!(KIND, 1);

pub const RELEASE_DAY: Field = after!(RELEASE_PLACE, 4);

pub const RELEASE_NEED: Field = after!(RELEASE_DAY, 2);

// Version 01: the header goes on with A, N. Its string frames say no moving cost and no late days, its release frames no due day.
const COMMON_01: Field = after!(HEADER_COUNT, 2);

const RUN_01: Field = after!(COMMON_01, 4);

const OWN_01: Field = after!(STRING_D, 0);

const LATE_01: Field = after!(OWN_01, 0);

const DUE_01: Field = after!(RELEASE_NEED, 0);

const LAYOUTS_01: Layouts = Layouts {
    number: 1,
    header: frame!(HEADER_KIND, RUN_01),
    common: COMMON_01,
    run: RUN_01,
    string: frame!(STRING_KIND, LATE_01),
    own: OWN_01,
    late: LATE_01,
    release: frame!(RELEASE_KIND, DUE_01),
    due: DUE_01,
};

// Version 02: the header goes on with N and says no moving cost. A string frame says its own after D. Its release frames are those of 01;
// they are said again, since a constant that takes over the rest of another (`..LAYOUTS_01`) is too large for the check.
const COMMON_02: Field = after!(HEADER_COUNT, 0);

const RUN_02: Field = after!(COMMON_02, 4);

const OWN_02: Field = after!(STRING_D, 2);

const LATE_02: Field = after!(OWN_02, 0);

const LAYOUTS_02: Layouts = Layouts {
    number: 2,
    header: frame!(HEADER_KIND, RUN_02),
    common: COMMON_02,
    run: RUN_02,
    string: frame!(STRING_KIND, LATE_02),
    own: OWN_02,
    late: LATE_02,
    release: frame!(RELEASE_KIND, DUE_01),
    due: DUE_01,
};

// Version 03: the header is that of 02. A string frame says its late days last, a release frame its due day.
const LATE_03: Field = after!(OWN_02, 2);

const DUE_03: Field = after!(RELEASE_NEED, 4);

const LAYOUTS_03: Layouts = Layouts {
    number: 3,
    header: frame!(HEADER_KIND, RUN_02),
    common: COMMON_02,
    run: RUN_02,
    string: frame!(STRING_KIND, LATE_03),
    own: OWN_02,
    late: LATE_03,
    release: frame!(RELEASE_KIND, DUE_03),
    due: DUE_03,
};

impl Version {
    // What the version says of its texts.
    #[tactic(auto, unfolding(rules::specs::Layout::held_to))]
    pub fn layouts(self) -> Layouts
        ensures exact { result ≡ layouts_for (meant_by self) }
    {
        match self {
            Version::First => LAYOUTS_01,
            Version::Second => LAYOUTS_02,
            Version::Third => LAYOUTS_03,
        }
    }
}

// The version that a header which names the number is held to: 01 where none has it, which refuses it.
#[tactic(auto, unfolding(rules::specs::Layout::held_to))]
pub fn held_to(number: u32) -> Version
    ensures exact { meant_by result ≡ held_to number }
{
    match number {
        2 => Version::Second,
        3 => Version::Third,
        _ => Version::First,
    }
}
