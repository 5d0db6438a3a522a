// The words of the desk: the plan, its releases, the answers, and the slots of a run.
// Letters are document 01's: T, C, D, X and A of a string, n and N of a plan. A is each string's own (document 02, W-207), and so is J,
// its late days (W-213).
#![tactic(auto)]

ghost use Rattle.std.specs.Prelude.{◌≡◌};
ghost use Rattle.days.specs.Days.{days};
ghost use Rattle.rules.specs.Demand.{moving_cost};
ghost use Rattle.rules.specs.Plan.{with_run};
ghost use Rattle.rules.specs.Verdict.{is_pass};

use days::{Day, Length};

// A battery string: least days between two due days, most working days of a job, days from due day to deadline, whether its jobs may
// take the bank (1) or not (0), the moving days that a job pays which takes it, and how many days after its due day a job may come.
#[derive(Clone, Copy)]
pub struct BatteryString {
    pub t: Length,
    pub c: Length,
    pub d: Length,
    pub x: u32,
    pub a: Length,
    pub j: Length,
}

// Stands where there is no string; it is lawful nowhere.
pub const NO_STRING: BatteryString = BatteryString {
    t: Length(0),
    c: Length(0),
    d: Length(0),
    x: 0,
    a: Length(0),
    j: Length(0),
};

// A plan: n strings by place, and the days of its run. Of the ten strings the first n count.
#[derive(Clone, Copy)]
pub struct Plan {
    pub n: usize,
    pub run: Length,
    pub strings: [BatteryString; 10],
}

impl Plan {
    // What a job of the string pays for taking the bank: its own cost. The plan is asked, so that where the cost is kept
    // is said here alone.
    pub fn moving_cost(self, s: BatteryString) -> Length
        ensures exact { result ≡ days (moving_cost self s) }
    {
        s.a
    }

    // The plan with a run of another length.
    pub fn with_run(self, run: Length) -> Plan
        ensures exact { result ≡ with_run self run.0 }
    {
        Plan { run, ..self }
    }
}

// A release: its day, the place of its string (from 1), the working days it needs, and its due day, from which the deadline counts.
#[derive(Clone, Copy)]
pub struct Release {
    pub day: Day,
    pub place: usize,
    pub need: Length,
    pub due: Day,
}

// Stands where there is no release.
pub const NO_RELEASE: Release = Release {
    day: Day(0),
    place: 0,
    need: Length(0),
    due: Day(0),
};

// A list of releases. Of the thousand the first `count` count; a larger count is refused.
#[derive(Clone, Copy)]
pub struct Releases {
    pub count: usize,
    pub list: [Release; 1000],
}

// What a plan file says: the plan and its releases.
#[derive(Clone, Copy)]
pub struct PlanFile {
    pub plan: Plan,
    pub releases: Releases,
}

// The verdict on a plan. A fail names the interval, the blocking and the demand there; pairs are those compared.
#[derive(Clone, Copy)]
pub enum Verdict {
    Overload,
    Fail {
        interval: Length,
        blocking: Length,
        demand: Length,
        pairs: u32,
    },
    Pass {
        pairs: u32,
    },
}

impl Verdict {
    // Whether the plan passes.
    pub fn passes(self) -> bool
        ensures exact { result ≡ is_pass self }
    {
        matches!(self, Verdict::Pass { .. })
    }
}

// The first pair, in order of l, then b, at which the demand rule breaks.
#[derive(Clone, Copy)]
pub struct Broken {
    pub interval: Length,
    pub blocking: Length,
}

// What the search finds: a permission set, in which place 1 is worth 1, place 2 is worth 2, place 3 is worth 4; none where no set passes.
pub type Assign = Option<u32>;

// How a run ends: at a miss, or clean, with the days of each kind.
#[derive(Clone, Copy)]
pub enum Outcome {
    Miss {
        day: Day,
        place: usize,
    },
    Clean {
        work: Length,
        moving: Length,
        idle: Length,
    },
}

// All that is answered for a plan file that is lawful.
#[derive(Clone, Copy)]
pub struct Answers {
    pub verdict: Verdict,
    pub assign: Assign,
    pub outcome: Outcome,
}

// The figures of a lawful plan that its file does not say: H, the load, and E by place.
#[derive(Clone, Copy)]
pub struct Figures {
    pub multiple: u32,
    pub load: u32,
    pub holds: [u32; 10],
}

// The job of a slot, with the days of work and of moving that are left.
#[derive(Clone, Copy)]
pub enum Job {
    Empty,
    Waiting { work: Length, moving: Length },
    OnBank { work: Length, moving: Length },
}

// The slot of a string: its job, when that was released and is due, and which release of the list it serves (from 1).
#[derive(Clone, Copy)]
pub struct Slot {
    pub string: BatteryString,
    pub job: Job,
    pub release: Day,
    pub deadline: Day,
    pub serves: usize,
}

// What the bank did on a day: nothing, or work or moving for the release that the job at a place serves.
#[derive(Clone, Copy)]
pub enum Use {
    Idle,
    Work { place: usize, serves: usize },
    Move { place: usize, serves: usize },
}

// A stretch of days of the run on which the bank did one thing.
#[derive(Clone, Copy)]
pub struct Stint {
    pub first: Day,
    pub length: Length,
    pub used: Use,
}
