// Why something is refused, and where. Below the plan: whatever is checked is refused in these words.
#![tactic(auto)]

ghost use Rattle.std.specs.Prelude.{◌≡◌};
ghost use Rattle.faults.specs.Checks.{fault_number};

// Why a plan, a text or a list is refused.
#[derive(Clone, Copy, PartialEq, Eq)]
pub enum Fault {
    TextTooLong,
    LineMalformed,
    FrameWrong,
    StringCount,
    OutOfBounds,
    MultipleOver,
    ReleaseTooMany,
    ReleaseUnlawful,
    NoRoom,
    NoSuchDate,
    NoSuchEdition,
    CostsDiffer,
    RowMalformed,
    VisitUnlawful,
    SumDiffers,
}

// A refusal: the first fault, and where: a line, a place, or 0 for the whole.
#[derive(Clone, Copy, PartialEq, Eq)]
pub struct Refusal {
    pub fault: Fault,
    pub at: usize,
}

// Whether all rules were met; if not, the first fault.
pub type Checked = Result<(), Refusal>;

// The number that the documents give a fault.
impl From<Fault> for u32 {
    ghost from_gives = { λ f n. n ≡ fault_number f };

    fn from(fault: Fault) -> u32 {
        match fault {
            Fault::TextTooLong => 1,
            Fault::LineMalformed => 2,
            Fault::FrameWrong => 3,
            Fault::StringCount => 4,
            Fault::OutOfBounds => 5,
            Fault::MultipleOver => 6,
            Fault::ReleaseTooMany => 7,
            Fault::ReleaseUnlawful => 8,
            Fault::NoRoom => 9,
            Fault::NoSuchDate => 10,
            Fault::NoSuchEdition => 11,
            Fault::CostsDiffer => 12,
            Fault::RowMalformed => 13,
            Fault::VisitUnlawful => 14,
            Fault::SumDiffers => 15,
        }
    }
}
