// The slots of a run: at which place stands the job that a day asks for, and what a step of a day makes of a job.
// Nothing is asked of a caller: each function answers for all inputs.
#![tactic(auto)]

mod choice; // choice.rt: the places that a day asks for
mod job; // job.rt: a job alone
mod start; // start.rt: the slots before any release

pub use choice::{due_place, holder_place, late_place, next_place, taker_place};
pub use job::{part_left, seated_job, spent_by, stopped_job, use_for};
pub use start::empty_slots;
