//! What the desk answers, byte by byte: heads of RFC 9112 and RFC 9110, and bodies of RFC 8259.
#![tactic(auto)]

mod bodies;
mod head;
mod job;
mod parts;
mod sent;

pub use bodies::{busy_body, error_body, hold_body, job_body, jobs_body, line_body, volume_body};
pub use head::AnswerHead;
pub use job::{Job, UnitLine, VolumeNumbers};
pub use sent::send;
