//! Statements: what each command does to the volumes of a session, and what it says of it (DFSMSdss Storage Administration).
#![tactic(auto)]

mod asking;
mod consolidate;
mod copies;
mod listing;
mod log;
mod outcome;
mod release;
mod report;
mod reshaping;
mod sets;
mod statement;
mod task;
mod transfer;

pub use dump_sets::job_turns;
pub use job_lines::{Message, Reason, Severity, line_of};
pub use job_turns::UnitUse;
pub use job_turns::job_copies::job_select::select;
pub use job_turns::job_steps::unit_session;
pub use outcome::Outcome;
pub use report::{Messages, Report};
pub use statement::{is_built, run_statement, verb_of};
