//! The statements of a script over the volumes of a session, one after the other, and the lines that they print.
#![tactic(auto)]

mod built;
mod left;
mod lines;
mod run;

pub use built::are_built;
pub use job_ops::unit_session;
pub use left::Left;
pub use lines::{LinesFault, write_messages};
pub use run::run_script;
