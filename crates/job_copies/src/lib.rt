//! What is asked of a data set before it is copied, on the volumes as they were loaded: why it isn't, and where its copy stands (DFSMSdss
//! Storage Administration, COPY DATASET).
#![tactic(auto)]

mod copying;
mod judging;
mod places;
mod renames;
mod wish;

pub use copying::Copying;
pub use job_select;
pub use judging::is_name_held;
pub use renames::is_rename;
pub use step_room;
pub use step_room::{step_plans, unit_change, unit_steps, vtoc_render};
pub use wish::Wish;
