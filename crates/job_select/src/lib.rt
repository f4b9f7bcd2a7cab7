//! Which data sets of a loaded volume a filter takes, and what commands ask of a data set before they change it (DFSMSdss Storage
//! Administration, filtering).
#![tactic(auto)]

mod judged;
mod names;
mod selection;
mod tracks;

pub use judged::{is_pinned, is_sequential_or_partitioned, organization_of};
pub use names::name_of;
pub use selection::select;
pub use tracks::{kept_tracks, track_count};
