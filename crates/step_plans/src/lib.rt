//! Plans of steps, made from a volume as it was loaded.
#![tactic(auto)]

mod copies;
mod extents;
mod parts;
mod plans;
mod rows;

pub use copies::{SetAt, SetCopy, carry_set, copy_set};
pub use extents::kind_for;
pub use parts::{PartSet, part_set};
pub use plans::{MOST_EXTENTS, delete_set, join_set, repair_space, reset_flag, shrink_set};
pub use rows::row_of;
pub use unit_steps;
pub use unit_steps::{render_laws, unit_change, vtoc_render};
