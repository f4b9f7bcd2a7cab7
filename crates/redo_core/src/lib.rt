//! Several blocks of a pool are written at once, or none.
#![tactic(auto)]

mod blocks;
mod commit;
mod control;
mod entries;
mod fault;
mod format;
mod head;
mod journal;
mod labels;
mod laws;
mod opening;
mod redo;
mod status;
mod survey;
mod target;

pub use control::Control;
pub use entries::{Entries, Entry};
pub use fault::{JournalFault, JournalRule};
pub use head::journal_head;
pub use journal::{Journal, JournalStop};
pub use laws::{control_laws, making_laws, opening_laws};
pub use opening::is_same;
pub use survey::{are_apart, are_serials};
pub use target::Target;
