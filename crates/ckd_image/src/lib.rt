//! The image of a volume in the Hercules CKD layout: devices, image head and track text.
#![tactic(auto)]

mod bytes;
mod device;
mod fault;
mod head;
mod laws;
mod listed;
mod parse;
mod print;
mod readdressing;
pub mod text;
mod track;
mod word;

pub use bytes::Bytes;
pub use device::{Device, fits};
pub use fault::{CkdFault, NoMemory};
pub use head::{Head, HeadRule};
pub use laws::track_laws;
pub use listed::Listed;
pub use parse::parse_track;
pub use print::print_track;
pub use readdressing::readdress;
pub use track::{Cchhr, Count, Rec, Recs, Track, TrackAt, TrackField, first_numbered};
pub use word::Word;
