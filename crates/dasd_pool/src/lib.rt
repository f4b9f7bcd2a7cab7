//! The outside: pools of blocks, sources, sinks, media, reels and connections, in memory and over files.
#![tactic(auto)]

mod calls;
mod failures;
mod file;
mod file_unit;
mod kept;
mod link;
mod marks;
mod media;
mod memory;
mod memory_link;
mod order;
mod outside;
mod patience;
mod pool;
mod stream;
mod stream_link;
mod tear;
mod units;

pub use calls::{Call, Tear};
pub use file::{FileFailure, FilePool};
pub use file_unit::FileUnit;
pub use link::{Link, send_all};
pub use media::{FileMedium, FileReel, MemoryMedium, MemoryReel};
pub use memory::MemoryPool;
pub use memory_link::MemoryLink;
pub use order::write_in_order;
pub use outside::{Medium, MediumFault, ReadFault, Reel, ReelFault, Sink, Source, WriteFault};
pub use pool::{Pool, PoolFault};
pub use stream::{FileSink, FileSource, MemorySink, MemorySource};
pub use stream_link::StreamLink;
pub use units::UnitText;
