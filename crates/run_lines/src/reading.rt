//! Reading a text to its end.

ghost use Rattle.std.specs.Prelude.{◌≡◌, ◌≢◌, ◌≤◌, length, IfOk, IfErr, OnOk};
ghost use Rattle.dasd_pool.specs.Stream.{EndsOnly};
ghost use Rattle.run_lines.specs.Texts.{IsTextOf, IsTextFault, TakesFew};
ghost use Rattle.run_lines.specs.declared.reading.TextFault.TheVariants as faults;

use ckd_image::Bytes;
use dasd_pool::{ReadFault, Source};
use std::alloc::{AllocError, Global};
use thiserror::Error;

/// The most bytes of a text.
pub const MOST_BYTES: usize = 1_048_576;

/// How many bytes are asked for at once, at most.
const CHUNK: usize = 4096;

/// Why a text isn't read.
#[derive(Clone, Copy, Debug, PartialEq, Eq, Error)]
pub enum TextFault {
    #[error("the source failed")]
    Source,
    #[error("the text is longer than a text may be")]
    Long,
    #[error("out of memory")]
    NoMemory,
}

impl From<ReadFault> for TextFault {
    ghost from_gives = { λ _ fault. fault ≡ faults.Source };

    fn from(_: ReadFault) -> TextFault {
        TextFault::Source
    }
}

impl From<AllocError> for TextFault {
    ghost from_gives = { λ _ fault. fault ≡ faults.NoMemory };

    fn from(_: AllocError) -> TextFault {
        TextFault::NoMemory
    }
}

/// Reads a text to its end, but no more than one byte beyond what a text may have.
pub fn read_text<S: Source>(alloc: Global, source: &mut S) -> Result<Bytes, TextFault>
    ensures text { IfOk result (λ text. IsTextOf (S.left source.old) text) }
    ensures end { OnOk result (EndsOnly (S.left source.new)) }
    ensures short { IfOk result (λ text. length text ≤ 1048576) }
    ensures fault { IfErr result (IsTextFault (S.left source.old) (S.faults source.old) (S.faults source.new)) }
    ensures few { OnOk result (TakesFew 1048577 (S.left source.old) (S.left source.new)) }
    ensures few_more { IfErr result (λ fault. fault ≢ TextFault.Source → TakesFew 1048577 (S.left source.old) (S.left source.new)) }
    ensures later { S.faults source.old ≤ S.faults source.new }
{
    let mut text = Vec::new(alloc);
    let mut chunk = [0; CHUNK];
    'chunks: while text.len() <= MOST_BYTES {
        let room = CHUNK.min(MOST_BYTES + 1 - text.len());
        let count = source.read(&mut chunk[..room])?;
        if count == 0 {
            return Ok(Bytes::from_vec(text));
        }
        text.extend_from_slice(&chunk[..count])?;
    }
    Err(TextFault::Long)
}
