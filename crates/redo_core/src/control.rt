//! What the control block says.

ghost use Rattle.std.specs.Prelude.{◌≡◌, ◌+◌, ◌-◌, ◌++◌, length, map, drop, replicate, IfOk};
ghost use Rattle.std.specs.Int.{bit_at};
ghost use Rattle.std.specs.List.{range_with_len};
ghost use Rattle.redo_core.specs.declared.control.Control.TheVariants.{Slide};
ghost use Rattle.redo_core.specs.Format.{wide, control_text};
ghost use Rattle.redo_core.specs.Statuses.{HasFour, status_text, block_saying};

use ckd_image::text::put_over;
use ckd_image::{Bytes, NoMemory};
use std::alloc::Global;

/// What is under way: nothing, or a slide of tracks of a unit to lower places.
#[derive(Clone, Copy, Debug, PartialEq, Eq)]
pub enum Control {
    Idle,
    Slide {
        unit: u32,
        from: u32,
        to: u32,
        len: u32,
        done: u32,
    },
}

/// The front of a control block that says this slide.
fn slide_text(unit: u32, from: u32, to: u32, len: u32, done: u32) -> [u8; 24]
    ensures text { result ≡ control_text (Slide unit from to len done) }
    ensures fits { HasFour (Slide unit from to len done) }
{
    let mut text = [0; 24];
    text[0] = 1;
    put_over(&mut text, 4, &unit.to_be_bytes());
    put_over(&mut text, 8, &from.to_be_bytes());
    put_over(&mut text, 12, &to.to_be_bytes());
    put_over(&mut text, 16, &len.to_be_bytes());
    put_over(&mut text, 20, &done.to_be_bytes());
    text
}

/// The front of a control block that says this.
fn front(control: Control) -> [u8; 24]
    ensures text { result ≡ control_text control }
    ensures fits { HasFour control }
{
    match control {
        Control::Idle => [0; 24],
        Control::Slide {
            unit,
            from,
            to,
            len,
            done,
        } => slide_text(unit, from, to, len, done),
    }
}

/// Each bit as a byte.
fn bits(filling: u64) -> [u8; 64]
    ensures { result ≡ map (bit_at filling) (range_with_len 0 64) }
{
    let mut bytes = [0; 64];
    for unit in 0..64usize {
        bytes[unit] = ((filling >> unit) & 1) as u8;
    }
    bytes
}

/// The front of a control block: what is under way, and of each volume number whether a fill is.
fn status(control: Control, filling: u64) -> [u8; 128]
    ensures text { result ≡ status_text control filling }
    ensures fits { HasFour control }
{
    let mut text = [0; 128];
    put_over(&mut text, 0, &front(control));
    put_over(&mut text, 64, &bits(filling));
    text
}

/// A block of zeros.
fn zeros(alloc: Global) -> Result<Bytes, NoMemory>
    ensures { IfOk result (λ zeros. zeros ≡ replicate wide 0) }
{
    let zeros = vec![in alloc; 0; 65_536]?;
    Ok(Bytes::from_vec(zeros))
}

/// Makes of a block with zeros behind its front the control block that says this.
pub(crate) fn put_status(block: &mut Bytes, control: Control, filling: u64)
    requires size { length block.old ≡ wide }
    requires behind { drop 128 block.old ≡ replicate (wide - 128) 0 }
    ensures says { block.new ≡ block_saying control filling }
    ensures fits { HasFour control }
{
    block.put_over(0, &status(control, filling));
}

/// A control block that says this.
pub(crate) fn control_block(
    alloc: Global,
    control: Control,
    filling: u64,
) -> Result<Bytes, NoMemory>
    ensures says { IfOk result (λ block. block ≡ block_saying control filling) }
    ensures fits { HasFour control }
{
    let mut block = zeros(alloc)?;
    put_status(&mut block, control, filling);
    Ok(block)
}
