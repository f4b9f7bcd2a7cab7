//! Tests: the VTOC while a slide is open, and the mark that one sets. No run slides yet.

use ckd_image::{Cchhr, Device, Head, TrackAt};
use rows_bytes::{Change as Byte, GIVEN, RowsFault, VOL001, vtoc_slot};
use rows_slots::loaded;
use std::alloc::Global;
use std::test::*;
use vol_label::{Label, Serial};
use volume_change::Change;
use vtoc_check::VtocFault;
use vtoc_render::{Rendered, render};

const HEAD: Head = Head {
    device: Device::D3390,
    tracks: 15,
};

/// The label of VOL001, whose pointer is record 1 of track 1.
const LABEL: Label = Label {
    serial: Serial { text: VOL001 },
    vtoc: Cchhr {
        at: TrackAt {
            cylinder: 0,
            head: 1,
        },
        r: 1,
    },
};

/// Byte 58 of the format 4, and the first track that the one entry of the format 5 states.
const INDICATORS: usize = 87;

const STATED: usize = 182;

/// The slot of the VTOC of the volume without data sets, of which these bytes are changed.
fn slot_with(alloc: Global, changes: &[Byte]) -> Result<Vec<u8>, RowsFault> {
    let mut slot = vtoc_slot(alloc, GIVEN)?;
    for (place, byte) in changes {
        if let Some(found) = slot.as_mut_slice().get_mut(*place) {
            *found = *byte;
        }
    }
    Ok(slot)
}

/// Whether the free space of such a VTOC isn't stated, or why it isn't loaded.
fn is_unstated(
    alloc: Global,
    changes: &[Byte],
    sliding: bool,
) -> Result<Result<bool, VtocFault>, RowsFault> {
    let slot = slot_with(alloc, changes)?;
    Ok(match loaded(alloc, HEAD, &LABEL, &slot, sliding) {
        Ok(Some(volume)) => Ok(volume.repair),
        Ok(None) => Err(VtocFault::NoMemory),
        Err(fault) => Err(fault),
    })
}

#[test]
fn an_open_slide_leaves_free_space_stated(rt: HostRuntime) -> Result<(), Fail> {
    let marked = [(INDICATORS, 0x04)];
    assert_eq!(rt; is_unstated(rt.alloc(), &marked, false)?, Ok(true));
    assert_eq!(rt; is_unstated(rt.alloc(), &marked, true)?, Ok(false));
    let wrong = [(INDICATORS, 0x04), (STATED, 3)];
    assert_eq!(rt; is_unstated(rt.alloc(), &wrong, false)?, Ok(true));
    let fault = VtocFault::BadVtoc(1, 1, 10);
    assert_eq!(rt; is_unstated(rt.alloc(), &wrong, true)?, Err(fault));
    Ok(())
}

/// What a mark makes of a VTOC.
fn marked(alloc: Global, slot: &[u8]) -> Result<Option<Rendered>, VtocFault> {
    let Some(volume) = loaded(alloc, HEAD, &LABEL, slot, false)? else {
        return Ok(None);
    };
    if volume.repair {
        return Ok(None);
    }
    Ok(Some(render(alloc, &volume, slot, &Change::Mark)?))
}

/// Whether it writes track 1 alone, with these bytes.
fn writes(rendered: &Rendered, slot: &[u8]) -> bool {
    let blocks = rendered.blocks.as_slice();
    blocks.len() == 1
        && blocks
            .iter()
            .all(|block| block.track == 1 && block.slot.as_slice() == slot)
}

// Of the format 4's indicators X'10' stays.
#[test]
fn a_mark_is_one_bit(rt: HostRuntime) -> Result<(), Fail> {
    let before = slot_with(rt.alloc(), &[(INDICATORS, 0x10)])?;
    let after = slot_with(rt.alloc(), &[(INDICATORS, 0x14)])?;
    let rendered = marked(rt.alloc(), &before)?.expect(&rt, "no VTOC");
    assert!(rt; writes(&rendered, &after));
    Ok(())
}
