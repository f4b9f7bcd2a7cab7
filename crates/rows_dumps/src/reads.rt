//! Tests: dumps that are read, whole or not.

use crate::full::full_text;
use crate::texts::{EMPTY, dropped_text, head, one_part_text};
use ckd_image::Bytes;
use dasd_pool::MemoryReel;
use dump_fmt::{DumpFault, DumpHead};
use dump_read::DumpReader;
use std::test::*;

/// What the reading of the header of a text answers.
fn header_of(rt: &HostRuntime, text: &[u8]) -> Result<Result<DumpHead, DumpFault>, Fail> {
    let text = Bytes::from_slice(rt.alloc(), text)?;
    let mut reel = MemoryReel::new(text, Vec::new(rt.alloc()));
    match DumpReader::start(rt.alloc(), &mut reel) {
        Ok(reader) => Ok(Ok(reader.head())),
        Err(fault) => Ok(Err(fault)),
    }
}

#[test]
fn a_header_is_read(rt: HostRuntime) -> Result<(), Fail> {
    assert_eq!(rt; header_of(&rt, &EMPTY[..32])?.ok(), head());
    let cut = header_of(&rt, &EMPTY[..31])?;
    assert_eq!(rt; cut, Err(DumpFault::Truncated(31)));
    Ok(())
}

/// What a check of a text answers.
fn check(rt: &HostRuntime, text: &[u8]) -> Result<Result<DumpHead, DumpFault>, Fail> {
    let text = Bytes::from_slice(rt.alloc(), text)?;
    let mut reel = MemoryReel::new(text, Vec::new(rt.alloc()));
    Ok(DumpReader::check(rt.alloc(), &mut reel))
}

/// Whether it answers a head.
fn is_whole(rt: &HostRuntime, text: &[u8]) -> Result<bool, Fail> {
    Ok(check(rt, text)?.is_ok())
}

/// The refusal of a check.
fn fault_of(rt: &HostRuntime, text: &[u8]) -> Result<Option<DumpFault>, Fail> {
    Ok(check(rt, text)?.err())
}

/// A text with another byte at a place.
fn changed(rt: &HostRuntime, text: &[u8], place: usize, byte: u8) -> Result<Vec<u8>, Fail> {
    let mut text = text.to_vec(rt.alloc())?;
    match text.as_mut_slice().get_mut(place) {
        Some(there) => *there = byte,
        None => return Err(Fail::new("no such byte")),
    }
    Ok(text)
}

/// The first place at which another byte is not refused at its offset with its number.
fn first_other(
    rt: &HostRuntime,
    text: &[u8],
    cases: &[(usize, u8, u64, u8)],
) -> Result<Option<usize>, Fail> {
    for (place, byte, offset, why) in cases {
        let text = changed(rt, text, *place, *byte)?;
        if fault_of(rt, text.as_slice())? != Some(DumpFault::BadDump(*offset, *why)) {
            return Ok(Some(*place));
        }
    }
    Ok(None)
}

/// What checks answer of a whole dump, of the dump without its last byte, with another last byte, and with a byte more.
#[derive(Clone, Copy, Debug, PartialEq, Eq)]
struct Answers {
    whole: bool,
    shorter: Option<DumpFault>,
    differs: bool,
    longer: Option<DumpFault>,
}

fn answers_to(rt: &HostRuntime, text: &[u8]) -> Result<Answers, Fail> {
    let Some((last, front)) = text.split_last() else {
        return Err(Fail::new("no bytes"));
    };
    let other = changed(rt, text, front.len(), !*last)?;
    let mut longer = text.to_vec(rt.alloc())?;
    longer.push(0)?;
    let differs = matches!(
        fault_of(rt, other.as_slice())?,
        Some(DumpFault::DigestDiffers { .. })
    );
    Ok(Answers {
        whole: is_whole(rt, text)?,
        shorter: fault_of(rt, front)?,
        differs,
        longer: fault_of(rt, longer.as_slice())?,
    })
}

/// What they are to answer where it has so many bytes.
fn of_length(length: u64) -> Answers {
    Answers {
        whole: true,
        shorter: Some(DumpFault::Truncated(length.saturating_sub(1))),
        differs: true,
        longer: Some(DumpFault::BadDump(length, 11)),
    }
}

#[test]
fn dumps_are_whole_to_the_byte(rt: HostRuntime) -> Result<(), Fail> {
    assert_eq!(rt; answers_to(&rt, &EMPTY)?, of_length(73));
    assert_eq!(rt;
        answers_to(&rt, &one_part_text(rt.alloc())?)?,
        of_length(316)
    );
    assert_eq!(rt;
        answers_to(&rt, &dropped_text(rt.alloc())?)?,
        of_length(220)
    );
    let full = full_text(rt.alloc())?;
    assert_eq!(rt; answers_to(&rt, full.as_slice())?, of_length(8_327));
    Ok(())
}

/// Another byte at a place of the dump of one part: the offset and the number of the refusal.
static LOGICAL: [(usize, u8, u64, u8); 22] = [
    (0, 0x42, 0, 1),
    (8, 0x4d, 8, 2),
    (9, 0x91, 9, 3),
    (31, 0x01, 28, 4),
    (32, 0x51, 32, 5),
    (32, 0x54, 32, 5),
    (77, 0xf3, 77, 6),
    (92, 0x01, 92, 6),
    (138, 0x01, 138, 6),
    (172, 0x01, 172, 6),
    (174, 0x01, 173, 6),
    (177, 0x80, 177, 6),
    (178, 0x00, 178, 5),
    (178, 0x5a, 178, 5),
    (188, 0xff, 188, 7),
    (190, 0x00, 190, 7),
    (192, 0xff, 192, 7),
    (274, 0xff, 274, 5),
    (274, 0x01, 274, 5),
    (275, 0x54, 275, 5),
    (276, 0x01, 276, 10),
    (283, 0x00, 280, 10),
];

#[test]
fn each_field_of_a_logical_dump_has_its_refusal(rt: HostRuntime) -> Result<(), Fail> {
    let text = one_part_text(rt.alloc())?;
    assert_eq!(rt; first_other(&rt, &text, &LOGICAL)?, None);
    Ok(())
}

/// The same of a full dump.
static FULL: [(usize, u8, u64, u8); 10] = [
    (27, 0x02, 32, 9),
    (36, 0x01, 33, 8),
    (37, 0x01, 37, 7),
    (353, 0x00, 41, 7),
    (262, 0x00, 32, 9),
    (354, 0x50, 354, 5),
    (436, 0x00, 354, 9),
    (8_286, 0x54, 8_286, 5),
    (8_290, 0x0e, 8_287, 10),
    (8_294, 0x0e, 8_291, 10),
];

#[test]
fn each_field_of_a_full_dump_has_its_refusal(rt: HostRuntime) -> Result<(), Fail> {
    let text = full_text(rt.alloc())?;
    assert_eq!(rt; first_other(&rt, text.as_slice(), &FULL)?, None);
    Ok(())
}

/// What a check answers where a call of the reel fails.
fn told(rt: &HostRuntime, call: u64) -> Result<Option<DumpFault>, Fail> {
    let text = Bytes::from_slice(rt.alloc(), &EMPTY)?;
    let mut reel = MemoryReel::new(text, [call].to_vec(rt.alloc())?);
    Ok(DumpReader::check(rt.alloc(), &mut reel).err())
}

#[test]
fn a_reel_that_fails_is_told(rt: HostRuntime) -> Result<(), Fail> {
    for call in 0..3 {
        assert_eq!(rt; told(&rt, call)?, Some(DumpFault::Reel));
    }
    Ok(())
}
