//! Tests: DSCBs and their fields.

use ckd_image::{Cchhr, TrackAt};
use dscb_rec::*;
use std::process::Abort;
use std::test::*;

/// A record with this format byte, and so many identifier bytes before it.
fn record(format: u8, id: u8, count: usize) -> [u8; 140] {
    let mut bytes = [0; 140];
    bytes[..count.min(44)].fill(id);
    bytes[44] = format;
    bytes
}

fn assert_read(rt: &impl Abort, bytes: [u8; 140], dscb: Dscb) {
    assert_eq!(rt; read_dscb(&bytes), Ok(dscb));
    assert_eq!(rt; write_dscb(&dscb), bytes);
}

#[test]
fn each_format_is_read_and_written_again(rt: HostRuntime) {
    assert_read(&rt, [0; 140], Dscb::Free);
    let one = record(0xf1, 0xc1, 44);
    assert_read(&rt, one, Dscb::F1(one));
    let three = record(0xf3, 3, 4);
    assert_read(&rt, three, Dscb::F3(three));
    let four = record(0xf4, 4, 44);
    assert_read(&rt, four, Dscb::F4(four));
    let five = record(0xf5, 5, 4);
    assert_read(&rt, five, Dscb::F5(five));
}

#[test]
fn an_extent_and_a_pointer_stand_at_their_bytes(rt: HostRuntime) {
    let first = TrackAt {
        cylinder: 258,
        head: 3,
    };
    let last = TrackAt {
        cylinder: 515,
        head: 4,
    };
    let extent = Extent {
        kind: 0x81,
        number: 2,
        first,
        last,
    };
    let mut dscb = record(0xf1, 0xc1, 44);
    put_extent(&mut dscb, 105, extent);
    assert_eq!(rt;
        &dscb[105..115],
        [0x81, 2, 1, 2, 0, 3, 2, 3, 0, 4].as_slice()
    );
    assert_eq!(rt; extent_of(&dscb, 105), extent);
    assert_eq!(rt; pointer_of(&dscb), None);
    dscb[135..].copy_from_slice(&[1, 2, 0, 3, 9]);
    assert_eq!(rt; pointer_of(&dscb), Some(Cchhr { at: first, r: 9 }));
}

/// Asserts that an entry of a format 5 stands at an offset.
fn assert_entry(rt: &impl Abort, place: usize, offset: usize) {
    let entry = Entry5 {
        first: 258,
        cylinders: 772,
        tracks: 5,
    };
    if place < 26 && offset <= 135 {
        let mut dscb = record(0xf5, 5, 4);
        put_entry(&mut dscb, place as u32, entry);
        assert_eq!(rt; &dscb[offset..offset + 5], [1, 2, 3, 4, 5].as_slice());
        assert_eq!(rt; entry_of(&dscb, place as u32), entry);
    }
}

#[test]
fn entries_stand_at_their_bytes(rt: HostRuntime) {
    assert_entry(&rt, 0, 4);
    assert_entry(&rt, 7, 39);
    assert_entry(&rt, 8, 45);
    assert_entry(&rt, 25, 130);
}

/// A format 1 by hand, in which each field differs from what stands one byte later.
static PAYROLL: [u8; 140] = [
    0xd7, 0xc1, 0xe8, 0xd9, 0xd6, 0xd3, 0xd3, 0x4b, 0xd4, 0xc1, 0xe2, 0xe3, 0xc5, 0xd9, // PAYROLL.MASTER
    0x40, 0x40, 0x40, 0x40, 0x40, 0x40, 0x40, 0x40, 0x40, 0x40, // blanks
    0x40, 0x40, 0x40, 0x40, 0x40, 0x40, 0x40, 0x40, 0x40, 0x40, // blanks
    0x40, 0x40, 0x40, 0x40, 0x40, 0x40, 0x40, 0x40, 0x40, 0x40, // blanks
    0xf1, // 44: format
    0xe5, 0xd6, 0xd3, 0xf0, 0xf0, 0xf3, // 45: VOL003
    1, 2, // 51: volume sequence
    126, 1, 45, // 53: creation
    129, 0, 95, // 56: expiry
    2, 7, // 59: extents
    0x10, // 61: flags
    0xc9, 0xc2, 0xd4, 0xd6, 0xe2, 0xe5, 0xe2, 0xf2, 0x40, 0x40, 0x40, 0x40, 0x40, // 62: system
    127, 0, 33, // 75: reference date
    0x8a, // 78: SMS flags
    0, 3, 4, // 79
    0x40, 0x00, // 82: organization
    0x90, // 84: record format
    0x20, // 85
    0x6d, 0x60, // 86: block length
    0x00, 0x50, // 88: record length
    9, // 90: key length
    0, 5, // 91
    0xa0, // 93: indicators
    0x42, 1, 3, 5, // 94: secondary allocation
    0, 44, 11, // 98: last block
    26, 43, 0, 0, // 101
    0x01, 0, 0, 5, 0, 3, 0, 5, 0, 9, // 105: extents
    0x81, 1, 0, 6, 0, 0, 0, 7, 0, 14, // 115
    0x01, 2, 1, 8, 0, 2, 1, 8, 0, 4, // 125
    0, 10, 0, 12, 13, // 135: pointer
];

fn date(year: u16, day: u16) -> Date {
    Date { year, day }
}

#[test]
fn a_format_1_says_its_names_and_dates(rt: HostRuntime) {
    let set = Format1::new(&PAYROLL);
    assert_eq!(rt; set.name().as_slice(), &PAYROLL[..44]);
    assert_eq!(rt; set.serial(), [0xe5, 0xd6, 0xd3, 0xf0, 0xf0, 0xf3]);
    assert_eq!(rt; set.volume_sequence(), 258);
    assert_eq!(rt; set.creation(), date(2026, 301));
    assert_eq!(rt; set.expiry(), date(2029, 95));
    assert_eq!(rt; set.reference(), date(2027, 33));
}

#[test]
fn a_format_1_says_its_kinds_and_lengths(rt: HostRuntime) {
    let set = Format1::new(&PAYROLL);
    assert_eq!(rt; set.flags(), 0x10);
    assert_eq!(rt; set.sms_flags(), 0x8a);
    assert_eq!(rt; set.organization(), 0x4000);
    assert_eq!(rt; set.record_format(), 0x90);
    assert_eq!(rt; set.block_length(), 28_000);
    assert_eq!(rt; set.record_length(), 80);
    assert_eq!(rt; set.key_length(), 9);
    assert_eq!(rt; set.indicators(), 0xa0);
    assert!(rt; set.is_last_volume());
    assert!(rt; !set.is_changed());
}

#[test]
fn a_format_1_says_its_space(rt: HostRuntime) {
    let set = Format1::new(&PAYROLL);
    assert_eq!(rt; set.extent_count(), 2);
    assert_eq!(rt; set.allocation_kind(), AllocationKind::Blocks);
    assert_eq!(rt; set.secondary_amount(), 66_309);
    let last = set.last_block();
    assert_eq!(rt;
        last,
        LastBlock {
            track: 44,
            record: 11
        }
    );
    assert!(rt; !last.is_none());
}

fn track(cylinder: u16, head: u16) -> TrackAt {
    TrackAt { cylinder, head }
}

#[test]
fn a_format_1_says_its_extents_and_pointer(rt: HostRuntime) {
    let set = Format1::new(&PAYROLL);
    assert_eq!(rt;
        set.extent(1),
        Extent {
            kind: 0x81,
            number: 1,
            first: track(6, 0),
            last: track(7, 14),
        }
    );
    assert_eq!(rt; set.extent(0).last, track(5, 9));
    assert_eq!(rt; set.extent(2).first, track(264, 2));
    assert_eq!(rt;
        set.pointer(),
        Some(Cchhr {
            at: track(10, 12),
            r: 13
        })
    );
}
