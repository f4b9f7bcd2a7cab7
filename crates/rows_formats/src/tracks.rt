//! Tests: heads, tracks and costs of an image.

use ckd_image::*;
use std::process::Abort;
use std::test::*;

const AT: TrackAt = TrackAt {
    cylinder: 1,
    head: 2,
};

/// A track with one record, whose key is `k` and whose body is `hi`.
static SLOT: [u8; 42] = [
    7, 0, 1, 0, 2, // flag and home address
    0, 1, 0, 2, 0, 0, 0, 8, 1, 2, 3, 4, 5, 6, 7, 8, // record 0
    0, 1, 0, 2, 1, 1, 0, 2, 107, 104, 105, // record 1
    255, 255, 255, 255, 255, 255, 255, 255, // end mark
    9, 9, // rest
];

#[test]
fn a_track_is_read(rt: HostRuntime) -> Result<(), Fail> {
    let track = parse_track(rt.alloc(), Device::D3390, AT, &SLOT)?;
    assert_eq!(rt; (track.flag, track.r0), (7, [1, 2, 3, 4, 5, 6, 7, 8]));
    assert_eq!(rt; track.recs.len(), 1);
    for rec in track.recs.as_slice() {
        assert_eq!(rt; rec.r, 1);
        assert_eq!(rt; rec.key.as_slice(), b"k".as_slice());
        assert_eq!(rt; rec.body.as_slice(), b"hi".as_slice());
    }
    Ok(())
}

#[test]
fn a_track_is_written_again(rt: HostRuntime) -> Result<(), Fail> {
    let mut recs = Recs::new(rt.alloc());
    recs.push(Rec {
        r: 1,
        key: Bytes::from_slice(rt.alloc(), b"k")?,
        body: Bytes::from_slice(rt.alloc(), b"hi")?,
    })?;
    let track = Track {
        flag: 7,
        r0: [1, 2, 3, 4, 5, 6, 7, 8],
        recs,
    };
    let mut slot = [9; 42];
    print_track(Device::D3390, AT, &track, &mut slot)?;
    assert_eq!(rt; slot[..40], SLOT[..40]);
    assert_eq!(rt; slot[41], 0);
    Ok(())
}

#[test]
fn a_track_gets_another_address(rt: HostRuntime) -> Result<(), Fail> {
    let mut slot = SLOT;
    let to = TrackAt {
        cylinder: 3,
        head: 4,
    };
    assert!(rt; readdress(Device::D3390, AT, to, &mut slot));
    assert_eq!(rt; &slot[..9], [7, 0, 3, 0, 4, 0, 3, 0, 4].as_slice());
    assert_eq!(rt; &slot[21..25], [0, 3, 0, 4].as_slice());
    assert_eq!(rt; slot[41], 9);
    Ok(())
}

/// The head of a device, as Hercules writes it: 15 heads, the bytes of a slot, and the device.
fn head_of(slot: u8, device: u8) -> [u8; 512] {
    let mut head = [0; 512];
    head[..20].copy_from_slice(b"CKD_P370\x0f\0\0\0\0\0\0\0\0\0\0\0");
    head[13] = slot;
    head[16] = device;
    head
}

#[test]
fn the_heads_of_both_devices_are_read(rt: HostRuntime) {
    let (device, tracks) = (Device::D3390, 15);
    assert_eq!(rt;
        Head::read(&head_of(0xde, 0x90), 15),
        Ok(Head { device, tracks })
    );
    let (device, tracks) = (Device::D3380, 30);
    assert_eq!(rt;
        Head::read(&head_of(0xba, 0x80), 30),
        Ok(Head { device, tracks })
    );
    let refused = Head::read(&head_of(0xba, 0x90), 15);
    assert_eq!(rt; refused, Err(CkdFault::BadHead(4)));
}

/// Asserts how many DSCBs and directory blocks a track takes, and that the longest record is the longest that fits.
fn assert_capacity(rt: &impl Abort, device: Device, dscbs: u32, blocks: u32) {
    assert_eq!(rt; device.capacity() / device.cost(44, 96), dscbs);
    assert_eq!(rt; device.capacity() / device.cost(8, 256), blocks);
    assert!(rt; device.cost(0, device.largest()) <= device.capacity());
    assert!(rt; device.cost(0, device.largest() + 1) > device.capacity());
}

#[test]
fn costs_are_those_of_the_tables(rt: HostRuntime) {
    assert_eq!(rt; Device::D3390.cost(0, 27_998), 864);
    assert_eq!(rt; Device::D3390.cost(0, 27_999), 865);
    assert!(rt; fits(Device::D3390, &[(0, 27_998), (0, 27_998)]));
    assert!(rt; !fits(Device::D3390, &[(0, 27_999), (0, 27_999)]));
    assert_eq!(rt; Device::D3390.cost(0, 23_476), 728);
    assert_eq!(rt; Device::D3380.cost(0, 23_476), 749);
    assert_capacity(&rt, Device::D3390, 50, 45);
    assert_capacity(&rt, Device::D3380, 53, 46);
}

#[test]
fn a_3350_counts_bytes(rt: HostRuntime) {
    let device = Device::D3350;
    assert_eq!(rt; device.cost(0, 19_069), 19_254);
    assert_eq!(rt; device.cost(0, 19_070), 19_255);
    assert!(rt; fits(device, &[(0, 19_069)]));
    assert!(rt; !fits(device, &[(0, 19_070)]));
    assert_eq!(rt;
        (47 * device.cost(44, 96), 48 * device.cost(44, 96)),
        (19_129, 19_536)
    );
    assert_eq!(rt;
        (36 * device.cost(8, 256), 37 * device.cost(8, 256)),
        (19_116, 19_647)
    );
    assert_capacity(&rt, device, 47, 36);
}

#[test]
fn lists_and_words_hold_what_is_put_in(rt: HostRuntime) -> Result<(), Fail> {
    let word = Word::copy_of(rt.alloc(), "--unit")?;
    assert_eq!(rt; word.as_str(), "--unit");
    let mut bytes = Bytes::new(rt.alloc());
    bytes.push(1)?;
    bytes.extend_from_slice(&[2, 3])?;
    assert_eq!(rt; bytes.as_slice(), [1, 2, 3].as_slice());
    let mut numbers: Listed<u8> = Listed::new(rt.alloc());
    numbers.push(4)?;
    assert_eq!(rt; numbers.as_slice(), [4].as_slice());
    Ok(())
}
