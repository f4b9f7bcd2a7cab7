//! Tests: data sets that are fitted to another device.

ghost use Rattle.std.specs.Prelude.{◌≤◌, length, All, IfOk, OnOk};
ghost use Rattle.ckd_image.specs.Track.{IsRecord, IsTrack};

use ckd_image::{Bytes, Device, Listed, NoMemory, Rec, Recs, Track};
use org_reloc::*;
use std::alloc::Global;
use std::process::Abort;
use std::test::*;

/// A track of blocks of these lengths without keys.
fn track_of(alloc: Global, lengths: &[u16]) -> Result<Track, NoMemory>
    ensures { IfOk result IsTrack }
{
    let mut recs = Recs::new(alloc);
    for length in lengths {
        let body = vec![in alloc; 7; *length as usize]?;
        recs.push(Rec {
            r: 9,
            key: Bytes::new(alloc),
            body: Bytes::from_vec(body),
        })?;
    }
    Ok(Track {
        flag: 5,
        r0: [1; 8],
        recs,
    })
}

fn tracks_of(alloc: Global, lengths: &[&[u16]]) -> Result<Listed<Track>, NoMemory>
    ensures { IfOk result (All IsTrack) }
{
    let mut tracks = Listed::new(alloc);
    for track in lengths {
        tracks.push(track_of(alloc, track)?)?;
    }
    Ok(tracks)
}

fn assert_counts(rt: &impl Abort, refit: &Refit, counts: &[usize]) {
    assert_eq!(rt; refit.tracks.len(), counts.len());
    for (track, count) in refit.tracks.as_slice().iter().zip(counts) {
        assert_eq!(rt; track.recs.len(), *count);
        assert_eq!(rt; (track.flag, track.r0), (0, [0; 8]));
        for (number, rec) in (1u8..).zip(track.recs.as_slice()) {
            assert_eq!(rt; rec.r, number);
        }
    }
}

/// A sequential data set on another device.
fn packed(
    alloc: Global,
    devices: [Device; 2],
    lengths: &[&[u16]],
    last: [u8; 3],
) -> Result<Result<Refit, RelocFault>, NoMemory> {
    let tracks = tracks_of(alloc, lengths)?;
    let [from, to] = devices;
    Ok(refit_ps(alloc, from, to, tracks.as_slice(), last))
}

/// A track of either device takes two of the blocks, and on a 3390 an end of file behind them.
#[test]
fn a_sequential_data_set_is_packed_anew(rt: HostRuntime) -> Result<(), Fail> {
    let half = 23_476;
    let devices = [Device::D3380, Device::D3390];
    let refit = packed(
        rt.alloc(),
        devices,
        &[&[half, half], &[half, half], &[0]],
        [0, 1, 2],
    )??;
    assert_counts(&rt, &refit, &[2, 3]);
    assert_eq!(rt; refit.last, [0, 1, 2]);
    let refit = packed(
        rt.alloc(),
        devices,
        &[&[half, half], &[half, half], &[half, 0, 1]],
        [0, 2, 1],
    )??;
    assert_counts(&rt, &refit, &[2, 2, 2]);
    assert_eq!(rt; refit.last, [0, 2, 1]);
    Ok(())
}

/// Two of the blocks take all of a 3350's track, so that the end of file has one of its own.
#[test]
fn a_3350_takes_blocks_of_a_3390(rt: HostRuntime) -> Result<(), Fail> {
    let refit = packed(
        rt.alloc(),
        [Device::D3390, Device::D3350],
        &[&[9_442; 5], &[9_442; 5], &[9_442, 9_442, 0]],
        [0, 2, 2],
    )??;
    assert_counts(&rt, &refit, &[2, 2, 2, 2, 2, 2, 1]);
    assert_eq!(rt; refit.last, [0, 5, 2]);
    Ok(())
}

#[test]
fn a_block_is_too_long_for_a_3350(rt: HostRuntime) -> Result<(), Fail> {
    let devices = [Device::D3390, Device::D3350];
    let refit = packed(rt.alloc(), devices, &[&[19_069, 0]], [0, 0, 1])??;
    assert_counts(&rt, &refit, &[1, 1]);
    let refused = packed(rt.alloc(), devices, &[&[19_070, 0]], [0, 0, 1])?.err();
    assert_eq!(rt; refused, Some(RelocFault::BlockTooLong(19_070, 19_069)));
    Ok(())
}

/// The bytes of a directory block that begin so.
fn page(text: &[u8]) -> [u8; 256]
    requires { length text.now ≤ 256 }
{
    let mut body = [0; 256];
    body[..text.len()].copy_from_slice(text);
    body
}

/// A record of this length without a key.
fn block(alloc: Global, r: u8, length: u16) -> Result<Rec, NoMemory>
    requires { 1 ≤ r }
    ensures { IfOk result IsRecord }
{
    let body = vec![in alloc; 7; length as usize]?;
    Ok(Rec {
        r,
        key: Bytes::new(alloc),
        body: Bytes::from_vec(body),
    })
}

/// Records of these lengths without keys, numbered from one.
fn number(alloc: Global, recs: &mut Recs, first: u8, lengths: &[u16]) -> Result<(), NoMemory>
    requires first { 1 ≤ first }
    requires recs { All IsRecord recs.old }
    ensures { OnOk result (All IsRecord recs.new) }
{
    let mut r = first;
    for length in lengths {
        let next = block(alloc, r, *length)?;
        recs.push(next)?;
        r = r.saturating_add(1);
    }
    Ok(())
}

/// A track with a directory block before records of these lengths, and a track with others.
fn partitioned(
    alloc: Global,
    text: &[u8],
    first: &[u16],
    second: &[u16],
) -> Result<Listed<Track>, NoMemory>
    requires { length text.now ≤ 256 }
    ensures { IfOk result (All IsTrack) }
{
    let mut recs = Recs::new(alloc);
    recs.push(Rec {
        r: 1,
        key: Bytes::from_slice(alloc, &[0xff; 8])?,
        body: Bytes::from_slice(alloc, &page(text))?,
    })?;
    number(alloc, &mut recs, 2, first)?;
    let mut others = Recs::new(alloc);
    number(alloc, &mut others, 1, second)?;
    let mut tracks = Listed::new(alloc);
    tracks.push(zeroed(recs))?;
    tracks.push(zeroed(others))?;
    Ok(tracks)
}

fn zeroed(recs: Recs) -> Track
    requires { All IsRecord recs }
    ensures { IsTrack result }
{
    Track {
        flag: 0,
        r0: [0; 8],
        recs,
    }
}

fn first_body(refit: &Refit) -> Option<&[u8]> {
    let track = refit.tracks.as_slice().first()?;
    let rec = track.recs.as_slice().first()?;
    Some(rec.body.as_slice())
}

/// The directories before and behind, with an alias, and a member without blocks.
static ENTRIES: [&[u8]; 2] = [
    b"\x00\x34AAAAAAAA\x00\x01\x01\x00ALIAS   \x00\x01\x01\x80B       \x00\x00\x04\x01uu\xff\xff\xff\xff\xff\xff\xff\xff\x00\x00\x00\x00rest",
    b"\x00\x34AAAAAAAA\x00\x00\x05\x00ALIAS   \x00\x00\x05\x80B       \x00\x00\x03\x01uu\xff\xff\xff\xff\xff\xff\xff\xff\x00\x00\x00\x00rest",
];

/// Those of one member, whose only block fits no track beside the directory.
static MEMBER: [&[u8]; 2] = [
    b"\x00\x1aA       \x00\x00\x03\x00\xff\xff\xff\xff\xff\xff\xff\xff\x00\x00\x00\x00",
    b"\x00\x1aA       \x00\x01\x01\x00\xff\xff\xff\xff\xff\xff\xff\xff\x00\x00\x00\x00",
];

/// A partitioned data set of a 3390 on a 3380.
fn placed(
    alloc: Global,
    text: &[u8],
    first: &[u16],
    second: &[u16],
) -> Result<Result<Refit, RelocFault>, NoMemory>
    requires { length text.now ≤ 256 }
{
    let tracks = partitioned(alloc, text, first, second)?;
    Ok(refit_po(alloc, Device::D3390, Device::D3380, tracks.as_slice()))
}

/// Asserts how many records the tracks have, what the directory is, and which place is the last.
fn assert_placed(rt: &impl Abort, refit: &Refit, counts: &[usize], text: &[u8], last: [u8; 3])
    requires { length text.now ≤ 256 }
{
    assert_counts(rt, refit, counts);
    assert_eq!(rt; first_body(refit), Some(&page(text)[..]));
    assert_eq!(rt; refit.last, last);
}

#[test]
fn entries_name_the_new_places(rt: HostRuntime) -> Result<(), Fail> {
    let refit = placed(
        rt.alloc(),
        ENTRIES[0],
        &[0, 0, 80, 0, 33],
        &[100, 50, 0, 44],
    )??;
    assert_placed(&rt, &refit, &[7], ENTRIES[1], [0, 0, 7]);
    Ok(())
}

#[test]
fn a_member_goes_to_the_next_track(rt: HostRuntime) -> Result<(), Fail> {
    let refit = placed(rt.alloc(), MEMBER[0], &[0, 47_400, 0], &[])??;
    assert_placed(&rt, &refit, &[2, 1, 1], MEMBER[1], [0, 2, 1]);
    Ok(())
}

#[test]
fn a_block_that_fits_no_track_is_told(rt: HostRuntime) -> Result<(), Fail> {
    let refused = placed(rt.alloc(), MEMBER[0], &[0, 50_000, 0], &[])?.err();
    assert_eq!(rt; refused, Some(RelocFault::BlockTooLong(50_000, 47_476)));
    Ok(())
}
