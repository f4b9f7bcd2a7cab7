//! Tests: labels, serials and their code page.

use ckd_image::{Bytes, Cchhr, Device, Head, NoMemory, Rec, Recs, Track, TrackAt};
use std::alloc::Global;
use std::process::Abort;
use std::test::*;
use vol_label::*;

/// `VOL1` in the code page.
const KEY: [u8; 4] = [0xe5, 0xd6, 0xd3, 0xf1];

/// `VOL001` and `VOL002`.
const FIRST: Serial = Serial {
    text: [0xe5, 0xd6, 0xd3, 0xf0, 0xf0, 0xf1],
};

const SECOND: Serial = Serial {
    text: [0xe5, 0xd6, 0xd3, 0xf0, 0xf0, 0xf2],
};

const HEAD: Head = Head {
    device: Device::D3390,
    tracks: 15,
};

/// Record 1 of track 1.
const VTOC: Cchhr = Cchhr {
    at: TrackAt {
        cylinder: 0,
        head: 1,
    },
    r: 1,
};

/// Track 0 with a label of this body.
fn track_of(alloc: Global, body: &[u8]) -> Result<Track, NoMemory> {
    let mut recs = Recs::new(alloc);
    recs.push(Rec {
        r: 3,
        key: Bytes::from_slice(alloc, &KEY)?,
        body: Bytes::from_slice(alloc, body)?,
    })?;
    Ok(Track {
        flag: 0,
        r0: [0; 8],
        recs,
    })
}

/// What a track says as a label, with another serial where it says one.
fn relabelled(track: &mut Track) -> Result<Label, LabelFault> {
    let label = Label::read(track, HEAD)?;
    put_serial(track, SECOND);
    Ok(label)
}

#[test]
fn a_label_gets_another_serial(rt: HostRuntime) -> Result<(), Fail> {
    let mut body = with_vtoc(FIRST, VTOC);
    assert_eq!(rt; &body[..4], KEY.as_slice());
    assert_eq!(rt; &body[10..17], [0x40, 0, 0, 0, 1, 1, 0x40].as_slice());
    body[37] = 0xc1; // a byte of the owner's name
    let mut track = track_of(rt.alloc(), &body)?;
    let (serial, vtoc) = (FIRST, VTOC);
    assert_eq!(rt; relabelled(&mut track), Ok(Label { serial, vtoc }));
    body[9] = 0xf2;
    for rec in track.recs.as_slice() {
        assert_eq!(rt; rec.body.as_slice(), body.as_slice());
    }
    Ok(())
}

/// Characters, and their bytes in the code page.
static PAIRS: [(u8, u8); 14] = [
    (b'A', 0xc1),
    (b'I', 0xc9),
    (b'J', 0xd1),
    (b'R', 0xd9),
    (b'S', 0xe2),
    (b'Z', 0xe9),
    (b'0', 0xf0),
    (b'9', 0xf9),
    (b'$', 0x5b),
    (b'#', 0x7b),
    (b'@', 0x7c),
    (b'.', 0x4b),
    (b'-', 0x60),
    (b' ', 0x40),
];

fn assert_pairs(rt: &impl Abort) {
    for &(ascii, ebcdic) in &PAIRS {
        assert_eq!(rt; to_ascii(ebcdic), Some(ascii));
        assert_eq!(rt; to_ebcdic(ascii), Some(ebcdic));
    }
}

#[test]
fn the_code_page_has_its_letters_digits_and_signs(rt: HostRuntime) {
    assert_pairs(&rt);
    assert_eq!(rt; Serial::read(b"VOL001"), Ok(FIRST));
}
