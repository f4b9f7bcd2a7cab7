//! Requests that are torn and stretched.

use crate::dice::Dice;
use crate::lawful::lawful;
use ckd_image::NoMemory;
use std::alloc::Global;

/// What is put between bytes: parts of a head or a body that say something else there, and bytes that stand nowhere.
static STRANGE: [&[u8]; 24] = [
    b"\r\n",
    b"\n",
    b"\r",
    b"\r\n\r\n",
    b" ",
    b"\t",
    b":",
    b"/",
    b"/run",
    b"?",
    b"%",
    b"\0",
    b"\xff\xfe",
    b"\xc3\xa9",
    b"\xed\xa0\x80",
    b"0",
    b"99999999999999999999",
    b"\r\ncontent-length: 0",
    b"\r\ncontent-length: 65537",
    b"\r\ntransfer-encoding: chunked",
    b"\"",
    b"\\u0000",
    b"{\"sysin\":\"\"}",
    b"[[[[[[[[[[[[[[[[[[[[[[[[[[[[[[[[[[[[[[[[[[[[[[[[[[[[[[[[[[[[[[[[[[[[[[[[[[[[[[[[[[[[[[[[[[[[[[[[[[[[[[[[[[[[[[[[[[[[[[[[[[[[[[[[[[[[[[[[[[[[",
];

/// Bytes cut at two places into three pieces.
struct Pieces<'a> {
    front: &'a [u8],
    middle: &'a [u8],
    behind: &'a [u8],
}

/// Cuts bytes at random places, which lie at most 40 bytes apart.
fn cut<'a>(dice: &mut Dice, text: &'a [u8]) -> Pieces<'a> {
    let (front, rest) = text.split_at(dice.below(text.len() + 1));
    let (middle, behind) = rest.split_at(dice.below(rest.len().min(40) + 1));
    Pieces {
        front,
        middle,
        behind,
    }
}

/// Pieces one after another.
fn joined(alloc: Global, pieces: &[&[u8]]) -> Result<Vec<u8>, NoMemory> {
    let mut text = Vec::new(alloc);
    for piece in pieces {
        text.extend_from_slice(piece)?;
    }
    Ok(text)
}

/// The first byte of some is another.
fn with_first(alloc: Global, text: &[u8], mask: u8) -> Result<Vec<u8>, NoMemory> {
    let mut text = Vec::from_slice(alloc, text)?;
    if let Some(first) = text.first_mut() {
        *first ^= mask;
    }
    Ok(text)
}

/// One change at a random place: bits are turned, bytes are taken out, doubled, cut off, moved or put in.
fn changed(alloc: Global, dice: &mut Dice, text: &[u8]) -> Result<Vec<u8>, NoMemory> {
    let Pieces {
        front,
        middle,
        behind,
    } = cut(dice, text);
    let strange = STRANGE[dice.below(STRANGE.len())];
    match dice.below(8) {
        0 | 1 => {
            let bit = 1u8 << dice.below(8);
            joined(alloc, &[front, &with_first(alloc, middle, bit)?, behind])
        }
        2 => {
            let mask = dice.below(256) as u8;
            joined(alloc, &[front, &with_first(alloc, middle, mask)?, behind])
        }
        3 => joined(alloc, &[front, behind]),
        4 => joined(alloc, &[front, middle, middle, middle, behind]),
        5 => joined(alloc, &[front, middle]),
        6 => joined(alloc, &[front, strange, middle, behind]),
        _ => joined(alloc, &[front, strange, behind, middle]),
    }
}

/// A request with up to four changes.
pub fn torn(alloc: Global, dice: &mut Dice) -> Result<Vec<u8>, NoMemory> {
    let mut text = lawful(alloc, dice)?;
    for _ in 0..dice.below(5) {
        text = changed(alloc, dice, &text)?;
    }
    Ok(text)
}
