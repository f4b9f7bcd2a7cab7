//! The texts of header, pieces and trailer, as they are written.

ghost use Rattle.std.specs.Prelude.{◌≡◌, ◌≤◌, ◌++◌, length, All, IfOk, OnOk};
ghost use Rattle.ckd_image.specs.Track.{IsRecord, IsTrack};
ghost use Rattle.ckd_image.specs.Head.{device_byte as byte_of_device};
ghost use Rattle.dump_fmt.specs.Head.{kind_byte, volume_text, day_text, header_text};
ghost use Rattle.dump_fmt.specs.Pieces.{dumped_record, dumped_records, dumped_track, piece_text, counted_text, FitsFields};

use crate::piece::{DumpHead, Piece};
use ckd_image::{Bytes, Device, NoMemory, Rec, Track};
use std::alloc::Global;

/// The byte that names the device.
fn device_byte(device: Device) -> u8
    ensures { result ≡ byte_of_device device }
{
    match device {
        Device::D3390 => 0x90,
        Device::D3380 => 0x80,
        Device::D3350 => 0x50,
    }
}

/// The byte of a full or a logical dump.
fn kind(full: bool) -> u8
    ensures { result ≡ kind_byte full }
{
    if full { b'F' } else { b'L' }
}

fn put_volume(text: &mut Bytes, head: DumpHead) -> Result<(), NoMemory>
    ensures { OnOk result (text.new ≡ text.old ++ volume_text head) }
{
    text.extend_from_slice(b"ADRDUMP1")?;
    text.extend_from_slice(&[kind(head.full), device_byte(head.device)])?;
    text.extend_from_slice(&head.serial.text)?;
    text.extend_from_slice(&head.tracks.to_be_bytes())
}

fn put_day(text: &mut Bytes, head: DumpHead) -> Result<(), NoMemory>
    ensures { OnOk result (text.new ≡ text.old ++ day_text head) }
{
    text.extend_from_slice(&head.day.year.to_be_bytes())?;
    text.extend_from_slice(&head.day.day.to_be_bytes())?;
    text.extend_from_slice(&head.vtoc.to_be_bytes())?;
    text.extend_from_slice(&[0; 4])
}

/// The text of a header.
pub(crate) fn header_bytes(alloc: Global, head: DumpHead) -> Result<Bytes, NoMemory>
    ensures { IfOk result (λ text. text ≡ header_text head) }
{
    let mut text = Bytes::new(alloc);
    put_volume(&mut text, head)?;
    put_day(&mut text, head)?;
    Ok(text)
}

fn put_record(text: &mut Bytes, rec: &Rec) -> Result<(), NoMemory>
    requires { IsRecord rec.now }
    ensures { OnOk result (text.new ≡ text.old ++ dumped_record rec.now) }
{
    text.extend_from_slice(&[rec.r, rec.key.len() as u8])?;
    text.extend_from_slice(&(rec.body.len() as u16).to_be_bytes())?;
    text.extend_from_slice(rec.key.as_slice())?;
    text.extend_from_slice(rec.body.as_slice())
}

fn put_records(text: &mut Bytes, recs: &[Rec]) -> Result<(), NoMemory>
    requires { All IsRecord recs.now }
    ensures { OnOk result (text.new ≡ text.old ++ dumped_records recs.now) }
{
    for rec in recs {
        put_record(text, rec)?;
    }
    Ok(())
}

fn put_track(text: &mut Bytes, track: &Track) -> Result<(), NoMemory>
    requires track { IsTrack track.now }
    requires few { length track.now.recs ≤ 65535 }
    ensures { OnOk result (text.new ≡ text.old ++ dumped_track track.now) }
{
    text.extend_from_slice(&[track.flag])?;
    text.extend_from_slice(&track.r0)?;
    text.extend_from_slice(&(track.recs.len() as u16).to_be_bytes())?;
    put_records(text, track.recs.as_slice())
}

fn put_slot(text: &mut Bytes, track: u32, bytes: &Bytes) -> Result<(), NoMemory>
    requires { length bytes.now ≤ 65535 }
    ensures { OnOk result (text.new ≡ text.old ++ piece_text (Piece.Slot track bytes.now)) }
{
    text.extend_from_slice(&[0x54])?;
    text.extend_from_slice(&track.to_be_bytes())?;
    text.extend_from_slice(&(bytes.len() as u32).to_be_bytes())?;
    text.extend_from_slice(bytes.as_slice())
}

fn put_part(text: &mut Bytes, f1: &[u8; 140], tracks: u32, kind: u8) -> Result<(), NoMemory>
    ensures { OnOk result (text.new ≡ text.old ++ piece_text (Piece.Part f1.now tracks kind)) }
{
    text.extend_from_slice(&[0x50])?;
    text.extend_from_slice(f1)?;
    text.extend_from_slice(&tracks.to_be_bytes())?;
    text.push(kind)
}

fn put_piece(text: &mut Bytes, piece: &Piece) -> Result<(), NoMemory>
    requires { FitsFields piece.now }
    ensures { OnOk result (text.new ≡ text.old ++ piece_text piece.now) }
{
    match piece {
        Piece::Part { f1, tracks, kind } => put_part(text, f1, *tracks, *kind),
        Piece::Track(track) => {
            text.push(0x01)?;
            put_track(text, track)
        }
        Piece::PartEnd => text.push(0x00),
        Piece::Dropped => text.push(0xff),
        Piece::Slot { track, bytes } => put_slot(text, *track, bytes),
    }
}

/// The text of a piece.
pub(crate) fn piece_bytes(alloc: Global, piece: &Piece) -> Result<Bytes, NoMemory>
    requires { FitsFields piece.now }
    ensures { IfOk result (λ text. text ≡ piece_text piece.now) }
{
    let mut text = Bytes::new(alloc);
    put_piece(&mut text, piece)?;
    Ok(text)
}

/// The trailer without its digest, of so many whole parts with so many tracks.
pub(crate) fn counts_bytes(parts: u32, tracks: u32) -> [u8; 9]
    ensures { result ≡ counted_text parts tracks }
{
    let [p0, p1, p2, p3] = parts.to_be_bytes();
    let [t0, t1, t2, t3] = tracks.to_be_bytes();
    [0x5a, p0, p1, p2, p3, t0, t1, t2, t3]
}
