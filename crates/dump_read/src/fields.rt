//! The fields of a header.

ghost use Rattle.std.specs.Prelude.{◌≡◌, ◌<◌, ◌≤◌, ◌-◌, ◌++◌, length, ◌↔◌, IsTrue, IfOk, IfErr, replicate};
ghost use Rattle.byteorder.specs.Endian.{big_bytes};
ghost use Rattle.ckd_image.specs.Head.{IsCylinders};
ghost use Rattle.vol_label.specs.Serial.{IsSerial};
ghost use Rattle.dump_fmt.specs.Head.{IsVtocTrack};
ghost use Rattle.dump_read.specs.Header.{length_of, kind_text, device_text, pair_text, Stops, BeginsFixed, BeginsKind, BeginsDevice, BeginsSerial, BeginsTracks, BeginsDay, BeginsVtoc, IsDayPair};

use crate::header::{HeaderField, HeaderStop};
use crate::number::{number_in, padded, pair_in};
use by_rules::Day;
use ckd_image::Device;
use ckd_image::text::{after, begins, put, split};
use vol_label::{Serial, is_serial};

/// The bytes behind a field that can be spelled in one way.
pub(crate) fn fixed_in<'a>(
    field: HeaderField,
    bytes: &'a [u8],
    right: &[u8],
) -> Result<&'a [u8], HeaderStop>
    requires { length right.now ≡ length_of field }
    ensures found { IfOk result (λ rest. bytes.now ≡ right.now ++ rest.now) }
    ensures stops { IfErr result (Stops field (BeginsFixed right.now) bytes.now) }
{
    if let Some(rest) = after(bytes, right) {
        return Ok(rest);
    }
    if begins(right, bytes) {
        return Err(HeaderStop::Cut);
    }
    Err(HeaderStop::Wrong(field))
}

/// Whether the dump is a full one, and the bytes behind that.
pub(crate) fn kind_in(bytes: &[u8]) -> Result<(bool, &[u8]), HeaderStop>
    ensures found { IfOk result (λ x. bytes.now ≡ kind_text x.0 ++ x.1.now) }
    ensures stops { IfErr result (Stops HeaderField.Kind BeginsKind bytes.now) }
{
    let Some((kind, rest)) = bytes.split_first() else {
        return Err(HeaderStop::Cut);
    };
    match *kind {
        b'F' => Ok((true, rest)),
        b'L' => Ok((false, rest)),
        _ => Err(HeaderStop::Wrong(HeaderField::Kind)),
    }
}

/// The device of the volume that was dumped, and the bytes behind it.
pub(crate) fn device_in(bytes: &[u8]) -> Result<(Device, &[u8]), HeaderStop>
    ensures found { IfOk result (λ x. bytes.now ≡ device_text x.0 ++ x.1.now) }
    ensures stops { IfErr result (Stops HeaderField.Device BeginsDevice bytes.now) }
{
    let Some((device, rest)) = bytes.split_first() else {
        return Err(HeaderStop::Cut);
    };
    match *device {
        0x90 => Ok((Device::D3390, rest)),
        0x80 => Ok((Device::D3380, rest)),
        0x50 => Ok((Device::D3350, rest)),
        _ => Err(HeaderStop::Wrong(HeaderField::Device)),
    }
}

/// Six bytes as an array.
fn six(bytes: &[u8]) -> [u8; 6]
    requires { length bytes.now ≡ 6 }
    ensures { result ≡ bytes.now }
{
    let mut text = [0; 6];
    text.copy_from_slice(bytes);
    text
}

/// Fewer than six bytes, and blanks.
fn filled_up(bytes: &[u8]) -> [u8; 6]
    requires { length bytes.now < 6 }
    ensures { result ≡ bytes.now ++ replicate (6 - length bytes.now) 0x40 }
{
    let mut text = [0x40; 6];
    put(&mut text, 0, bytes);
    text
}

/// The serial, and the bytes behind it.
pub(crate) fn serial_in(bytes: &[u8]) -> Result<(Serial, &[u8]), HeaderStop>
    ensures found { IfOk result (λ x. IsSerial x.0.text × (bytes.now ≡ x.0.text ++ x.1.now)) }
    ensures stops { IfErr result (Stops HeaderField.Serial BeginsSerial bytes.now) }
{
    let Some((front, rest)) = split(bytes, 6) else {
        return Err(cut_serial(bytes));
    };
    let text = six(front);
    if !is_serial(&text) {
        return Err(HeaderStop::Wrong(HeaderField::Serial));
    }
    Ok((Serial { text }, rest))
}

/// What is to be said of fewer than six bytes: blanks behind them make a serial of them where anything does.
fn cut_serial(bytes: &[u8]) -> HeaderStop
    requires { length bytes.now < 6 }
    ensures { Stops HeaderField.Serial BeginsSerial bytes.now result }
{
    if bytes.is_empty() {
        return HeaderStop::Cut;
    }
    if is_serial(&filled_up(bytes)) {
        return HeaderStop::Cut;
    }
    HeaderStop::Wrong(HeaderField::Serial)
}

/// Whether tracks are those of whole cylinders.
fn is_cylinders(device: Device, tracks: u32) -> bool
    ensures { IsTrue result ↔ IsCylinders device tracks }
{
    1 <= tracks && tracks <= 65_535 && tracks % device.heads() == 0
}

/// The number of tracks, and the bytes behind it.
pub(crate) fn tracks_in(device: Device, bytes: &[u8]) -> Result<(u32, &[u8]), HeaderStop>
    ensures found { IfOk result (λ x. IsCylinders device x.0 × (bytes.now ≡ big_bytes 4 x.0 ++ x.1.now)) }
    ensures stops { IfErr result (Stops HeaderField.Tracks (BeginsTracks device) bytes.now) }
{
    let Some((tracks, rest)) = number_in(bytes) else {
        return Err(cut_tracks(device, bytes));
    };
    if !is_cylinders(device, tracks) {
        return Err(HeaderStop::Wrong(HeaderField::Tracks));
    }
    Ok((tracks, rest))
}

/// What is to be said of fewer than four bytes: each number of at most 65,535 with another last byte has one of whole cylinders of any device.
fn cut_tracks(device: Device, bytes: &[u8]) -> HeaderStop
    requires { length bytes.now < 4 }
    ensures { Stops HeaderField.Tracks (BeginsTracks device) bytes.now result }
{
    if padded(bytes) <= 65_535 {
        return HeaderStop::Cut;
    }
    HeaderStop::Wrong(HeaderField::Tracks)
}

/// Year and day, which may be any, and the bytes behind them.
pub(crate) fn day_in(bytes: &[u8]) -> Result<(Day, &[u8]), HeaderStop>
    ensures found { IfOk result (λ x. IsDayPair (x.0.year, x.0.day) × (bytes.now ≡ pair_text (x.0.year, x.0.day) ++ x.1.now)) }
    ensures stops { IfErr result (λ stop. (stop ≡ HeaderStop.Cut) × (length bytes.now < 4) × BeginsDay bytes.now) }
{
    let Some((year, day, rest)) = pair_in(bytes) else {
        return Err(HeaderStop::Cut);
    };
    Ok((Day { year, day }, rest))
}

/// The track of the format-4 DSCB, and the bytes behind it.
pub(crate) fn vtoc_in(full: bool, tracks: u32, bytes: &[u8]) -> Result<(u32, &[u8]), HeaderStop>
    requires { (2 ≤ tracks) × (tracks ≤ 65535) }
    ensures found { IfOk result (λ x. IsVtocTrack full tracks x.0 × (bytes.now ≡ big_bytes 4 x.0 ++ x.1.now)) }
    ensures stops { IfErr result (Stops HeaderField.Vtoc (BeginsVtoc full tracks) bytes.now) }
{
    let Some((vtoc, rest)) = number_in(bytes) else {
        return Err(cut_vtoc(full, tracks, bytes));
    };
    if !is_vtoc_track(full, tracks, vtoc) {
        return Err(HeaderStop::Wrong(HeaderField::Vtoc));
    }
    Ok((vtoc, rest))
}

/// Whether the header may name this track.
fn is_vtoc_track(full: bool, tracks: u32, vtoc: u32) -> bool
    ensures { IsTrue result ↔ IsVtocTrack full tracks vtoc }
{
    if full {
        1 <= vtoc && vtoc < tracks
    } else {
        vtoc == 0
    }
}

/// What is to be said of fewer than four bytes: they go on where they do with zeros, or with a last 1.
fn cut_vtoc(full: bool, tracks: u32, bytes: &[u8]) -> HeaderStop
    requires short { length bytes.now < 4 }
    requires tracks { (2 ≤ tracks) × (tracks ≤ 65535) }
    ensures { Stops HeaderField.Vtoc (BeginsVtoc full tracks) bytes.now result }
{
    let limit = if full { tracks } else { 1 };
    if padded(bytes) < limit {
        return HeaderStop::Cut;
    }
    HeaderStop::Wrong(HeaderField::Vtoc)
}
