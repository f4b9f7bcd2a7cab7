//! The volume label.

ghost use Rattle.std.specs.Prelude.{◌≡◌, ◌<◌, ◌==◌, ◌↔◌, ◌∷◌, ◌++◌, length, Some, IsTrue, IfOk, IfErr, IfSome, IfNone};
ghost use Rattle.vol_label.specs.declared.label.Label.{Label};
ghost use Rattle.vol_label.specs.Label.{new_label, IsInside, IsLabelText, IsLabel, IsLabelFault, IsSerialPut, HasLabel, KeepsLabel};
ghost use Rattle.std.specs.List.{position};

use crate::fault::{LabelFault, LabelRule, broken};
use crate::serial::{Serial, is_serial};
use ckd_image::text::{after, put, same};
use ckd_image::{Cchhr, Head, Rec, Track, first_numbered};

/// `VOL1` in the code page.
const KEY: [u8; 4] = [0xe5, 0xd6, 0xd3, 0xf1];

/// What a label says: the serial, and where the format-4 DSCB stands.
#[derive(Clone, Copy, Debug, PartialEq, Eq)]
pub struct Label {
    pub serial: Serial,
    pub vtoc: Cchhr,
}

impl Label {
    /// Reads the label from track 0 of an image with this head.
    pub fn read(track: &Track, head: Head) -> Result<Label, LabelFault>
        ensures read { IfOk result (IsLabel head track.now.recs) }
        ensures refused { IfErr result (IsLabelFault head track.now.recs) }
    {
        let Some(rec) = first_numbered(track, 3) else {
            return Err(broken(LabelRule::NoRecord));
        };
        if !same(rec.key.as_slice(), &KEY) {
            return Err(broken(LabelRule::Key));
        }
        if rec.body.len() != 80 {
            return Err(broken(LabelRule::Length));
        }
        match label_at(rec.body.as_slice(), head) {
            Some(label) => Ok(label),
            None => Err(broken(LabelRule::Serial)),
        }
    }
}

/// Whether a pointer's track is one of the image.
fn is_inside(head: Head, place: Cchhr) -> bool
    ensures { IsTrue result ↔ IsInside head place }
{
    let heads = head.device.heads();
    let at = place.at;
    u32::from(at.head) < heads && u32::from(at.cylinder) * heads + u32::from(at.head) < head.tracks
}

/// The six bytes at the front, and those behind them.
fn six_at(bytes: &[u8]) -> Option<(&[u8; 6], &[u8])>
    ensures found { IfSome result (λ x. (length x.0.now ≡ 6) × (bytes.now ≡ x.0.now ++ x.1.now)) }
    ensures short { IfNone result (length bytes.now < 6) }
{
    bytes.split_first_chunk::<6>()
}

/// The byte at the front, and those behind it.
fn byte_at(bytes: &[u8]) -> Option<(u8, &[u8])>
    ensures found { IfSome result (λ x. bytes.now ≡ x.0 ∷ x.1.now) }
    ensures short { IfNone result (length bytes.now < 1) }
{
    let (byte, rest) = bytes.split_first()?;
    Some((*byte, rest))
}

/// The label that a body spells.
fn label_at(body: &[u8], head: Head) -> Option<Label>
    ensures found { IfSome result (IsLabelText head body.now) }
    ensures none { IfNone result ((label : Label) → ¬ IsLabelText head body.now label) }
{
    let rest = after(body, &KEY)?;
    let (text, rest) = six_at(rest)?;
    let (_security, rest) = byte_at(rest)?;
    let (vtoc, _) = Cchhr::read(rest)?;
    if !is_serial(text) {
        return None;
    }
    if !is_inside(head, vtoc) {
        return None;
    }
    let text = *text;
    let serial = Serial { text };
    Some(Label { serial, vtoc })
}

/// The body of a new label: blanks where the format says nothing.
pub fn with_vtoc(serial: Serial, vtoc: Cchhr) -> [u8; 80]
    ensures { result ≡ new_label serial vtoc }
{
    let mut body = [0; 80];
    let end = put(&mut body, 0, &KEY);
    let end = put(&mut body, end, &serial.text);
    let end = put(&mut body, end, &[0x40]);
    let end = put(&mut body, end, &vtoc.bytes());
    body[end..].fill(0x40);
    body
}

/// Where the label stands among the records.
fn label_place(recs: &[Rec]) -> Option<usize>
    ensures { result ≡ position (λ rec. rec.r == 3) recs.now }
{
    recs.iter().position(|rec| rec.r == 3)
}

/// The six bytes of a serial.
fn serial_bytes(serial: &Serial) -> &[u8]
    ensures bytes { result.now ≡ serial.now.text }
    ensures six { length result.now ≡ 6 }
{
    &serial.text
}

/// Writes another serial into the label of track 0.
pub fn put_serial(track: &mut Track, serial: Serial)
    requires { HasLabel track.old }

    // The six bytes of the serial are others, and nothing else changes.
    ensures put { IsSerialPut serial track.old track.new }

    // So the label reads back with that serial and the same pointer.
    ensures reads { KeepsLabel serial track.old track.new }
{
    let Some(place) = label_place(track.recs.as_slice()) else {
        return;
    };
    track.put_body(place, KEY.len(), serial_bytes(&serial));
}
