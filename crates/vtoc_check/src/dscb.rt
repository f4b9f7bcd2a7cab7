//! The fields of a DSCB.

ghost use Rattle.std.specs.Prelude.{◌≡◌, ◌+◌, ◌<◌, ◌≤◌, ◌==◌, All, map, filter, not, true};
ghost use Rattle.std.specs.List.{list_any};
ghost use Rattle.volume_model.specs.Dscbs.{format_of, is_f1, is_f3, number_at as number_in, address_at as address_in, extent_at as extent_in, extent_offsets as offsets_in, extents_of, pointer_in};
ghost use Rattle.volume_model.specs.Space.{is_run as is_run_in, run_of as run_in, track_at};

use ckd_image::{Cchhr, TrackAt};
use free_map::Run;
use volume_model::{ExtentField, Format};

/// Two bytes of a DSCB as a number.
pub(crate) fn number_at(bytes: &[u8; 140], offset: usize) -> u16
    requires { offset + 2 ≤ 140 }
    ensures { result ≡ number_in bytes.now offset }
{
    256 * u16::from(bytes[offset]) + u16::from(bytes[offset + 1])
}

/// The address at an offset.
pub(crate) fn address_at(bytes: &[u8; 140], offset: usize) -> TrackAt
    requires { offset + 4 ≤ 140 }
    ensures { result ≡ address_in bytes.now offset }
{
    TrackAt {
        cylinder: number_at(bytes, offset),
        head: number_at(bytes, offset + 2),
    }
}

/// The extent at an offset.
pub(crate) fn extent_at(bytes: &[u8; 140], offset: usize) -> ExtentField
    requires { offset + 10 ≤ 140 }
    ensures { result ≡ extent_in bytes.now offset }
{
    ExtentField {
        kind: bytes[offset],
        first: address_at(bytes, offset + 2),
        last: address_at(bytes, offset + 6),
    }
}

pub(crate) fn is_format_1(bytes: &[u8; 140]) -> bool
    ensures { result ≡ is_f1 (format_of bytes.now) }
{
    matches!(Format::of(bytes), Format::F1)
}

pub(crate) fn is_format_3(bytes: &[u8; 140]) -> bool
    ensures { result ≡ is_f3 (format_of bytes.now) }
{
    matches!(Format::of(bytes), Format::F3)
}

/// The pointer to a further DSCB.
pub(crate) fn pointer_of(bytes: &[u8; 140]) -> Option<Cchhr>
    ensures { result ≡ pointer_in bytes.now }
{
    let at = address_at(bytes, 135);
    let r = bytes[139];
    if at.cylinder == 0 && at.head == 0 && r == 0 {
        return None;
    }
    Some(Cchhr { at, r })
}

/// The offsets of the extents of a DSCB.
pub(crate) fn offsets_of(format: Format) -> &'static [usize]
    ensures offsets { result.now ≡ offsets_in format }
    ensures within { All (λ offset. offset + 10 ≤ 140) result.now }
{
    match format {
        Format::F1 => &[105, 115, 125],
        Format::F3 => &[4, 14, 24, 34, 45, 55, 65, 75, 85, 95, 105, 115, 125],
        _ => &[],
    }
}

/// The number of the track at an address.
pub(crate) fn track_number(at: TrackAt, heads: u32) -> u64
    ensures { result ≡ track_at heads at }
{
    u64::from(at.cylinder) * u64::from(heads) + u64::from(at.head)
}

/// Whether an extent is a run of tracks below a limit.
pub(crate) fn is_run(extent: ExtentField, heads: u32, limit: u32) -> bool
    ensures { result ≡ is_run_in heads limit extent }
{
    let first = track_number(extent.first, heads);
    let last = track_number(extent.last, heads);
    u32::from(extent.first.head) < heads
        && u32::from(extent.last.head) < heads
        && first <= last
        && last < u64::from(limit)
}

/// The tracks of an extent.
pub(crate) fn run_of(extent: ExtentField, heads: u32, limit: u32) -> Run
    requires { is_run_in heads limit extent ≡ true }
    ensures { result ≡ run_in heads extent }
{
    let first = track_number(extent.first, heads);
    let last = track_number(extent.last, heads);
    Run {
        first: first as u32,
        len: (last + 1 - first) as u32,
    }
}

/// Whether some extent at one of these offsets is no run of tracks below a limit.
fn has_bad_extent(bytes: &[u8; 140], offsets: &[usize], heads: u32, limit: u32) -> bool
    requires { All (λ offset. offset + 10 ≤ 140) offsets.now }
    ensures { result ≡ list_any (λ extent. not (is_run_in heads limit extent)) (filter (λ extent. not (extent.kind == 0)) (map (extent_in bytes.now) offsets.now)) }
{
    for offset in offsets {
        let extent = extent_at(bytes, *offset);
        if extent.kind != 0 && !is_run(extent, heads, limit) {
            return true;
        }
    }
    false
}

/// Whether some extent of a DSCB is no run of tracks below a limit.
pub(crate) fn has_bad_range(bytes: &[u8; 140], heads: u32, limit: u32) -> bool
    ensures { result ≡ list_any (λ extent. not (is_run_in heads limit extent)) (extents_of bytes.now) }
{
    has_bad_extent(bytes, offsets_of(Format::of(bytes)), heads, limit)
}
