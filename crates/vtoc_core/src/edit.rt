//! The entries of a format 5.

ghost use Rattle.std.specs.Prelude.{◌≡◌, slice_index_or};
ghost use Rattle.vtoc_core.specs.Edit.{no_entry, AreEntriesPut};

use dscb_rec::{Entry5, put_entry};

/// An entry that states nothing.
const NO_ENTRY: Entry5 = Entry5 {
    first: 0,
    cylinders: 0,
    tracks: 0,
};

/// The entry at a place, or one that states nothing.
fn entry_or_none(entries: &[Entry5], place: u32) -> Entry5
    ensures { result ≡ slice_index_or entries.now place no_entry }
{
    match entries.get(place as usize) {
        Some(entry) => *entry,
        None => NO_ENTRY,
    }
}

/// Writes entries over those of a format 5, and empty ones behind them.
pub fn put_entries(dscb: &mut [u8; 140], entries: &[Entry5])
    ensures { AreEntriesPut entries.now dscb.old dscb.new }
{
    for place in 0..26 {
        put_entry(dscb, place, entry_or_none(entries, place));
    }
}
