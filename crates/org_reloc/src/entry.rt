//! An entry of a directory.

ghost use Rattle.std.specs.Prelude.{◌≡◌, ◌↔◌, ◌+◌, ◌<◌, ◌++◌, length, IsTrue, IfOk, OnOk, IfSome, IfNone};
ghost use Rattle.ckd_image.specs.Bytes.{Begins};
ghost use Rattle.org_reloc.specs.Directory.{data_length, heading_text, heading_of, entry_text, last_text, IsHeading, IsPlain};
ghost use Rattle.org_reloc.specs.declared.entry.Entry.{Entry};

use crate::place::Place;
use ckd_image::text::{begins, split, tail};
use ckd_image::{Bytes, NoMemory};
use std::alloc::Global;

/// What ends the entries: the highest name, and zeros as place and kind.
const LAST_ENTRY: [u8; 12] = [255, 255, 255, 255, 255, 255, 255, 255, 0, 0, 0, 0];

/// The fields that each entry has. The kind tells an alias (X'80'), the number of places in the user data (X'60'), and the
/// halfwords of user data (X'1F').
#[derive(Clone, Copy, Debug, PartialEq, Eq)]
pub struct Heading {
    pub name: [u8; 8],
    pub place: Place,
    pub kind: u8,
}

/// A name of a member, the place of its first record, and what a program keeps with it.
#[derive(Debug, Drop)]
pub struct Entry {
    pub name: [u8; 8],
    pub place: Place,
    pub kind: u8,
    pub data: Bytes,
}

/// Whether bytes begin with what ends the entries.
pub fn ends_entries(bytes: &[u8]) -> bool
    ensures { IsTrue result ↔ Begins last_text bytes.now }
{
    begins(bytes, &LAST_ENTRY)
}

impl Heading {
    /// The fields at the front of bytes, and the bytes behind them.
    fn read(bytes: &[u8]) -> Option<(Heading, &[u8])>
        ensures found { IfSome result (λ x. IsHeading x.0 × (bytes.now ≡ heading_text x.0 ++ x.1.now)) }
        ensures short { IfNone result (length bytes.now < 12) }
    {
        if bytes.len() < 12 {
            return None;
        }
        let (front, rest) = bytes.split_at(8);
        let mut name = [0; 8];
        name.copy_from_slice(front);
        let (place, rest) = Place::read(rest)?;
        let kind = rest[0];
        Some((Heading { name, place, kind }, tail(rest, 1)))
    }

    /// How many bytes of user data follow.
    fn data_len(self) -> usize
        ensures { result ≡ data_length self.kind }
    {
        2 * (self.kind % 32) as usize
    }
}

impl Entry {
    /// The entry at the front of bytes.
    pub fn read(alloc: Global, bytes: &[u8]) -> Result<Option<Entry>, NoMemory>
        ensures found { IfOk result (λ found. IfSome found (λ entry. IsHeading (heading_of entry) × (length entry.data ≡ data_length entry.kind) × Begins (entry_text entry) bytes.now)) }
        ensures none { IfOk result (λ found. IfNone found ((entry : Entry) → IsHeading (heading_of entry) → length entry.data ≡ data_length entry.kind → ¬ Begins (entry_text entry) bytes.now)) }
    {
        let Some((heading, rest)) = Heading::read(bytes) else {
            return Ok(None);
        };
        let Some((data, _)) = split(rest, heading.data_len()) else {
            return Ok(None);
        };
        let data = Bytes::from_slice(alloc, data)?;
        let Heading { name, place, kind } = heading;
        Ok(Some(Entry {
            name,
            place,
            kind,
            data,
        }))
    }

    /// How many bytes the entry has.
    pub fn len(&self) -> usize
        requires { length self.now.data ≡ data_length self.now.kind }
        ensures { result ≡ 12 + length self.now.data }
    {
        12 + self.data.len()
    }

    /// Whether its user data have no places.
    pub fn is_plain(&self) -> bool
        ensures { IsTrue result ↔ IsPlain self.now }
    {
        self.kind / 32 % 4 == 0
    }

    /// Writes the entry behind bytes, with another place.
    pub fn put_at(&self, place: Place, bytes: &mut Bytes) -> Result<(), NoMemory>
        ensures { OnOk result (bytes.new ≡ bytes.old ++ entry_text (record self.now { place = place })) }
    {
        bytes.extend_from_slice(&self.name)?;
        bytes.extend_from_slice(&place.bytes())?;
        bytes.push(self.kind)?;
        bytes.extend_from_slice(self.data.as_slice())
    }
}
