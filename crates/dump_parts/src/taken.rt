//! Whether a filter takes a part of a dump.

ghost use Rattle.std.specs.Prelude.{◌≡◌, ◌↔◌, take, IsTrue};
ghost use Rattle.by_rules.specs.Day.{IsToday};
ghost use Rattle.dump_parts.specs.Taken.{Passes};

use crate::parts::PartHead;
use by_rules::Day;
use set_facts::{is_selected, row_facts};
use sysin_lang::Filter;
use vtoc_core::dsn_of;

/// The bytes of the name in a format 1.
fn name_in(f1: &[u8; 140]) -> [u8; 44]
    ensures { result ≡ take 44 f1.now }
{
    let mut name = [0; 44];
    name.copy_from_slice(&f1[..44]);
    name
}

/// Whether a part, if it is whole, passes a filter.
pub(crate) fn passes(filter: &Filter, today: Day, part: &PartHead) -> bool
    requires { IsToday today }
    ensures { IsTrue result ↔ Passes filter.now today part.now.f1 part.now.tracks }
{
    let Some(name) = dsn_of(&name_in(&part.f1)) else {
        return false;
    };
    let facts = row_facts(&part.f1, 0, part.tracks);
    let include = filter.include.as_slice();
    let exclude = filter.exclude.as_slice();
    is_selected(include, exclude, &filter.by, today, &name, &facts)
}
