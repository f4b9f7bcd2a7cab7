//! A look at the volume of a pool.

ghost use Rattle.std.specs.Prelude.{◌≡◌, ◌<◌, IsTrue, IfSome};
ghost use Rattle.redo_core.specs.Reading.{journal_of};
ghost use Rattle.vol_label.specs.Serial.{IsSerial};
ghost use Rattle.vtoc_core.specs.declared.volume.Volume.{Volume};
ghost use Rattle.unit_load.specs.declared.state.UnitState.TheVariants.{Online};
ghost use Rattle.unit_load.specs.Reads.{OnlyReads};
ghost use Rattle.rows_headline.specs.Made.{HasLoaded, HasVolume, StaysSettled};

use adr_top::{Run, read_words};
use ckd_image::Word;
use dasd_pool::Pool;
use redo_core::Journal;
use std::alloc::Global;
use unit_load::{UnderWay, UnitState, load_unit};
use vol_label::{Serial, is_serial};

/// The serial of the volume that the words of a text name, where it is one.
fn serial_in(alloc: Global, words: &[Word]) -> Option<Serial>
    ensures { IfSome result (λ serial. IsSerial serial.text) }
{
    let Ok(Run::Jobs { units, .. }) = read_words(alloc, words) else {
        return None;
    };
    match units.as_slice() {
        [unit] if is_serial(&unit.0.text) => Some(unit.0),
        _ => None,
    }
}

/// Whether a volume was found on a unit.
fn has_volume(state: &UnitState) -> bool
    ensures { IsTrue result → (loaded : Volume) × (state.now ≡ Online loaded) }
{
    matches!(state, UnitState::Online(_))
}

/// Whether one is found on unit 0.
fn is_online<P: Pool>(alloc: Global, journal: &mut Journal<P>) -> bool
    requires { 0 < journal_of (P.shape journal.old.pool) }
    ensures reads { OnlyReads P.Pool journal.old journal.new }
    ensures found { P.tells → IsTrue result → HasLoaded (P.shape journal.old.pool) (P.disk journal.old.pool).state }
{
    match load_unit(alloc, journal, 0, UnderWay::Nothing, None) {
        Ok(loaded) => has_volume(&loaded.state),
        Err(_) => false,
    }
}

/// Opens the journal of a pool under the serial that words name, and looks whether unit 0 is online. The pool comes back where it is.
pub(crate) fn look<P: Pool + Drop>(alloc: Global, words: &[Word], pool: P) -> Option<P>
    requires { (P.shape pool).units ≡ 2 }
    ensures found { P.tells → IfSome result (λ looked. HasVolume (P.shape pool) (P.disk pool).state) }
    ensures stays { P.tells → IfSome result (λ looked. StaysSettled (P.shape pool) (P.disk pool).state (P.disk looked).state) }
    ensures shape { IfSome result (λ looked. P.shape looked ≡ P.shape pool) }
{
    let serial = serial_in(alloc, words)?;
    let Ok(mut journal) = Journal::open_units(alloc, pool, &[serial]) else {
        return None;
    };
    if !is_online(alloc, &mut journal) {
        return None;
    }
    Some(journal.into_pool())
}
