//! The making of a journal, and a listing behind it.

ghost use Rattle.std.specs.Prelude.{◌≡◌, IsTrue, IfSome};
ghost use Rattle.adr_top.specs.Asked.{AsksForJournal};
ghost use Rattle.rows_headline.specs.Made.{IsSettledVolume, MakesNoJournal, IsMade, StaysSettled};

use crate::looked::look;
use adr_top::{Day, Run, batch, read_words};
use ckd_image::Word;
use dasd_pool::{Pool, Sink, Source};
use std::alloc::Global;

/// A day, of which nothing that is built depends.
const TODAY: Day = Day { year: 2024, day: 1 };

/// Whether words ask for a journal.
fn ask_for_journal(alloc: Global, words: &[Word]) -> bool
    ensures { IsTrue result → AsksForJournal words.now }
{
    matches!(read_words(alloc, words), Ok(Run::Format { .. }))
}

/// Whether a run is that of a text.
fn is_of_text(run: &Run) -> bool
    ensures { IsTrue result → MakesNoJournal run.now }
{
    matches!(run, Run::Jobs { .. })
}

/// Whether words ask for a text to be run.
fn ask_for_text(alloc: Global, words: &[Word]) -> bool
    ensures { IsTrue result → ¬ AsksForJournal words.now }
{
    match read_words(alloc, words) {
        Ok(asked) => is_of_text(&asked),
        Err(_) => false,
    }
}

/// Makes a journal, where the words ask for one. The pool comes back where it was made.
fn make<S: Source, H: Source, O: Sink, P: Pool + Drop>(
    alloc: Global,
    words: &[Word],
    sysin: &mut S,
    held: &mut H,
    out: &mut O,
    pool: P,
) -> Option<P>
    ensures made { P.tells → IfSome result (λ made. IsMade (P.shape pool) (P.disk pool).state (P.disk made).state) }
    ensures shape { IfSome result (λ made. P.shape made ≡ P.shape pool) }
{
    if !ask_for_journal(alloc, words) {
        return None;
    }
    let (outs, ins) = (Vec::new(alloc), Vec::new(alloc));
    let ended = batch(alloc, words, sysin, held, out, pool, outs, ins, TODAY);
    if ended.status != 0 {
        return None;
    }
    Some(ended.pool)
}

/// Runs a text that does no step on the volume. The pool comes back where it ended well.
fn list<S: Source, H: Source, O: Sink, P: Pool + Drop>(
    alloc: Global,
    words: &[Word],
    sysin: &mut S,
    held: &mut H,
    out: &mut O,
    pool: P,
) -> Option<P>
    ensures stays { P.tells → IfSome result (λ listed. StaysSettled (P.shape pool) (P.disk pool).state (P.disk listed).state) }
    ensures shape { IfSome result (λ listed. P.shape listed ≡ P.shape pool) }
{
    if !ask_for_text(alloc, words) {
        return None;
    }
    let (outs, ins) = (Vec::new(alloc), Vec::new(alloc));
    let ended = batch(alloc, words, sysin, held, out, pool, outs, ins, TODAY);
    if ended.status != 0 || !ended.steps.is_empty() {
        return None;
    }
    Some(ended.pool)
}

/// Makes a journal for the volume of a pool, and runs a text that does no step on it. Where both end with 0, and the volume is online, the
/// pool comes back.
///
/// So where it comes back, the premises of the promise of a run are met: there are units for which it is settled.
pub fn make_and_list<S: Source, H: Source, O: Sink, P: Pool + Drop>(
    alloc: Global,
    making: &[Word],
    listing: &[Word],
    sysin: &mut S,
    held: &mut H,
    out: &mut O,
    pool: P,
) -> Option<P>
    ensures settled { P.tells → IfSome result (λ listed. IsSettledVolume (P.shape listed) (P.disk listed).state) }
    ensures shape { IfSome result (λ listed. P.shape listed ≡ P.shape pool) }
{
    if pool.units() != 2 {
        return None;
    }
    let made = make(alloc, making, sysin, held, out, pool)?;
    let looked = look(alloc, listing, made)?;
    list(alloc, listing, sysin, held, out, looked)
}
