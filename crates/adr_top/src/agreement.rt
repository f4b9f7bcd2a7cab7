//! Whether what is handed in agrees with the words.

ghost use Rattle.std.specs.Prelude.{◌≡◌, ◌↔◌, IsTrue, map};
ghost use Rattle.adr_top.specs.Asked.{Agrees, HasUnits};

use crate::lists::{InDd, OutDd};
use ckd_image::Word;
use dd_names::DdName;
use run_words::Run;

/// Whether the outputs have these names, in their order.
fn are_outs(outs: &[OutDd], named: &[(DdName, Word)]) -> bool
    ensures { IsTrue result ↔ (map (λ out. out.name) outs.now ≡ map (λ dd. dd.0) named.now) }
{
    if outs.len() != named.len() {
        return false;
    }
    for place in 0..outs.len() {
        if !outs[place].name.is_same(&named[place].0) {
            return false;
        }
    }
    true
}

/// Whether the inputs have these names, in their order.
fn are_ins(ins: &[InDd], named: &[(DdName, Word)]) -> bool
    ensures { IsTrue result ↔ (map (λ one. one.name) ins.now ≡ map (λ dd. dd.0) named.now) }
{
    if ins.len() != named.len() {
        return false;
    }
    for place in 0..ins.len() {
        if !ins[place].name.is_same(&named[place].0) {
            return false;
        }
    }
    true
}

/// Whether a pool has so many volumes and a journal.
fn has_units(units: u32, volumes: usize) -> bool
    ensures { IsTrue result ↔ HasUnits units volumes }
{
    units as usize == volumes.saturating_add(1)
}

/// Whether the pool's number of units, the outputs and the inputs are those that a run names.
pub(crate) fn agrees(asked: &Run, units: u32, outs: &[OutDd], ins: &[InDd]) -> bool
    ensures { IsTrue result ↔ Agrees asked.now units (map (λ out. out.name) outs.now) (map (λ one. one.name) ins.now) }
{
    match asked {
        Run::Jobs {
            units: volumes,
            outs: out_words,
            ins: in_words,
            ..
        } => {
            has_units(units, volumes.len())
                && are_outs(outs, out_words.as_slice())
                && are_ins(ins, in_words.as_slice())
        }
        Run::Format { units: volumes, .. } => {
            has_units(units, volumes.len()) && outs.is_empty() && ins.is_empty()
        }
        Run::Make { .. } => true,
    }
}
