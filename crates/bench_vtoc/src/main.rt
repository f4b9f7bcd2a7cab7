//! How long it takes to load a VTOC of so many tracks and to render a change of it. The word is the number of tracks.
#![tactic(auto)]

mod slots;

ghost use Rattle.std.specs.Prelude.{Contains, IsTrue, IfSome};
ghost use Rattle.dsn_filter.specs.Dsn.{IsDsn};
ghost use Rattle.volume_model.specs.Pinned.{IsNameOf};
ghost use Rattle.vtoc_core.specs.declared.volume.Row.{Row as RowOf};
ghost use Rattle.vtoc_render.specs.Loads.{LoadsFrom};

use crate::slots::{head_of, label, slots_of};
use dsn_filter::Dsn;
use rows_slots::loaded;
use std::alloc::Global;
use std::process::ExitCode;
use std::time::Instant;
use std::{env, io};
use volume_change::Change;
use vtoc_core::{Volume, is_named};
use vtoc_render::{Rendered, render};

/// The most tracks: their data sets have 51 tracks for each of them, and a volume has less than 65,536.
const MOST: u32 = 1200;

/// The number of tracks that the word after the program's name says, or one.
fn tracks_wanted(rt: &HostRuntime) -> io::Result<u32> {
    let mut tracks = 1;
    for word in env::args(rt)?.skip(1) {
        tracks = match word.parse::<u32>() {
            Ok(number) => number.clamp(1, MOST),
            Err(_) => 1,
        };
    }
    Ok(tracks)
}

/// The name of the first data set.
fn first_name() -> Option<Dsn>
    ensures { IfSome result IsDsn }
{
    Dsn::read(b"A000000").ok()
}

/// Whether a data set of a volume has a name.
fn has_set(volume: &Volume, name: Dsn) -> bool
    requires { IsDsn name }
    ensures { IsTrue result → (row : RowOf) × Contains volume.now.rows row × IsNameOf name row.name }
{
    for row in volume.rows.as_slice() {
        if is_named(&row.name, name) {
            return true;
        }
    }
    false
}

/// The VTOC without a data set, if there is one of this name.
fn removed(alloc: Global, volume: &Volume, slots: &[u8], name: Dsn) -> Option<Rendered>
    requires loads { LoadsFrom volume.now slots.now }
    requires name { IsDsn name }
{
    if !has_set(volume, name) {
        return None;
    }
    render(alloc, volume, slots, &Change::Remove(name)).ok()
}

/// Milliseconds since a moment.
fn since(rt: &HostRuntime, start: Instant) -> io::Result<u64> {
    Ok(start.elapsed(rt)?.as_millis().min(1_000_000) as u64)
}

fn measure(rt: &HostRuntime, tracks: u32, slots: &[u8]) -> io::Result<()> {
    let start = Instant::now(rt)?;
    let Ok(Some(volume)) = loaded(rt.alloc(), head_of(tracks), &label(), slots, false) else {
        return Ok(());
    };
    let loading = since(rt, start)?;
    let Some(name) = first_name() else {
        return Ok(());
    };
    let Some(rendered) = removed(rt.alloc(), &volume, slots, name) else {
        return Ok(());
    };
    let changing = since(rt, start)?;
    println!(rt;
        "VTOC tracks {tracks}, data sets {}, tracks that a removal changes {}",
        volume.rows.len(),
        rendered.blocks.len()
    )?;
    eprintln!(rt; "loaded in {loading} ms; loaded and changed in {changing} ms")?;
    Ok(())
}

fn run(rt: &HostRuntime) -> io::Result<()> {
    let tracks = tracks_wanted(rt)?;
    let slots = slots_of(rt.alloc(), tracks)?;
    measure(rt, tracks, &slots)
}

fn main(rt: HostRuntime) -> ExitCode {
    match run(&rt) {
        Ok(()) => ExitCode::SUCCESS,
        Err(_) => ExitCode::FAILURE,
    }
}
