//! A desk over two units, VOL001 online and VOL002 offline, and what it answers.

ghost use Rattle.std.specs.Prelude.{◌≡◌, Some};
ghost use Rattle.desk_state.specs.Ends.{with_numbers};

use ckd_image::{Bytes, NoMemory};
use dasd_pool::MemoryLink;
use desk_serve::{RunEnd, Runner, Served, serve_one};
use desk_state::{Desk, Jobs, Lines};
use desk_text::{UnitLine, VolumeNumbers};
use enq_table::Held;
use std::alloc::Global;
use std::marker::Model;

/// How a run ends.
#[derive(Clone, Copy, Debug, PartialEq, Eq)]
pub enum End {
    Done,
    Wanting,
    NotStarted,
    Broken,
}

/// Runs that end as they are told, the last first. Each prints the text that it is handed and a line behind it, and says that a track less is free.
#[derive(Debug, Drop)]
pub struct Script {
    ends: Vec<End>,
    prints: Vec<Bytes>,
    free: u32,
}

impl Script {
    fn new(alloc: Global, ends: &[End]) -> Result<Script, NoMemory> {
        let mut prints = Vec::new(alloc);
        for _ in 0..ends.len() {
            prints.push(Bytes::new(alloc))?;
        }
        Ok(Script {
            ends: Vec::from_slice(alloc, ends)?,
            prints,
            free: 13,
        })
    }
}

/// What a run printed, or nothing where memory is wanting.
fn printed(print: Option<Bytes>, text: &[u8]) -> Option<Bytes> {
    let mut print = print?;
    print.extend_from_slice(text).ok()?;
    print.extend_from_slice(b"\nDONE\n").ok()?;
    Some(print)
}

impl Runner for Script {
    ghost runs = { λ _ _ _ _ _. Unit {0} };

    ghost shows = { λ s lines. with_numbers lines 0 (Some (record { usable = 15; free = s.free; runs = 1; index = 0 })) };

    fn run(self, text: &[u8], _held: &Held) -> (Option<Script>, RunEnd) {
        let mut script = self;
        script.free = script.free.saturating_sub(1);
        let end = script.ends.pop().unwrap_or(End::NotStarted);
        let Some(print) = printed(script.prints.pop(), text) else {
            return (Some(script), RunEnd::NotStarted);
        };
        match end {
            End::Done => (Some(script), RunEnd::Ended { code: 0, print }),
            End::Wanting => (Some(script), RunEnd::Ended { code: 32, print }),
            End::NotStarted => (Some(script), RunEnd::NotStarted),
            End::Broken => (None, RunEnd::Broken { print }),
        }
    }

    fn show(&self, lines: &mut Lines) {
        if lines.as_slice().is_empty() {
            return;
        }
        lines.set(0, Some(numbers(self.free)));
    }
}

/// Of a volume of 15 usable tracks with one free run.
fn numbers(free: u32) -> VolumeNumbers
    ensures { result ≡ record { usable = 15; free = free; runs = 1; index = 0 } }
{
    VolumeNumbers {
        usable: 15,
        free,
        runs: 1,
        index: 0,
    }
}

fn lines(alloc: Global) -> Result<Lines, NoMemory> {
    let mut lines = Lines::new(alloc);
    lines.push(UnitLine {
        serial: Bytes::from_slice(alloc, b"VOL001")?,
        online: Some(numbers(13)),
    })?;
    lines.push(UnitLine {
        serial: Bytes::from_slice(alloc, b"VOL002")?,
        online: None,
    })?;
    Ok(lines)
}

/// A desk and its session, which stands by unless a run broke the pool.
#[derive(Drop)]
pub struct Standing {
    desk: Desk,
    session: Option<Script>,
}

impl Model for Standing {
    ghost use Rattle.std.specs.Prelude.{◌≡◌, None, IsSome};
    ghost use Rattle.desk_state.specs.declared.desk.Desk.{Desk};
    ghost use Rattle.desk_state.specs.Ends.{AreNumbered};

    ghost Value = { Desk };

    ghost view = { λ s. s.desk };

    ghost invariant = { λ s. AreNumbered s.desk.jobs × (s.desk.broken ≡ None → IsSome s.session) };
}

impl Standing {
    /// A fresh desk whose runs end so, the last first.
    pub fn new(alloc: Global, ends: &[End]) -> Result<Standing, NoMemory> {
        let desk = Desk {
            jobs: Jobs::new(alloc),
            held: Held::new(alloc),
            lines: lines(alloc)?,
            broken: None,
        };
        Ok(Standing {
            desk,
            session: Some(Script::new(alloc, ends)?),
        })
    }

    /// Serves one connection.
    pub fn serve(self, alloc: Global, link: &mut MemoryLink) -> (Standing, Option<u16>) {
        let Standing { desk, session } = self;
        let Served {
            desk,
            session,
            answer,
        } = serve_one(alloc, link, desk, session);
        (Standing { desk, session }, answer)
    }

    /// Serves a request, and gives the bytes of its answer.
    pub fn answer(self, alloc: Global, request: &[u8]) -> Result<(Standing, Vec<u8>), NoMemory> {
        let input = Bytes::from_slice(alloc, request)?;
        let mut link = MemoryLink::new(alloc, input, 1_000_000, Vec::new(alloc))?;
        let (standing, _) = self.serve(alloc, &mut link);
        let text = link.text().to_vec(alloc)?;
        Ok((standing, text))
    }
}

/// A request, and the status, the length of the body and the body of its answer. Without a length there is no body.
pub type Row = (&'static str, &'static str, &'static str, &'static str);

/// Adds each piece in order.
fn joined(alloc: Global, pieces: &[&str]) -> Result<Vec<u8>, NoMemory> {
    let mut text = Vec::new(alloc);
    for piece in pieces {
        text.extend_from_slice(piece.as_bytes())?;
    }
    Ok(text)
}

/// The bytes of a row's answer.
pub fn wanted(alloc: Global, row: &Row) -> Result<Vec<u8>, NoMemory> {
    let (_, status, length, body) = *row;
    if length.is_empty() {
        return joined(
            alloc,
            &["HTTP/1.1 ", status, "\r\nconnection: close\r\n\r\n"],
        );
    }
    joined(
        alloc,
        &[
            "HTTP/1.1 ",
            status,
            "\r\ncontent-type: application/json\r\ncontent-length: ",
            length,
            "\r\nconnection: close\r\n\r\n",
            body,
        ],
    )
}

/// The number from 0 of the first row that is answered otherwise, and that answer. The rows are asked of one desk, one after another.
pub fn first_wrong(
    alloc: Global,
    standing: Standing,
    rows: &[Row],
) -> Result<Option<(usize, Vec<u8>)>, NoMemory> {
    let mut standing = standing;
    for (number, row) in rows.iter().enumerate() {
        let (next, answer) = standing.answer(alloc, row.0.as_bytes())?;
        if answer != wanted(alloc, row)? {
            return Ok(Some((number, answer)));
        }
        standing = next;
    }
    Ok(None)
}

/// The rows asked of a fresh desk whose runs end so, the last first.
pub fn first_wrong_of(
    alloc: Global,
    ends: &[End],
    rows: &[Row],
) -> Result<Option<(usize, Vec<u8>)>, NoMemory> {
    first_wrong(alloc, Standing::new(alloc, ends)?, rows)
}
