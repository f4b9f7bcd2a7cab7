//! The bytes of a reel, read through a window.

ghost use Rattle.std.specs.Prelude.{◌≡◌, ◌⊎◌, ◌<◌, ◌≤◌, ◌-◌, ◌+◌, ◌++◌, ℕ, List, [], length, take, drop, min, vec_len, true, false, IfOk, OnOk};
ghost use Rattle.sha2.specs.Hashers.{Holds256};
ghost use Rattle.sha2.specs.Sha256.{sha256};
ghost use Rattle.dasd_pool.specs.Count.{HasCause};
ghost use Rattle.dasd_pool.specs.Stream.{Takes, EndsOnly};
ghost use Rattle.dump_read.specs.Feed.{coming, largest_offset};

use crate::tape::Tape;
use ckd_image::NoMemory;
use ckd_image::text::put;
use dasd_pool::ReelFault;
use sha2::{Digest, Sha256};
use std::alloc::Global;
use std::marker::Model;

/// How many bytes of a reel are held at most beyond those that were asked for.
const WINDOW: usize = 65_536;

/// How many bytes hold any piece of a dump: the slot of a 3390 and what stands before it have 56,841.
const ENOUGH: usize = 57_344;

/// Moves the bytes of a part to the front.
fn slide(bytes: &mut [u8], start: usize, end: usize)
    requires { (start ≤ end) × (end ≤ length bytes.old) }
    ensures front { take (end - start) bytes.new ≡ drop start (take end bytes.old) }
    ensures len { length bytes.new ≡ length bytes.old }
{
    if start > 0 {
        bytes.copy_within(start..end, 0);
    }
}

/// Reads some bytes behind the first ones, so many of them, and says how many; none are the end of the reel.
fn read_behind<R: Tape>(bytes: &mut [u8], held: usize, reel: &mut R) -> Result<usize, ReelFault>
    requires { held < length bytes.old }
    ensures within { IfOk result (λ count. held + count ≤ length bytes.new) }
    ensures coming { IfOk result (λ count. coming (take (held + count) bytes.new) (R.seen reel.new).left ≡ coming (take held bytes.old) (R.seen reel.old).left) }
    ensures end { IfOk result (λ count. count ≡ 0 → EndsOnly (R.seen reel.new).left) }
    ensures len { length bytes.new ≡ length bytes.old }
    ensures same { (R.seen reel.new).held ≡ (R.seen reel.old).held }
    ensures cause { HasCause (R.seen reel.old).faults (R.seen reel.new).faults result }
{
    let count = reel.more(&mut bytes[held..])?;
    Ok(count)
}

/// Bytes that were read from a reel and not yet asked for. Contracts see the list of them.
#[derive(Debug, Drop)]
pub struct Window {
    bytes: Vec<u8>,
    start: usize,
    end: usize,
}

impl Model for Window {
    ghost Value = { List ℕ };

    ghost view = { λ w. drop w.start (take w.end w.bytes.items) };

    ghost invariant = { λ w. (w.start ≤ w.end) × (w.end ≤ vec_len w.bytes) × (vec_len w.bytes ≡ 65536) };
}

impl Window {
    pub fn new(alloc: Global) -> Result<Window, NoMemory>
        ensures { IfOk result (λ window. window ≡ []) }
    {
        let bytes = vec![in alloc; 0u8; WINDOW]?;
        Ok(Window {
            bytes,
            start: 0,
            end: 0,
        })
    }

    fn len(&self) -> usize
        ensures same { result ≡ length self.now }
        ensures few { result ≤ 65536 }
    {
        self.end - self.start
    }

    /// So many bytes at the front.
    fn front(&self, count: usize) -> &[u8]
        requires { count ≤ length self.now }
        ensures { result.now ≡ take count self.now }
    {
        &self.bytes.as_slice()[self.start..self.start + count]
    }

    /// Leaves out so many bytes at the front.
    fn skip(&mut self, count: usize)
        requires { count ≤ length self.old }
        ensures { self.new ≡ drop count self.old }
    {
        self.start += count;
    }

    /// Reads the next bytes of the reel; none are its end.
    fn fill<R: Tape>(&mut self, reel: &mut R) -> Result<(), ReelFault>
        requires { length self.old ≡ 0 }
        ensures bytes { OnOk result (Takes (R.seen reel.old).left (R.seen reel.new).left self.new) }
        ensures end { OnOk result (length self.new ≡ 0 → EndsOnly (R.seen reel.old).left) }
        ensures same { (R.seen reel.new).held ≡ (R.seen reel.old).held }
        ensures cause { HasCause (R.seen reel.old).faults (R.seen reel.new).faults result }
    {
        let count = reel.more(self.bytes.as_mut_slice())?;
        self.start = 0;
        self.end = count;
        Ok(())
    }

    /// Has bytes, of which the next ones are read where there are none, and says whether.
    fn ready<R: Tape>(&mut self, reel: &mut R) -> Result<bool, ReelFault>
        ensures some { IfOk result (λ some. some ≡ true → 0 < length self.new) }
        ensures none { IfOk result (λ some. some ≡ false → EndsOnly (coming self.new (R.seen reel.new).left)) }
        ensures coming { OnOk result (coming self.new (R.seen reel.new).left ≡ coming self.old (R.seen reel.old).left) }
        ensures same { (R.seen reel.new).held ≡ (R.seen reel.old).held }
        ensures cause { HasCause (R.seen reel.old).faults (R.seen reel.new).faults result }
    {
        if self.len() > 0 {
            return Ok(true);
        }
        self.fill(reel)?;
        if self.len() > 0 {
            return Ok(true);
        }
        Ok(false)
    }

    /// Reads some bytes behind those that are held, and says how many; none are the end of the reel.
    fn read_more<R: Tape>(&mut self, reel: &mut R) -> Result<usize, ReelFault>
        requires { length self.old < 65536 }
        ensures coming { OnOk result (coming self.new (R.seen reel.new).left ≡ coming self.old (R.seen reel.old).left) }
        ensures more { IfOk result (λ count. length self.new ≡ length self.old + count) }
        ensures end { IfOk result (λ count. count ≡ 0 → EndsOnly (R.seen reel.new).left) }
        ensures same { (R.seen reel.new).held ≡ (R.seen reel.old).held }
        ensures cause { HasCause (R.seen reel.old).faults (R.seen reel.new).faults result }
    {
        let held = self.end - self.start;
        let bytes = self.bytes.as_mut_slice();
        slide(bytes, self.start, self.end);
        self.start = 0;
        self.end = held;
        let count = read_behind(bytes, held, reel)?;
        self.end = held + count;
        Ok(count)
    }

    /// Reads until the window is full or the reel has no more.
    fn read_ahead<R: Tape>(&mut self, reel: &mut R) -> Result<(), ReelFault>
        ensures ahead { OnOk result ((length self.new ≡ 65536) ⊎ EndsOnly (R.seen reel.new).left) }
        ensures coming { OnOk result (coming self.new (R.seen reel.new).left ≡ coming self.old (R.seen reel.old).left) }
        ensures same { (R.seen reel.new).held ≡ (R.seen reel.old).held }
        ensures cause { HasCause (R.seen reel.old).faults (R.seen reel.new).faults result }
    {
        'reads: while self.len() < WINDOW {
            if self.read_more(reel)? == 0 {
                return Ok(());
            }
        }
        Ok(())
    }

    /// Moves bytes to a place in the buffer, as many as there are and have room, and says where they end.
    fn give(&mut self, buf: &mut [u8], start: usize) -> usize
        requires { start ≤ length buf.old }
        ensures within { result ≤ length buf.new }
        ensures some { 0 < length self.old → start < length buf.old → start < result }
        ensures bytes { (piece : List ℕ) × (self.old ≡ piece ++ self.new) × (take result buf.new ≡ take start buf.old ++ piece) }
    {
        let count = self.len().min(buf.len() - start);
        let end = put(buf, start, self.front(count));
        self.skip(count);
        end
    }

    /// Moves bytes to the front of the buffer, and says how many. Fewer than the buffer has room for are the last of the reel.
    fn copy<R: Tape>(&mut self, reel: &mut R, buf: &mut [u8]) -> Result<usize, ReelFault>
        ensures within { IfOk result (λ count. count ≤ length buf.new) }
        ensures bytes { IfOk result (λ count. Takes (coming self.old (R.seen reel.old).left) (coming self.new (R.seen reel.new).left) (take count buf.new)) }
        ensures end { IfOk result (λ count. count < length buf.new → EndsOnly (coming self.new (R.seen reel.new).left)) }
        ensures same { (R.seen reel.new).held ≡ (R.seen reel.old).held }
        ensures cause { HasCause (R.seen reel.old).faults (R.seen reel.new).faults result }
    {
        let mut count = 0;
        'pieces: while count < buf.len() {
            if !self.ready(reel)? {
                return Ok(count);
            }
            count = self.give(buf, count);
        }
        Ok(count)
    }
}

/// A reel that is read from its front, and how many bytes were, with their digest.
#[derive(Drop)]
pub struct Feed {
    pub window: Window,
    pub offset: u64,
    pub digest: Sha256,
}

impl Feed {
    pub fn new(alloc: Global) -> Result<Feed, NoMemory>
        ensures window { IfOk result (λ feed. feed.window ≡ []) }
        ensures offset { IfOk result (λ feed. feed.offset ≡ 0) }
        ensures digest { IfOk result (λ feed. Holds256 feed.digest []) }
    {
        Ok(Feed {
            window: Window::new(alloc)?,
            offset: 0,
            digest: Sha256::new(),
        })
    }

    /// Reads bytes to the front of the buffer, and says how many. Fewer than the buffer has room for are the last of the reel.
    pub fn fetch<R: Tape>(&mut self, reel: &mut R, buf: &mut [u8]) -> Result<usize, ReelFault>
        ensures within { IfOk result (λ count. count ≤ length buf.new) }
        ensures bytes { IfOk result (λ count. Takes (coming self.old.window (R.seen reel.old).left) (coming self.new.window (R.seen reel.new).left) (take count buf.new)) }
        ensures end { IfOk result (λ count. count < length buf.new → EndsOnly (coming self.new.window (R.seen reel.new).left)) }
        ensures offset { IfOk result (λ count. self.new.offset ≡ min (self.old.offset + count) largest_offset) }
        ensures digest { IfOk result (λ count. (message : List ℕ) → Holds256 self.old.digest message → Holds256 self.new.digest (message ++ take count buf.new)) }
        ensures same { (R.seen reel.new).held ≡ (R.seen reel.old).held }
        ensures cause { HasCause (R.seen reel.old).faults (R.seen reel.new).faults result }
    {
        let count = self.window.copy(reel, buf)?;
        self.offset = self.offset.saturating_add(count as u64);
        self.digest.update(&buf[..count]);
        Ok(count)
    }

    /// Reads ahead, so that the window holds any piece of a dump, or all that the reel has.
    pub fn look<R: Tape>(&mut self, reel: &mut R) -> Result<(), ReelFault>
        ensures ahead { OnOk result ((57344 ≤ length self.new.window) ⊎ EndsOnly (R.seen reel.new).left) }
        ensures coming { OnOk result (coming self.new.window (R.seen reel.new).left ≡ coming self.old.window (R.seen reel.old).left) }
        ensures offset { self.new.offset ≡ self.old.offset }
        ensures digest { (message : List ℕ) → Holds256 self.old.digest message → Holds256 self.new.digest message }
        ensures same { (R.seen reel.new).held ≡ (R.seen reel.old).held }
        ensures cause { HasCause (R.seen reel.old).faults (R.seen reel.new).faults result }
    {
        if self.window.len() >= ENOUGH {
            return Ok(());
        }
        self.window.read_ahead(reel)
    }

    /// The bytes that stand ahead.
    pub fn ahead(&self) -> &[u8]
        ensures bytes { result.now ≡ self.now.window }
        ensures few { length result.now ≤ 65536 }
    {
        self.window.front(self.window.len())
    }

    /// Passes so many of them.
    pub fn pass(&mut self, count: usize)
        requires { count ≤ length self.old.window }
        ensures window { self.new.window ≡ drop count self.old.window }
        ensures offset { self.new.offset ≡ min (self.old.offset + count) largest_offset }
        ensures digest { (message : List ℕ) → Holds256 self.old.digest message → Holds256 self.new.digest (message ++ take count self.old.window) }
    {
        let passed = count as u64;
        self.offset = self.offset.saturating_add(passed);
        self.digest.update(self.window.front(count));
        self.window.skip(count);
    }

    /// The digest of the bytes so far, which isn't kept any longer.
    pub fn take_digest(&mut self) -> [u8; 32]
        ensures digest { (message : List ℕ) → Holds256 self.old.digest message → result ≡ sha256 message }
        ensures window { self.new.window ≡ self.old.window }
        ensures offset { self.new.offset ≡ self.old.offset }
    {
        self.digest.finalize_reset()
    }
}
