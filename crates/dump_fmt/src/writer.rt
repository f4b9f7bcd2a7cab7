//! Writing a dump.

ghost use Rattle.std.specs.Prelude.{◌≡◌, ◌<◌, ◌++◌, ℕ, List, All, length, IfOk, IfErr, OnOk, Some, map, slice_get};
ghost use Rattle.sha2.specs.Hashers.{Holds256};
ghost use Rattle.dump_fmt.specs.Text.{front_text, added_text, dump_text};
ghost use Rattle.dump_fmt.specs.declared.piece.DumpHead.{DumpHead as Head};
ghost use Rattle.dump_fmt.specs.Head.{IsDumpHead, header_text};
ghost use Rattle.dump_fmt.specs.Outs.{AreDistinct, EachAt, IsSentTo, IsFinished, AreFinished, marked};
ghost use Rattle.dump_fmt.specs.Front.{Front, empty_front, Adds, IsFront, IsDump};
ghost use Rattle.dump_fmt.specs.Writing.{IsWriting, MayAdd, MayEnd, IsWritten};

use crate::fault::DumpFault;
use crate::outs::{OutDd, OutState, Seen};
use crate::piece::{DumpHead, Piece};
use crate::printing::{header_bytes, piece_bytes};
use crate::progress::Progress;
use crate::sending::{begin_all, finish_all, send_all};
use ckd_image::{Bytes, NoMemory};
use sha2::{Digest, Sha256};
use std::alloc::Global;

/// The outputs, which come back where a dump wasn't begun, and why it wasn't.
#[derive(Drop)]
pub struct DumpStop {
    pub outs: Vec<OutDd>,
    pub cause: DumpFault,
}

/// A dump under way. Each piece is sent to each of its outputs as soon as it is put.
#[derive(Drop)]
pub struct DumpWriter {
    alloc: Global,
    outs: Vec<OutDd>,
    progress: Progress,
}

/// What a dump begins with, and its places.
fn first_text(alloc: Global, places: &[u32], head: DumpHead) -> Result<(Vec<u32>, Bytes), NoMemory>
    ensures { IfOk result (λ x. (x.0.items ≡ places.now) × (x.1 ≡ header_text head)) }
{
    let mut copies = Vec::new(alloc);
    copies.extend_from_slice(places)?;
    let text = header_bytes(alloc, head)?;
    Ok((copies, text))
}

impl DumpWriter {
    /// Begins a dump on the outputs at these places of the list, of which each gets the header.
    pub fn start(
        alloc: Global,
        outs: Vec<OutDd>,
        places: &[u32],
        head: DumpHead,
    ) -> Result<DumpWriter, DumpStop>
        requires head { IsDumpHead head }
        requires some { 0 < length places.now }
        requires within { All (λ place. place < length outs.items) places.now }
        requires distinct { AreDistinct places.now }
        requires unused { All (λ place. slice_get (map (λ out. out.state) outs.items) place ≡ Some OutState.Unused) places.now }

        ensures begun { IfOk result (λ writer. IsWriting ⟦<OutDd as Seen>⟧.seen outs.items head empty_front writer.progress writer.outs.items) }
        ensures places { IfOk result (λ writer. writer.progress.places.items ≡ places.now) }
        // Want of memory comes before any call of a medium.
        ensures none { IfErr result (λ stop. (stop.cause ≡ DumpFault.NoMemory) × (stop.outs.items ≡ outs.items)) }
    {
        let Ok((places, text)) = first_text(alloc, places, head) else {
            let cause = DumpFault::NoMemory;
            return Err(DumpStop { outs, cause });
        };
        let progress = Progress {
            places,
            digest: Sha256::new(),
            parts: 0,
            tracks: 0,
            due: 0,
        };
        let mut writer = DumpWriter {
            alloc,
            outs,
            progress,
        };
        writer.begin();
        writer.send(text.as_slice());
        Ok(writer)
    }

    /// Marks the outputs of the dump as begun.
    fn begin(&mut self)
        requires within { All (λ place. place < length self.old.outs.items) self.old.progress.places.items }
        requires distinct { AreDistinct self.old.progress.places.items }
        ensures outs { EachAt (λ a b. ⟦<OutDd as Seen>⟧.seen b ≡ marked OutState.Cut (⟦<OutDd as Seen>⟧.seen a)) self.old.progress.places.items self.old.outs.items self.new.outs.items }
        ensures progress { self.new.progress ≡ self.old.progress }
    {
        begin_all(self.outs.as_mut_slice(), self.progress.places.as_slice());
    }

    /// Sends bytes to the outputs of the dump.
    fn send(&mut self, text: &[u8])
        requires within { All (λ place. place < length self.old.outs.items) self.old.progress.places.items }
        requires distinct { AreDistinct self.old.progress.places.items }
        ensures outs { EachAt (IsSentTo ⟦<OutDd as Seen>⟧.seen text.now) self.old.progress.places.items self.old.outs.items self.new.outs.items }
        ensures places { self.new.progress.places.items ≡ self.old.progress.places.items }
        ensures parts { self.new.progress.parts ≡ self.old.progress.parts }
        ensures tracks { self.new.progress.tracks ≡ self.old.progress.tracks }
        ensures due { self.new.progress.due ≡ self.old.progress.due }
        ensures digest { (message : List ℕ) → Holds256 self.old.progress.digest message → Holds256 self.new.progress.digest (message ++ text.now) }
    {
        self.progress.digest.update(text);
        send_all(
            self.outs.as_mut_slice(),
            self.progress.places.as_slice(),
            text,
        );
    }

    /// Puts the next piece on the outputs. An output that fails is lost, and gets no further call.
    pub fn put(&mut self, piece: &Piece) -> Result<(), DumpFault>
        requires { MayAdd ⟦<OutDd as Seen>⟧.seen piece.now self.old.progress self.old.outs.items }

        ensures put { OnOk result ((before : _) (head : Head) (front next : Front) → IsWriting ⟦<OutDd as Seen>⟧.seen before head front self.old.progress self.old.outs.items
            → Adds front piece.now next → IsFront head next → IsWriting ⟦<OutDd as Seen>⟧.seen before head next self.new.progress self.new.outs.items) }
        // What it adds was put on each output that isn't lost, in one put, and no call was made on any other.
        ensures sent { OnOk result ((before : _) (head : Head) (front next : Front) → IsWriting ⟦<OutDd as Seen>⟧.seen before head front self.old.progress self.old.outs.items
            → Adds front piece.now next → IsFront head next
            → EachAt (IsSentTo ⟦<OutDd as Seen>⟧.seen (added_text head front piece.now)) self.old.progress.places.items self.old.outs.items self.new.outs.items) }
        ensures none { IfErr result (λ cause. (cause ≡ DumpFault.NoMemory) × (self.new ≡ self.old)) }
        ensures places { self.new.progress.places.items ≡ self.old.progress.places.items }
    {
        let text = piece_bytes(self.alloc, piece)?;
        self.progress.count(piece);
        self.send(text.as_slice());
        Ok(())
    }

    /// Ends a dump, all of whose parts ended: each output gets the trailer, and is whole unless it is lost.
    pub fn end(self) -> Vec<OutDd>
        requires { MayEnd ⟦<OutDd as Seen>⟧.seen self.progress self.outs.items }

        ensures whole { (before : _) (head : Head) (front : Front) → IsWriting ⟦<OutDd as Seen>⟧.seen before head front self.progress self.outs.items → IsDump head front
            → IsWritten ⟦<OutDd as Seen>⟧.seen OutState.Whole (dump_text head front) self.progress.places.items before result.items }
        // What is whole is durable.
        ensures finished { AreFinished ⟦<OutDd as Seen>⟧.seen self.progress.places.items result.items }
        // The trailer was put on each output that isn't lost, then each that isn't lost was finished; no call was made on any other.
        ensures sent { (trailer : List ℕ) × (between : _) × EachAt (IsSentTo ⟦<OutDd as Seen>⟧.seen trailer) self.progress.places.items self.outs.items between
            × EachAt (IsFinished ⟦<OutDd as Seen>⟧.seen) self.progress.places.items between result.items }
    {
        let mut writer = self;
        let trailer = writer.progress.trailer();
        writer.send(&trailer);
        writer.finish();
        writer.outs
    }

    /// Ends what is written on the outputs of the dump.
    fn finish(&mut self)
        requires within { All (λ place. place < length self.old.outs.items) self.old.progress.places.items }
        requires distinct { AreDistinct self.old.progress.places.items }
        ensures outs { EachAt (IsFinished ⟦<OutDd as Seen>⟧.seen) self.old.progress.places.items self.old.outs.items self.new.outs.items }
    {
        finish_all(self.outs.as_mut_slice(), self.progress.places.as_slice());
    }

    /// Leaves a dump before its end. No medium is called.
    pub fn leave(self) -> Vec<OutDd>
        ensures same { result.items ≡ self.outs.items }

        ensures left { (before : _) (head : Head) (front : Front) → IsWriting ⟦<OutDd as Seen>⟧.seen before head front self.progress self.outs.items
            → IsWritten ⟦<OutDd as Seen>⟧.seen OutState.Cut (front_text head front) self.progress.places.items before result.items }
    {
        self.outs
    }
}
