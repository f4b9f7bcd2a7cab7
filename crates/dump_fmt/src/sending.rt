//! What is done to the outputs of a dump, one after the other.

ghost use Rattle.std.specs.Prelude.{◌≡◌, ◌<◌, All, length};
ghost use Rattle.dump_fmt.specs.Outs.{marked, IsSentTo, IsFinished, EachAt, AreDistinct};

use crate::outs::{OutDd, OutState, Seen};

/// What takes a dump.
pub(crate) trait Takes: Seen {
    /// Takes on the state of an output on which a dump is under way.
    fn begin(&mut self)
        ensures { Self.seen self.new ≡ marked OutState.Cut (Self.seen self.old) };

    /// Takes bytes, unless it is lost.
    fn send(&mut self, text: &[u8])
        ensures { IsSentTo Self.seen text.now self.old self.new };

    /// Ends what is written, unless it is lost.
    fn finish(&mut self)
        ensures { IsFinished Self.seen self.old self.new };
}

impl Takes for OutDd {
    fn begin(&mut self) {
        self.state = OutState::Cut;
    }

    fn send(&mut self, text: &[u8]) {
        if self.state == OutState::Lost {
            return;
        }
        if self.medium.put(text).is_err() {
            self.state = OutState::Lost;
        }
    }

    fn finish(&mut self) {
        if self.state == OutState::Lost {
            return;
        }
        self.state = match self.medium.finish() {
            Ok(()) => OutState::Whole,
            Err(_) => OutState::Lost,
        };
    }
}

pub(crate) fn begin_all<O: Takes>(outs: &mut [O], places: &[u32])
    requires within { All (λ place. place < length outs.old) places.now }
    requires distinct { AreDistinct places.now }
    ensures { EachAt (λ a b. O.seen b ≡ marked OutState.Cut (O.seen a)) places.now outs.old outs.new }
{
    for place in places {
        outs[*place as usize].begin();
    }
}

pub(crate) fn send_all<O: Takes>(outs: &mut [O], places: &[u32], text: &[u8])
    requires within { All (λ place. place < length outs.old) places.now }
    requires distinct { AreDistinct places.now }
    ensures { EachAt (IsSentTo O.seen text.now) places.now outs.old outs.new }
{
    for place in places {
        outs[*place as usize].send(text);
    }
}

pub(crate) fn finish_all<O: Takes>(outs: &mut [O], places: &[u32])
    requires within { All (λ place. place < length outs.old) places.now }
    requires distinct { AreDistinct places.now }
    ensures { EachAt (IsFinished O.seen) places.now outs.old outs.new }
{
    for place in places {
        outs[*place as usize].finish();
    }
}
