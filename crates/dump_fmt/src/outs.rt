//! The outputs and inputs of dumps.

ghost use Rattle.dump_fmt.specs.Outs.{OutSeen, InSeen};

use dasd_pool::{Medium, Reel};
use dd_names::DdName;

/// What became of an output.
#[derive(Clone, Copy, Debug, PartialEq, Eq)]
pub enum OutState {
    /// No call was made on it.
    Unused,
    /// It holds a whole dump.
    Whole,
    /// A call on it failed, and none was made since.
    Lost,
    /// No call on it failed, and the dump on it isn't whole.
    Cut,
}

/// A dump output.
#[derive(Drop)]
pub struct OutDd {
    pub name: DdName,
    pub medium: Box<dyn Medium>,
    pub state: OutState,
}

/// A dump input.
#[derive(Drop)]
pub struct InDd {
    pub name: DdName,
    pub reel: Box<dyn Reel>,
}

/// What contracts see of an output.
pub trait Seen {
    ghost seen: { Self → OutSeen };
}

impl Seen for OutDd {
    ghost seen = { λ out. record {
      name = out.name;
      state = out.state;
      held = (Medium-box out.medium).held out.medium.value;
      faults = (Medium-box out.medium).faults out.medium.value;
      puts = (Medium-box out.medium).puts out.medium.value;
      finished = (Medium-box out.medium).finished out.medium.value;
    } };
}

/// What contracts see of an input.
pub trait SeenIn {
    ghost seen: { Self → InSeen };
}

impl SeenIn for InDd {
    ghost seen = { λ one. record { name = one.name; held = (Reel-box one.reel).held one.reel.value; faults = (Reel-box one.reel).faults one.reel.value } };
}
