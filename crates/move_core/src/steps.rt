//! The steps that change volumes.

use dd_names::DdName;
pub use dsn_filter::Dsn;
pub use free_map::Runs;

/// Where a new data set comes from: a data set of a unit, or a part of a dump by its number among the whole ones.
#[derive(Clone, Copy, Debug, PartialEq, Eq)]
pub enum Origin {
    Row(u32, Dsn),
    Part(DdName, u32),
}

/// One change of the volumes.
#[derive(Debug, Drop)]
pub enum Step {
    Move {
        unit: u32,
        name: Dsn,
        to: Runs,
    },
    Shrink {
        unit: u32,
        name: Dsn,
        keep: u32,
    },
    Add {
        unit: u32,
        name: Dsn,
        to: Runs,
        origin: Origin,
    },
    Replace {
        unit: u32,
        name: Dsn,
        to: Runs,
        origin: Origin,
    },
    Delete {
        unit: u32,
        name: Dsn,
    },
    Carry {
        from: u32,
        old: Dsn,
        unit: u32,
        name: Dsn,
        to: Runs,
        replaced: bool,
    },
    ResetFlag {
        unit: u32,
        name: Dsn,
    },
    Repair {
        unit: u32,
    },
    FillStart {
        unit: u32,
        input: DdName,
    },
    FillEnd {
        unit: u32,
        input: DdName,
    },
}
