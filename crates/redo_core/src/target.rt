//! Where an entry goes.

/// A block of a unit.
#[derive(Clone, Copy, Debug, PartialEq, Eq)]
pub struct Target {
    pub unit: u32,
    pub block: u32,
}
