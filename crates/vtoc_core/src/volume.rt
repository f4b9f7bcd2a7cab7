//! A volume and its data sets.

use ckd_image::{Device, Listed};
use dscb_rec::Extent;
use free_map::{FreeMap, Run};
use vol_label::Serial;

pub type Extents = Listed<Extent>;

/// A data set: its name in the code page, its format 1, its extents in order, and how many format 3s it uses.
#[derive(Debug, Drop)]
pub struct Row {
    pub name: [u8; 44],
    pub f1: [u8; 140],
    pub extents: Extents,
    pub threes: u32,
}

pub type Rows = Listed<Row>;

/// A volume as its VTOC says it.
///
/// The rows stand in the order of their names. Without `repair` format 5 states the free tracks. `dscbs` is the number of the
/// VTOC's records, of which `free_dscbs` are free and `fives` are format 5s.
#[derive(Debug, Drop)]
pub struct Volume {
    pub serial: Serial,
    pub device: Device,
    pub usable: u32,
    pub vtoc: Run,
    pub rows: Rows,
    pub free: FreeMap,
    pub repair: bool,
    pub indexed: bool,
    pub dscbs: u32,
    pub free_dscbs: u32,
    pub fives: u32,
}
