//! The commands of a SYSIN text.

use by_rules::Criteria;
use ckd_image::Listed;
use dd_names::DdName;
use dsn_filter::{Pattern, Rename};
use vol_label::Serial;

/// Patterns, in the order in which they stand.
pub type Patterns = Listed<Pattern>;

/// DD names, in the order in which they stand.
pub type DdNames = Listed<DdName>;

/// Which data sets a command takes.
#[derive(Debug, Drop)]
pub struct Filter {
    pub include: Patterns,
    pub exclude: Patterns,
    pub by: Option<Criteria>,
}

/// What a command does, on which volumes and files.
#[derive(Debug, Drop)]
pub enum Command {
    PrintVtoc {
        unit: Serial,
    },
    Release {
        filter: Filter,
        unit: Serial,
    },
    Consolidate {
        filter: Filter,
        unit: Serial,
    },
    Defrag {
        unit: Serial,
        index: Option<u32>,
        limit: Option<u32>,
    },
    Copy {
        filter: Filter,
        unit: Serial,
        to: Serial,
        delete: bool,
        purge: bool,
        replace: bool,
        rename: Rename,
        tolerate: bool,
    },
    DumpDataset {
        filter: Filter,
        unit: Serial,
        outs: DdNames,
        reset: bool,
        delete: bool,
        purge: bool,
        tolerate: bool,
    },
    DumpFull {
        unit: Serial,
        outs: DdNames,
    },
    RestoreDataset {
        filter: Filter,
        input: DdName,
        to: Serial,
        purge: bool,
        replace: bool,
        rename: Rename,
    },
    RestoreFull {
        input: DdName,
        to: Serial,
        purge: bool,
    },
}

/// A command with its place among the commands of the text, from 1.
#[derive(Debug, Drop)]
pub struct Statement {
    pub number: u32,
    pub command: Command,
}
