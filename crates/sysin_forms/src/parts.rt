//! What operands say.

ghost use Rattle.std.specs.Prelude.{◌≡◌, unwrap_or, []};
ghost use Rattle.sysin_forms.specs.Made as spec;

use crate::operand::Operand;
use by_rules::Criteria;
use ckd_image::Listed;
use dd_names::DdName;
use dsn_filter::Rename;
use std::alloc::Global;
use sysin_lang::{DdNames, Filter, Patterns};
use vol_label::Serial;

/// What operands say, where they stand.
#[derive(Debug, Drop)]
pub struct Parts {
    pub vtoc: bool,
    pub full: bool,
    pub unit: Option<Serial>,
    pub input: Option<DdName>,
    pub target: Option<Serial>,
    pub outs: Option<DdNames>,
    pub filter: Option<Filter>,
    pub include: Option<Patterns>,
    pub exclude: Option<Patterns>,
    pub by: Option<Criteria>,
    pub index: Option<u32>,
    pub limit: Option<u32>,
    pub rename: Option<Rename>,
    pub delete: bool,
    pub purge: bool,
    pub reset: bool,
    pub replace: bool,
    pub tolerate: bool,
}

impl Parts {
    fn none() -> Parts
        ensures { result ≡ spec.nothing }
    {
        Parts {
            vtoc: false,
            full: false,
            unit: None,
            input: None,
            target: None,
            outs: None,
            filter: None,
            include: None,
            exclude: None,
            by: None,
            index: None,
            limit: None,
            rename: None,
            delete: false,
            purge: false,
            reset: false,
            replace: false,
            tolerate: false,
        }
    }

    /// What these operands say.
    pub fn of(operands: Listed<Operand>) -> Parts
        ensures { result ≡ spec.said operands }
    {
        let mut parts = Parts::none();
        let mut list = operands.into_vec();
        'operands: while let Some(operand) = list.pop() {
            parts.add(operand);
        }
        parts
    }

    fn add(&mut self, operand: Operand)
        ensures { self.new ≡ spec.with_operand operand self.old }
    {
        match operand {
            Operand::Vtoc => self.vtoc = true,
            Operand::Full => self.full = true,
            Operand::Unit(unit) => self.unit = Some(unit),
            Operand::LogicalUnit(unit) => self.unit = Some(unit),
            Operand::Input(input) => self.input = Some(input),
            Operand::Target(unit) => self.target = Some(unit),
            Operand::Outputs(names) => self.outs = Some(names),
            Operand::Dataset(filter) => self.filter = Some(filter),
            Operand::Include(patterns) => self.include = Some(patterns),
            Operand::Exclude(patterns) => self.exclude = Some(patterns),
            Operand::By(criteria) => self.by = Some(criteria),
            Operand::Index(number) => self.index = Some(number),
            Operand::Limit(number) => self.limit = Some(number),
            Operand::Rename(rename) => self.rename = Some(rename),
            Operand::Delete => self.delete = true,
            Operand::Purge => self.purge = true,
            Operand::Reset => self.reset = true,
            Operand::Replace => self.replace = true,
            Operand::Tolerate => self.tolerate = true,
            Operand::Wait | Operand::Optimize => {}
        }
    }
}

/// The filter that has these parts.
pub fn filter_of(alloc: Global, parts: Listed<Operand>) -> Filter
    ensures { result ≡ spec.filter_made (spec.said parts) }
{
    made_filter(alloc, Parts::of(parts))
}

pub(crate) fn made_filter(alloc: Global, parts: Parts) -> Filter
    ensures { result ≡ spec.filter_made parts }
{
    let Parts {
        include,
        exclude,
        by,
        ..
    } = parts;
    Filter {
        include: or_none(alloc, include),
        exclude: or_none(alloc, exclude),
        by,
    }
}

fn or_none(alloc: Global, patterns: Option<Patterns>) -> Patterns
    ensures { result ≡ unwrap_or patterns [] }
{
    match patterns {
        Some(patterns) => patterns,
        None => Patterns::new(alloc),
    }
}
