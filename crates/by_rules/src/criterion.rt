//! A criterion, and what it asks of a row.

ghost use Rattle.std.specs.Prelude.{◌≡◌, ◌↔◌, All, Any, IsTrue};
ghost use Rattle.by_rules.specs.Day.{IsToday};
ghost use Rattle.by_rules.specs.Criterion.{code_of, fact_of, StandsFor, Compares, Meets, Holds, IsSoundValue, IsSound};

use crate::day::Day;
use crate::row::{AllocKind, RowFacts};
use ckd_image::Listed;

/// The bit of DSORG that says that a data set can't be moved.
const UNMOVABLE: u16 = 0x0100;

/// Which fact of a row is compared.
#[derive(Clone, Copy, Debug, PartialEq, Eq)]
pub enum Key {
    Organization,
    Created,
    Expires,
    Referred,
    Extents,
    Tracks,
    Changed,
    Allocation,
    Multivolume,
}

/// How it is compared.
#[derive(Clone, Copy, Debug, PartialEq, Eq)]
pub enum Op {
    Equal,
    NotEqual,
    Greater,
    Less,
    GreaterOrEqual,
    LessOrEqual,
}

/// What a data set's records are reached by.
#[derive(Clone, Copy, Debug, PartialEq, Eq)]
pub enum Organization {
    Sequential,
    Direct,
    Partitioned,
    IndexedSequential,
    Vsam,
}

/// A date of a criterion: a day, or so many days after today.
#[derive(Clone, Copy, Debug, PartialEq, Eq)]
pub enum When {
    On(Day),
    FromToday(i32),
}

/// A value that a fact is compared with.
#[derive(Clone, Copy, Debug, PartialEq, Eq)]
pub enum Value {
    Organization(Organization),
    Date(When),
    Number(u16),
    Flag(bool),
    Allocation(AllocKind),
}

/// A criterion. One value satisfies it, or under `NotEqual` each of them.
#[derive(Debug, Drop)]
pub struct Criterion {
    pub key: Key,
    pub op: Op,
    pub values: Listed<Value>,
}

/// A fact of a row, or what a value says of one today.
#[derive(Clone, Copy, Debug, PartialEq, Eq)]
pub(crate) enum Fact {
    Organization(u16),
    Date(Day),
    Number(u32),
    Flag(bool),
    Allocation(AllocKind),
}

impl Criterion {
    /// Whether a row satisfies it.
    pub(crate) fn holds(&self, row: &RowFacts, today: Day) -> bool
        requires today { IsToday today }
        requires sound { IsSound self.now }
        ensures { IsTrue result ↔ Holds self.now row.now today }
    {
        match self.op {
            Op::NotEqual => self.meets_each(row, today),
            _ => self.meets_some(row, today),
        }
    }

    fn meets_each(&self, row: &RowFacts, today: Day) -> bool
        requires today { IsToday today }
        requires sound { IsSound self.now }
        ensures { IsTrue result ↔ All (Meets self.now row.now today) self.now.values }
    {
        for value in self.values.as_slice() {
            if !self.meets(*value, row, today) {
                return false;
            }
        }
        true
    }

    fn meets_some(&self, row: &RowFacts, today: Day) -> bool
        requires today { IsToday today }
        requires sound { IsSound self.now }
        ensures { IsTrue result ↔ Any (Meets self.now row.now today) self.now.values }
    {
        for value in self.values.as_slice() {
            if self.meets(*value, row, today) {
                return true;
            }
        }
        false
    }

    fn meets(&self, value: Value, row: &RowFacts, today: Day) -> bool
        requires today { IsToday today }
        requires sound { IsSoundValue value }
        ensures { IsTrue result ↔ Meets self.now row.now today value }
    {
        let fact = value.fact(today);
        self.op.compares(row.fact(self.key), fact)
    }
}

impl RowFacts {
    /// The fact that a key names. A data set that can't be moved has its organization all the same.
    fn fact(&self, key: Key) -> Fact
        ensures { result ≡ fact_of key self.now }
    {
        match key {
            Key::Organization => Fact::Organization(self.dsorg & !UNMOVABLE),
            Key::Created => Fact::Date(self.created),
            Key::Expires => Fact::Date(self.expires),
            Key::Referred => Fact::Date(self.referred),
            Key::Extents => Fact::Number(self.extents),
            Key::Tracks => Fact::Number(self.tracks),
            Key::Changed => Fact::Flag(self.changed),
            Key::Allocation => Fact::Allocation(self.alloc_kind),
            Key::Multivolume => Fact::Flag(self.sequence > 1),
        }
    }
}

impl Value {
    /// The fact that it stands for today.
    fn fact(self, today: Day) -> Fact
        requires today { IsToday today }
        requires sound { IsSoundValue self }
        ensures { StandsFor today self result }
    {
        match self {
            Value::Organization(organization) => Fact::Organization(organization.code()),
            Value::Date(When::On(day)) => Fact::Date(day),
            Value::Date(When::FromToday(days)) => Fact::Date(today.after(days)),
            Value::Number(number) => Fact::Number(number as u32),
            Value::Flag(flag) => Fact::Flag(flag),
            Value::Allocation(kind) => Fact::Allocation(kind),
        }
    }
}

impl Organization {
    /// The bits of DSORG.
    fn code(self) -> u16
        ensures { result ≡ code_of self }
    {
        match self {
            Organization::Sequential => 0x4000,
            Organization::Direct => 0x2000,
            Organization::Partitioned => 0x0200,
            Organization::IndexedSequential => 0x8000,
            Organization::Vsam => 0x0008,
        }
    }
}

impl Op {
    fn compares(self, fact: Fact, other: Fact) -> bool
        ensures { IsTrue result ↔ Compares self fact other }
    {
        match self {
            Op::Equal => fact.is_same(other),
            Op::NotEqual => !fact.is_same(other),
            Op::Greater => other.is_below(fact),
            Op::Less => fact.is_below(other),
            Op::GreaterOrEqual => !fact.is_below(other),
            Op::LessOrEqual => !other.is_below(fact),
        }
    }
}

impl Fact {
    fn is_same(self, other: Fact) -> bool
        ensures { IsTrue result ↔ (self ≡ other) }
    {
        self == other
    }

    /// Whether it stands below the other.
    fn is_below(self, other: Fact) -> bool
        ensures { IsTrue result ↔ Rattle.by_rules.specs.Criterion.IsBelow self other }
    {
        match (self, other) {
            (Fact::Number(left), Fact::Number(right)) => left < right,
            (Fact::Date(left), Fact::Date(right)) => left.is_earlier(right),
            _ => false,
        }
    }
}
