//! The condition codes of a run.

ghost use Rattle.std.specs.Prelude.{◌≡◌};
ghost use Rattle.sysin_lang.specs.Flow as spec;

use by_rules::Op;
use sysin_words::Which;

/// How far a script has run: a place in it, and the condition codes.
#[derive(Clone, Copy, Debug, PartialEq, Eq)]
pub struct Flow {
    pub(crate) place: usize,
    pub(crate) lastcc: u8,
    pub(crate) maxcc: u8,
}

/// Whether two codes compare so.
pub(crate) fn compares(op: Op, left: u8, right: u8) -> bool
    ensures { result ≡ spec.compares op left right }
{
    match op {
        Op::Equal => left == right,
        Op::NotEqual => left != right,
        Op::Greater => left > right,
        Op::Less => left < right,
        Op::GreaterOrEqual => left >= right,
        Op::LessOrEqual => left <= right,
    }
}

impl Flow {
    ghost use Rattle.sysin_lang.specs.declared.script.Script.{Script};
    ghost use Rattle.sysin_lang.specs.Script.{codes_of, left_of, plan_of_script};

    /// The start of each script.
    pub fn new() -> Flow
        ensures codes { codes_of result ≡ spec.zero_codes }
        ensures left { (script : Script) → left_of script result ≡ plan_of_script script }
    {
        Flow {
            place: 0,
            lastcc: 0,
            maxcc: 0,
        }
    }

    pub fn lastcc(&self) -> u8
        ensures { result ≡ (codes_of self.now).lastcc }
    {
        self.lastcc
    }

    pub fn maxcc(&self) -> u8
        ensures { result ≡ (codes_of self.now).maxcc }
    {
        self.maxcc
    }

    /// The code that has this name.
    pub(crate) fn code(&self, which: Which) -> u8
        ensures { result ≡ spec.code_of which (codes_of self.now) }
    {
        match which {
            Which::Last => self.lastcc,
            Which::Max => self.maxcc,
        }
    }

    /// Sets the code that has this name.
    pub(crate) fn set(&mut self, which: Which, code: u8)
        ensures codes { codes_of self.new ≡ spec.with_code which code (codes_of self.old) }
        ensures place { self.new.place ≡ self.old.place }
    {
        match which {
            Which::Last => self.lastcc = code,
            Which::Max => self.maxcc = code,
        }
    }
}
