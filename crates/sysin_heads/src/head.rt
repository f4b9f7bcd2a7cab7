//! What SET and IF say.

use by_rules::Op;
use sysin_words::Which;

/// What SET or an IF up to its THEN says.
#[derive(Clone, Copy, Debug, PartialEq, Eq)]
pub enum Head {
    Set(Which, u8),
    If(Which, Op, u8),
}

/// What stands before a token of SET or IF.
#[derive(Clone, Copy, Debug, PartialEq, Eq)]
pub enum HeadPlace {
    Start,
    Set,
    SetName(Which),
    SetSign(Which),
    If,
    IfName(Which),
    IfOp(Which, Op),
    IfCode(Which, Op, u8),
    /// All of its tokens.
    Ended(Head),
}
