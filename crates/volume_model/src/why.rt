//! Why a unit is offline.

/// Why a unit is offline. The first cause counts, in this order: the head, an unfinished restore, the label, the VTOC.
#[derive(Clone, Copy, Debug, PartialEq, Eq)]
pub enum Why {
    /// The number of the first rule that the head breaks.
    Head(u8),
    /// The number of the first rule that the label breaks.
    Label(u8),
    /// The lowest record of the VTOC that breaks a rule, by its track and its number, and the number of the rule.
    Vtoc(u32, u8, u8),
    /// A restore of the whole volume began and did not end.
    Filling,
}
