//! A DSCB by its format.

ghost use Rattle.std.specs.Prelude.{◌≡◌, ◌≤◌, OnOk, IfOk, IfErr, IfSome, IfNone};
ghost use Rattle.dscb_rec.specs.Dscb.{IsFilled, IsFirstOther, IsOtherId, IsDscb, IsDscbFault, dscb_text, number_of};

use thiserror::Error;

/// A DSCB, which keeps all its 140 bytes.
#[derive(Clone, Copy, Debug, PartialEq, Eq)]
pub enum Dscb {
    /// A free record, all zeros.
    Free,
    /// A data set.
    F1([u8; 140]),
    /// More extents of a data set.
    F3([u8; 140]),
    /// The VTOC itself.
    F4([u8; 140]),
    /// Free space.
    F5([u8; 140]),
}

/// The rules of a DSCB's text.
#[derive(Clone, Copy, Debug, PartialEq, Eq)]
pub enum DscbRule {
    Format,
    NotZero,
    KeyId,
}

impl DscbRule {
    /// The number of the rule in a refusal.
    pub fn number(self) -> u8
        ensures { result ≡ number_of self }
    {
        match self {
            DscbRule::Format => 1,
            DscbRule::NotZero => 2,
            DscbRule::KeyId => 3,
        }
    }
}

/// The lowest byte that breaks a rule, and the rule's number.
#[derive(Clone, Copy, Debug, PartialEq, Eq, Error)]
pub enum DscbFault {
    #[error("no DSCB: byte {0} breaks rule {1}")]
    BadDscb(u32, u8),
}

fn wrong(byte: u32, rule: DscbRule) -> DscbFault
    ensures { result ≡ DscbFault.BadDscb byte (number_of rule) }
{
    DscbFault::BadDscb(byte, rule.number())
}

/// The lowest of the first bytes, so many of them, that has another value.
fn first_other(bytes: &[u8; 140], count: u32, value: u8) -> Option<u32>
    requires { count ≤ 140 }
    ensures found { IfSome result (IsFirstOther count value bytes.now) }
    ensures none { IfNone result (IsFilled count value bytes.now) }
{
    for place in 0..count {
        if bytes[place as usize] != value {
            return Some(place);
        }
    }
    None
}

/// Whether the identifier of a format stands at the front: so many bytes of one value.
fn identified(bytes: &[u8; 140], count: u32, value: u8) -> Result<(), DscbFault>
    requires { count ≤ 140 }
    ensures ok { OnOk result (IsFilled count value bytes.now) }
    ensures refused { IfErr result (IsOtherId count value bytes.now) }
{
    match first_other(bytes, count, value) {
        Some(byte) => Err(wrong(byte, DscbRule::KeyId)),
        None => Ok(()),
    }
}

/// Reads the 140 bytes of a VTOC record.
pub fn read_dscb(bytes: &[u8; 140]) -> Result<Dscb, DscbFault>
    ensures read { IfOk result (IsDscb bytes.now) }
    // Nothing is lost: the same bytes are written again.
    ensures kept { IfOk result (λ dscb. dscb_text dscb ≡ bytes.now) }
    ensures refused { IfErr result (IsDscbFault bytes.now) }
{
    match bytes[44] {
        0 => match first_other(bytes, 140, 0) {
            Some(byte) => Err(wrong(byte, DscbRule::NotZero)),
            None => Ok(Dscb::Free),
        },
        0xf1 => Ok(Dscb::F1(*bytes)),
        0xf3 => {
            identified(bytes, 4, 0x03)?;
            Ok(Dscb::F3(*bytes))
        }
        0xf4 => {
            identified(bytes, 44, 0x04)?;
            Ok(Dscb::F4(*bytes))
        }
        0xf5 => {
            identified(bytes, 4, 0x05)?;
            Ok(Dscb::F5(*bytes))
        }
        _ => Err(wrong(44, DscbRule::Format)),
    }
}

/// The 140 bytes of a DSCB.
pub fn write_dscb(dscb: &Dscb) -> [u8; 140]
    ensures { result ≡ dscb_text dscb.now }
{
    match dscb {
        Dscb::Free => [0; 140],
        Dscb::F1(bytes) => *bytes,
        Dscb::F3(bytes) => *bytes,
        Dscb::F4(bytes) => *bytes,
        Dscb::F5(bytes) => *bytes,
    }
}
