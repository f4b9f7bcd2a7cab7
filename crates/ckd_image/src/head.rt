//! The head of an image.

ghost use Rattle.std.specs.Prelude.{◌≡◌, ◌↔◌, ◌+◌, ◌≤◌, drop, IsTrue, IfSome, IfNone, IfOk, IfErr};
ghost use Rattle.byteorder.specs.Endian.{little_number};
ghost use Rattle.ckd_image.specs.declared.device.Device.{Device};
ghost use Rattle.ckd_image.specs.Head.{number_of, NamesDevice, IsUnsplit, IsCylinders, IsHead, IsHeadFault};

use crate::device::Device;
use crate::fault::CkdFault;
use crate::text::begins;
use byteorder::{ByteOrder, LittleEndian};

/// The rules of a head, in their order.
#[derive(Clone, Copy, Debug, PartialEq, Eq)]
pub enum HeadRule {
    Magic,
    Device,
    Heads,
    Slot,
    Split,
    Blocks,
}

impl HeadRule {
    /// The number of the rule in a refusal.
    pub fn number(self) -> u8
        ensures { result ≡ number_of self }
    {
        match self {
            HeadRule::Magic => 1,
            HeadRule::Device => 2,
            HeadRule::Heads => 3,
            HeadRule::Slot => 4,
            HeadRule::Split => 5,
            HeadRule::Blocks => 6,
        }
    }
}

/// The device of an image and the number of its tracks.
#[derive(Clone, Copy, Debug, PartialEq, Eq)]
pub struct Head {
    pub device: Device,
    pub tracks: u32,
}

fn broken(rule: HeadRule) -> CkdFault
    ensures { result ≡ CkdFault.BadHead (number_of rule) }
{
    CkdFault::BadHead(rule.number())
}

/// The number of two bytes at a place, the lowest first.
fn u16_at(head: &[u8; 512], place: usize) -> u16
    requires { place + 2 ≤ 512 }
    ensures { result ≡ little_number 2 (drop place head.now) }
{
    LittleEndian::read_u16(&head[place..])
}

/// The number of four bytes at a place, the lowest first.
fn u32_at(head: &[u8; 512], place: usize) -> u32
    requires { place + 4 ≤ 512 }
    ensures { result ≡ little_number 4 (drop place head.now) }
{
    LittleEndian::read_u32(&head[place..])
}

fn device_of(head: &[u8; 512]) -> Option<Device>
    ensures found { IfSome result (λ device. NamesDevice device head.now) }
    ensures none { IfNone result ((device : Device) → ¬ NamesDevice device head.now) }
{
    match head[16] {
        0x90 => Some(Device::D3390),
        0x80 => Some(Device::D3380),
        0x50 => Some(Device::D3350),
        _ => None,
    }
}

fn is_unsplit(head: &[u8; 512]) -> bool
    ensures { IsTrue result ↔ IsUnsplit head.now }
{
    match head[17] {
        0 => true,
        1 => u16_at(head, 18) == 0,
        _ => false,
    }
}

fn is_cylinders(device: Device, blocks: u32) -> bool
    ensures { IsTrue result ↔ IsCylinders device blocks }
{
    1 <= blocks && blocks <= 65_535 && blocks % device.heads() == 0
}

impl Head {
    /// Reads the head of an image of so many slots.
    pub fn read(head: &[u8; 512], blocks: u32) -> Result<Head, CkdFault>
        ensures read { IfOk result (λ found. IsHead head.now blocks found.device × (found.tracks ≡ blocks)) }
        ensures refused { IfErr result (IsHeadFault head.now blocks) }
    {
        if !begins(head, b"CKD_P370") {
            return Err(broken(HeadRule::Magic));
        }
        let Some(device) = device_of(head) else {
            return Err(broken(HeadRule::Device));
        };
        if u32_at(head, 8) != device.heads() {
            return Err(broken(HeadRule::Heads));
        }
        if u32_at(head, 12) != device.slot() {
            return Err(broken(HeadRule::Slot));
        }
        if !is_unsplit(head) {
            return Err(broken(HeadRule::Split));
        }
        if !is_cylinders(device, blocks) {
            return Err(broken(HeadRule::Blocks));
        }
        Ok(Head {
            device,
            tracks: blocks,
        })
    }
}
