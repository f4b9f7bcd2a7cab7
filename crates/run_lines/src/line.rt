//! A line that is put together without memory.

ghost use Rattle.std.specs.Prelude.{◌≡◌, ◌≤◌, ◌+◌, ◌++◌, [], length, take};
ghost use Rattle.std.specs.Fmt.{decimal};
ghost use Rattle.job_lines.specs.Names.{printed};

use ckd_image::text::put;
use itoa::Buffer;
use job_lines::{printed_byte, trimmed};
use std::marker::Model;
use vol_label::Serial;

/// The bytes of a line so far, at most 128. Contracts see the list of them.
#[derive(Debug, Drop)]
pub struct Line {
    bytes: [u8; 128],
    end: usize,
}

impl Model for Line {
    ghost use Rattle.std.specs.Prelude.{ℕ, List, ◌≤◌, take};

    ghost Value = { List ℕ };

    ghost view = { λ l. take l.end l.bytes };

    ghost invariant = { λ l. l.end ≤ 128 };
}

impl Line {
    /// A line of no bytes.
    pub fn new() -> Line
        ensures { result ≡ [] }
    {
        Line {
            bytes: [0; 128],
            end: 0,
        }
    }

    pub fn as_slice(&self) -> &[u8]
        ensures { result.now ≡ self.now }
    {
        &self.bytes[..self.end]
    }

    pub fn push(&mut self, piece: &[u8])
        requires { length self.old + length piece.now ≤ 128 }
        ensures text { self.new ≡ self.old ++ piece.now }
        ensures length { length self.new ≡ length self.old + length piece.now }
    {
        self.end = put(&mut self.bytes, self.end, piece);
    }

    /// Adds a number, of ten digits at most.
    pub fn push_number(&mut self, number: u32)
        requires { length self.old ≤ 118 }
        ensures text { self.new ≡ self.old ++ decimal number }
        ensures length { length self.new ≤ length self.old + 10 }
    {
        self.push(Buffer::new().format(number).as_bytes());
    }

    /// Adds a serial as it is printed.
    pub fn push_serial(&mut self, serial: Serial)
        requires { length self.old ≤ 122 }
        ensures text { self.new ≡ self.old ++ printed serial.text }
        ensures length { length self.new ≤ length self.old + 6 }
    {
        let text = trimmed(&serial.text);
        for byte in text {
            self.push(&[printed_byte(*byte)]);
        }
    }
}
