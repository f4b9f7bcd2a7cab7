//! The line that prints a message.

ghost use Rattle.std.specs.Prelude.{◌≡◌, IfOk, string_bytes};
ghost use Rattle.job_lines.specs.Lines.{line, three};

use crate::message::Message;
use crate::texts::text_in;
use crate::words::{letter_of, number_of};
use ckd_image::NoMemory;
use std::alloc::{AllocError, Global};

/// The line that prints a message of the statement with this number, with its line feed.
pub fn line_of(alloc: Global, statement: u32, message: &Message) -> Result<String, NoMemory>
    ensures { IfOk result (λ text. string_bytes text ≡ line statement message.now) }
{
    let number = three_digits(alloc, u32::from(number_of(message)))?;
    let letter = letter_of(message.severity());
    let statement = three_digits(alloc, statement)?;
    let text = text_in(alloc, message)?;
    Ok(format!(in alloc; "ADR{number}{letter} ({statement}) {text}\n")?)
}

/// The last three digits of a number.
fn three_digits(alloc: Global, number: u32) -> Result<String, AllocError>
    ensures { IfOk result (λ text. string_bytes text ≡ three number) }
{
    let last = number % 1000;
    format!(in alloc; "{last:03}")
}
