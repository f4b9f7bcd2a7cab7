//! The bodies of answers: JSON (RFC 8259) without blanks, its names in the order of their bytes.

ghost use Rattle.std.specs.Prelude.{◌≡◌, codes, IfOk, OnOk, ◌++◌};
ghost use Rattle.std.specs.Fmt.{decimal};
ghost use Rattle.serde_json.specs.Written.{compact_text, comma_if};
ghost use Rattle.desk_text.specs.Pieces.{Adds};
ghost use Rattle.desk_text.specs.Values.{state_text, job_value, line_value, ended_value, jobs_value, online_value, offline_value, volume_value, error_value, busy_value};

use crate::job::{Job, UnitLine, VolumeNumbers};
use crate::parts::{push_number, push_string, push_text};
use ckd_image::{Bytes, NoMemory};
use std::alloc::Global;

/// `{"error":status}`
pub fn error_body(alloc: Global, status: u16) -> Result<Bytes, NoMemory>
    ensures { IfOk result (λ body. body ≡ compact_text (error_value status)) }
{
    let mut body = Bytes::new(alloc);
    push_text(&mut body, b"{\"error\":")?;
    push_number(&mut body, u32::from(status))?;
    push_text(&mut body, b"}")?;
    Ok(body)
}

/// `{"job":number}`
pub fn busy_body(alloc: Global, number: u32) -> Result<Bytes, NoMemory>
    ensures { IfOk result (λ body. body ≡ compact_text (busy_value number)) }
{
    let mut body = Bytes::new(alloc);
    push_text(&mut body, b"{\"job\":")?;
    push_number(&mut body, number)?;
    push_text(&mut body, b"}")?;
    Ok(body)
}

/// `{}`
pub fn hold_body(alloc: Global) -> Result<Bytes, NoMemory>
    ensures { IfOk result (λ body. body ≡ codes "{}") }
{
    Bytes::from_slice(alloc, b"{}")
}

/// The state of a job.
fn state_of(job: &Job) -> &'static [u8]
    ensures { result.now ≡ state_text job.now.ended }
{
    match job.ended {
        Some(_) => b"ENDED",
        None => b"QUEUED",
    }
}

/// Adds key, number and state of a job, as they stand in lists.
fn push_line(out: &mut Bytes, job: &Job) -> Result<(), NoMemory>
    ensures { OnOk result (Adds out.old out.new (compact_text (line_value job.now))) }
{
    push_text(out, b"{\"key\":")?;
    push_string(out, job.key.as_slice())?;
    push_text(out, b",\"number\":")?;
    push_number(out, job.number)?;
    push_text(out, b",\"state\":")?;
    push_string(out, state_of(job))?;
    push_text(out, b"}")?;
    Ok(())
}

/// Adds an ended job.
fn push_ended(out: &mut Bytes, job: &Job, code: u8, print: &[u8]) -> Result<(), NoMemory>
    ensures { OnOk result (Adds out.old out.new (compact_text (ended_value job.now code print.now))) }
{
    push_text(out, b"{\"code\":")?;
    push_number(out, u32::from(code))?;
    push_text(out, b",\"key\":")?;
    push_string(out, job.key.as_slice())?;
    push_text(out, b",\"number\":")?;
    push_number(out, job.number)?;
    push_text(out, b",\"print\":")?;
    push_string(out, print)?;
    push_text(out, b",\"state\":\"ENDED\"}")?;
    Ok(())
}

/// A job as it stands in lists: key, number and state.
pub fn line_body(alloc: Global, job: &Job) -> Result<Bytes, NoMemory>
    ensures { IfOk result (λ body. body ≡ compact_text (line_value job.now)) }
{
    let mut body = Bytes::new(alloc);
    push_line(&mut body, job)?;
    Ok(body)
}

/// A job: queued with key, number and state, or ended with all.
pub fn job_body(alloc: Global, job: &Job) -> Result<Bytes, NoMemory>
    ensures { IfOk result (λ body. body ≡ compact_text (job_value job.now)) }
{
    let mut body = Bytes::new(alloc);
    match &job.ended {
        Some((code, print)) => push_ended(&mut body, job, *code, print.as_slice())?,
        None => push_line(&mut body, job)?,
    }
    Ok(body)
}

/// Adds what stands between two, where one stands before.
fn push_comma(out: &mut Bytes, later: bool) -> Result<(), NoMemory>
    ensures { OnOk result (Adds out.old out.new (comma_if later)) }
{
    if later {
        push_text(out, b",")?;
    }
    Ok(())
}

/// All jobs in order, each with key, number and state.
pub fn jobs_body(alloc: Global, jobs: &[Job]) -> Result<Bytes, NoMemory>
    ensures { IfOk result (λ body. body ≡ compact_text (jobs_value jobs.now)) }
{
    let mut body = Bytes::new(alloc);
    push_text(&mut body, b"{\"jobs\":[")?;
    for (place, job) in jobs.iter().enumerate() {
        push_comma(&mut body, place > 0)?;
        push_line(&mut body, job)?;
    }
    push_text(&mut body, b"]}")?;
    Ok(body)
}

/// Adds a named number behind others.
fn push_field(out: &mut Bytes, name: &[u8], number: u32) -> Result<(), NoMemory>
    ensures { OnOk result (Adds out.old out.new (name.now ++ decimal number)) }
{
    push_text(out, name)?;
    push_number(out, number)?;
    Ok(())
}

/// Adds a unit that is online.
fn push_online(out: &mut Bytes, serial: &[u8], numbers: VolumeNumbers) -> Result<(), NoMemory>
    ensures { OnOk result (Adds out.old out.new (compact_text (online_value serial.now numbers))) }
{
    push_field(out, b"{\"free\":", numbers.free)?;
    push_field(out, b",\"index\":", numbers.index)?;
    push_field(out, b",\"runs\":", numbers.runs)?;
    push_text(out, b",\"serial\":")?;
    push_string(out, serial)?;
    push_field(out, b",\"state\":\"ONLINE\",\"usable\":", numbers.usable)?;
    push_text(out, b"}")?;
    Ok(())
}

/// Adds a unit that is offline.
fn push_offline(out: &mut Bytes, serial: &[u8]) -> Result<(), NoMemory>
    ensures { OnOk result (Adds out.old out.new (compact_text (offline_value serial.now))) }
{
    push_text(out, b"{\"serial\":")?;
    push_string(out, serial)?;
    push_text(out, b",\"state\":\"OFFLINE\"}")?;
    Ok(())
}

/// A unit.
pub fn volume_body(alloc: Global, line: &UnitLine) -> Result<Bytes, NoMemory>
    ensures { IfOk result (λ body. body ≡ compact_text (volume_value line.now)) }
{
    let mut body = Bytes::new(alloc);
    match line.online {
        Some(numbers) => push_online(&mut body, line.serial.as_slice(), numbers)?,
        None => push_offline(&mut body, line.serial.as_slice())?,
    }
    Ok(body)
}
