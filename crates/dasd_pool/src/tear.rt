//! Blocks as a stop leaves them.

ghost use Rattle.std.specs.Prelude.{◌≡◌, ◌<◌, All, length, IfOk};
ghost use Rattle.dasd_pool.specs.Tears.{trace_step, trace_after, trace_first, torn, IsSized};
ghost use Rattle.dasd_pool.specs.Blocks.{seen};

use crate::calls::{Call, Tear};
use std::alloc::{AllocError, Global};

/// One block: as the last successful sync left it, as it is, as the last write wanted it, and whether it is synced.
#[derive(Clone, Copy, Debug)]
pub struct BlockTrace<'a> {
    pub base: &'a [u8],
    pub held: &'a [u8],
    pub last: &'a [u8],
    pub synced: bool,
}

/// The block after one call more.
fn after_call<'a>(trace: BlockTrace<'a>, call: &'a Call, unit: u32, block: u32) -> BlockTrace<'a>
    ensures { seen result ≡ trace_step unit block (seen trace.entry) call.now }
{
    match call {
        Call::Read { .. } => trace,
        Call::Write {
            unit: u,
            block: b,
            bytes,
            failed,
        } => {
            if *u != unit || *b != block {
                return trace;
            }
            let held = if *failed { trace.held } else { bytes };
            BlockTrace {
                base: trace.base,
                held,
                last: bytes,
                synced: false,
            }
        }
        Call::Sync { failed } => {
            if *failed {
                return trace;
            }
            BlockTrace {
                base: trace.held,
                held: trace.held,
                last: trace.last,
                synced: true,
            }
        }
    }
}

/// The block after calls, torn.
fn tear_block(out: &mut [u8], first: &[u8], unit: u32, block: u32, calls: &[Call], tear: Tear)
    requires size { length out.old ≡ length first.now }
    requires calls { All (IsSized unit (length first.now)) calls.now }
    ensures { out.new ≡ torn tear (trace_after unit block (trace_first first.now) calls.now) }
{
    let mut trace = BlockTrace {
        base: first,
        held: first,
        last: first,
        synced: true,
    };
    for call in calls {
        trace = after_call(trace, call, unit, block);
    }
    tear_trace(out, trace, tear)
}

/// A block, torn.
fn tear_trace(out: &mut [u8], trace: BlockTrace<'_>, tear: Tear)
    requires base { length trace.base.now ≡ length out.old }
    requires held { length trace.held.now ≡ length out.old }
    requires last { length trace.last.now ≡ length out.old }
    ensures { out.new ≡ torn tear (seen trace.entry) }
{
    if trace.synced {
        out.copy_from_slice(trace.held);
        return;
    }
    match tear {
        Tear::Old => out.copy_from_slice(trace.base),
        Tear::New => out.copy_from_slice(trace.last),
        Tear::Zero => out.fill(0),
        Tear::Half => {
            let half = trace.base.len() / 2;
            out[..half].copy_from_slice(&trace.last[..half]);
            out[half..].copy_from_slice(&trace.base[half..]);
        }
    }
}

/// The block after calls, torn.
pub fn torn_block(
    alloc: Global,
    first: &[u8],
    unit: u32,
    block: u32,
    calls: &[Call],
    tear: Tear,
) -> Result<Vec<u8>, AllocError>
    requires { All (IsSized unit (length first.now)) calls.now }
    ensures torn { IfOk result (λ out. out.items ≡ torn tear (trace_after unit block (trace_first first.now) calls.now)) }
    ensures size { IfOk result (λ out. length out.items ≡ length first.now) }
{
    let mut out = first.to_vec(alloc)?;
    tear_block(&mut out, first, unit, block, calls, tear);
    Ok(out)
}
