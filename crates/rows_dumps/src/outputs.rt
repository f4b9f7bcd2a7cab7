//! Outputs of tests, in memory and over files.

ghost use Rattle.std.specs.Prelude.{◌≡◌, IfOk};
ghost use Rattle.dump_fmt.specs.declared.outs.OutState.TheVariants.{Unused};

use dasd_pool::{FileMedium, Medium, MemoryMedium};
use dump_fmt::{DdName, OutDd, OutState};
use std::env;
use std::fs::File;
use std::test::*;

/// An output that nothing was written to.
fn out_of(medium: Box<dyn Medium>) -> OutDd
    ensures { result.state ≡ Unused }
{
    let name = DdName {
        len: 1,
        text: *b"O\0\0\0\0\0\0\0",
    };
    OutDd {
        name,
        medium,
        state: OutState::Unused,
    }
}

/// One in memory, with so much room and calls that fail.
pub fn memory_out(rt: &HostRuntime, room: u32, failing: &[u64]) -> Result<OutDd, Fail>
    ensures { IfOk result (λ out. out.state ≡ Unused) }
{
    let medium = MemoryMedium::new(rt.alloc(), room, failing.to_vec(rt.alloc())?)?;
    Ok(out_of(Box::new(rt.alloc(), medium)?))
}

/// One over a new file among those for a while.
pub fn file_out(rt: &HostRuntime, path: &str) -> Result<OutDd, Fail>
    ensures { IfOk result (λ out. out.state ≡ Unused) }
{
    let file = File::create(rt, path)?;
    let folder = File::open(rt, env::temp_dir(rt)?)?;
    Ok(out_of(Box::new(rt.alloc(), FileMedium::new(file, folder))?))
}
