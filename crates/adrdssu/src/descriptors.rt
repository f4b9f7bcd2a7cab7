//! The standard descriptors.

use std::fs::File;
use std::io;
use std::os::fd::AsRawFd;

/// What stands for a standard descriptor that the program was started without.
pub const NULL_DEVICE: &str = "/dev/null";

/// The greatest number of a standard descriptor.
const LAST: i32 = 2;

/// Takes each standard descriptor that is closed by the null device, opened for reading, so that no file that is opened later gets its
/// number and with it the printed lines. They stay taken while the files live.
pub fn take_closed(rt: &HostRuntime) -> io::Result<Vec<File>> {
    let mut taken = Vec::new(rt.alloc());
    for _ in 0..=LAST {
        let file = File::open(rt, NULL_DEVICE)?;
        if file.as_raw_fd() > LAST {
            break;
        }
        taken.push(file)?;
    }
    Ok(taken)
}
