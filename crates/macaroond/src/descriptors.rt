//! The descriptors of standard input, output and error.
use std::fs::{File, Files};
use std::io;
use std::os::fd::{AsRawFd, IntoRawFd};

/// The descriptor of standard error, the last of the three.
const STANDARD_ERROR: i32 = 2;

/// What is opened where a descriptor is closed.
pub(crate) const NOWHERE: &str = "/dev/null";

/// Opens `/dev/null` for each of standard input, output and error that is closed. A file gets the
/// lowest number that is free: without this a client's socket could be what is printed to.
pub(crate) fn open_standard<R: Files<File = File>>(rt: &R) -> io::Result<()> {
    for _ in 0..=STANDARD_ERROR {
        let file = File::options().read(true).write(true).open(rt, NOWHERE)?;
        if file.as_raw_fd() > STANDARD_ERROR {
            return Ok(());
        }
        let _kept_open = file.into_raw_fd();
    }
    Ok(())
}
