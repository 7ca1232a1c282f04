//! Signals. A program of this toolchain can't hold one back; `packaging/launcher.c` does, and hands
//! over a descriptor from which they are read (`signalfd(2)`).

ghost use Rattle.std.specs.Prelude.{◌≡◌, ◌≢◌, ◌↔◌, Some, IfErr};
ghost use Rattle.std.specs.IoError.{error_kind};
ghost use Rattle.mac_system.specs.Signals.{signal_number, IsNumberOf};

use crate::variable::variable;
use std::alloc::{Alloc, Global};
use std::env::Env;
use std::io;
use std::io::{Error, ErrorKind};

/// The variable in which the launcher tells the number of the descriptor.
pub const SIGNALS_VARIABLE: &str = "MACAROOND_SIGNALS";

/// The descriptors below are standard input, output and error.
const FIRST_DESCRIPTOR: i32 = 3;

/// The bytes in which the system tells of a signal.
const RECORD_SIZE: usize = 128;

/// What a daemon is told by a signal.
#[derive(Clone, Copy, Debug, PartialEq, Eq)]
pub enum Signal {
    /// SIGHUP.
    HangUp,
    /// SIGINT.
    Interrupt,
    /// SIGTERM.
    Terminate,
}

impl Signal {
    /// The signal of a number of `signal(7)`, if it is one of these.
    pub fn of_number(number: u32) -> Option<Signal>
        ensures { (signal : Signal) → (result ≡ Some signal) ↔ (number ≡ signal_number signal) }
    {
        match number {
            1 => Some(Signal::HangUp),
            2 => Some(Signal::Interrupt),
            15 => Some(Signal::Terminate),
            _ => None,
        }
    }
}

/// The descriptor of a launcher that holds signals back.
#[derive(Clone, Copy, Debug)]
pub struct Signals {
    descriptor: i32,
}

impl Signals {
    /// The descriptor that the environment names. Without a launcher there is none, and signals do
    /// what they do to any program.
    pub fn of_environment<R: Env + Alloc<A = Global>>(rt: &R) -> Option<Signals> {
        let told = variable(rt, SIGNALS_VARIABLE).ok()??;
        let descriptor = told.as_str().parse::<i32>().ok()?;
        if descriptor < FIRST_DESCRIPTOR {
            return None;
        }
        Some(Signals { descriptor })
    }

    /// Waits for the next signal. A read that was broken off is made again; any other fault is
    /// told, and a further call reads again.
    pub fn wait(&self) -> io::Result<Signal>
        ensures retried { IfErr result (λ fault. error_kind fault ≢ ErrorKind.Interrupted) }
    {
        for _ in 0..u64::MAX {
            match self.next_number() {
                Ok(number) => {
                    if let Some(signal) = Signal::of_number(number) {
                        return Ok(signal);
                    }
                }
                Err(fault) if fault.kind() == ErrorKind::Interrupted => {}
                Err(fault) => return Err(fault),
            }
        }
        Err(ErrorKind::TimedOut.into())
    }

    /// The number of the next signal, or why the system gives none.
    fn next_number(&self) -> io::Result<u32> {
        let mut record = [0u8; RECORD_SIZE];
        let answer = libc::read(self.descriptor, &mut record);
        number_of(answer, os::errno(), &record)
    }
}

/// What a read of a record came to, by the system's answer and its number of a fault: the number of
/// a signal, or the fault. A record that is cut short tells no signal.
fn number_of(answer: isize, code: i32, bytes: &[u8; RECORD_SIZE]) -> io::Result<u32>
    ensures { IsNumberOf answer code bytes.now result }
{
    if answer < 0 {
        return Err(Error::from_raw_os_error(code));
    }
    if answer != RECORD_SIZE as isize {
        return Err(ErrorKind::UnexpectedEof.into());
    }
    Ok(u32::from_le_bytes([bytes[0], bytes[1], bytes[2], bytes[3]]))
}
