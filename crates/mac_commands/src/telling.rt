//! What is said of a run that didn't go well, and how it ends.

ghost use Rattle.std.specs.Prelude.{◌≡◌};
ghost use Rattle.mac_commands.specs.Status.{IsShown, list_status, pipe_status, run_status};

use crate::fault::PipeFault;
use crate::key_fault::say_key_fault;
use crate::people::PersonFault;
use crate::status::Status;
use mac_board::ListRefusal;
use std::fs::Files;

/// Says in words why the key file at a path gives no table, and how the run ends.
pub fn tell_key_file<R: Eprint + Files>(rt: &R, path: &str, fault: PipeFault) -> Status
    ensures { result ≡ pipe_status fault }
{
    say_key_fault(rt, path, fault);
    fault.status()
}

/// Names the fault that a run ended with on standard error, and says how the run ended.
pub fn tell_ending<R: Eprint>(rt: &R, ending: Result<(), PipeFault>) -> Status
    ensures { result ≡ run_status ending }
{
    match ending {
        Ok(()) => Status::Done,
        Err(fault) => {
            let _ = eprintln!(rt; "{fault}");
            fault.status()
        }
    }
}

/// Shows what came of a line that asks for no work, and says how the run ended.
pub fn show<R: Print + Eprint>(rt: &R, status: Status, text: &str) -> Status
    ensures { IsShown status result }
{
    match status {
        Status::Done if print!(rt; "{text}").is_err() => tell_fault(rt, Status::DeviceFault),
        Status::Done => Status::Done,
        Status::NoMemory => tell_fault(rt, Status::NoMemory),
        _ => {
            let _ = eprint!(rt; "{text}");
            status
        }
    }
}

/// Names the number of a status on standard error, where there is no more to say.
pub fn tell_fault<R: Eprint>(rt: &R, status: Status) -> Status
    ensures { result ≡ status }
{
    let number = status.code();
    let _ = eprintln!(rt; "fault {number}");
    status
}

/// Says on standard error why a list of tokens that were taken back isn't taken.
pub(crate) fn tell_list<R: Eprint + Files>(rt: &R, path: &str, why: ListRefusal) -> Status
    ensures { result ≡ list_status why }
{
    let _ = eprintln!(rt; "error: {}", PersonFault::of_list(rt, path, why));
    match why {
        ListRefusal::Faulty { .. } => Status::BadKeys,
        _ => Status::DeviceFault,
    }
}
