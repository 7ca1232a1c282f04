//! What a daemon asks of the system that started it: signals, which a launcher has held back for
//! it; a socket that was opened before it; a word to the service manager once it is ready; and its
//! clock.
#![tactic(auto)]

mod handed;
mod journal;
mod moments;
mod notify;
mod signals;
mod variable;

pub use handed::{HandedFault, Handing, handed_listener, read_handing};
pub use journal::{is_journal, names_file};
pub use moments::SystemMoments;
pub use notify::{NOTIFY_PATH_MAX, NotifySocket, State};
pub use signals::{SIGNALS_VARIABLE, Signal, Signals};
pub use std::alloc::AllocError as NoMemory;
