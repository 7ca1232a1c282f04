//! What a command line asks for, and what is done of that without a daemon.
//!
//! [`choose`] says what the words ask. [`pipe`] answers the requests of programs on standard input,
//! and [`run_task`] does what a person asks. Key files and lists of tokens that were taken back are
//! read here for all who need them: [`read_keys`], [`find_list`], and [`look_at`] and
//! [`look_at_list`] for who follows a file that changes.
#![tactic(auto)]

mod arrived;
mod choices;
mod command_line;
mod commands;
mod fault;
mod help;
mod input;
mod key_fault;
mod key_file;
mod key_store;
pub mod laws;
mod lines;
mod list_store;
mod looking;
mod memory;
mod observed_file;
mod options;
mod parts;
mod people;
mod piping;
mod reply_line;
mod status;
mod telling;

pub use choices::{
    Choice, Chosen, HttpOptions, ListenOptions, Mode, PageOptions, PipeOptions, ServeOptions,
};
pub use command_line::{choose, read_words};
pub use commands::{
    ACCEPT_MAX, CONNECTIONS_MAX, DRAIN_MAX, HTTP_CONNECTIONS_MAX, HTTP_PATIENCE_MAX, IDLE_MAX,
    LOOPS_MAX, MEMORY_MAX, MEMORY_MIN, REMEMBER_MAX, VERSION,
};
pub use fault::PipeFault;
pub use input::INPUT_MAX;
pub use key_file::{KeysRead, read_key_file, read_keys};
pub use key_store::{FirstKeys, KeyPlace, read_first};
pub use list_store::{FirstList, ListPlace, find_first_list, find_list, take_list};
pub use looking::{look_at, look_at_list};
pub use memory::find_memory;
pub use observed_file::{FileAnswer, ObservedFile};
pub use people::{
    PersonFault, Task, admit_keys, run_task, status_path, warn_of_no_keys, warn_of_readers,
};
pub use piping::pipe;
pub use status::Status;
pub use telling::{show, tell_ending, tell_fault, tell_key_file};
