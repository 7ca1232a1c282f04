//! What people ask of the program: keys, tokens, and what tokens say.
mod answering;
mod asking;
mod checking;
mod fault;
mod given;
mod key_files;
mod keygen;
mod lists;
mod new_file;
mod readers;
mod revoke;
mod status_page;
mod subcommands;

pub use answering::run_task;
pub use asking::Task;
pub(crate) use asking::{read_flag, read_optional_text, read_task};
pub use fault::PersonFault;
pub(crate) use readers::exposure_of;
pub use readers::{admit_keys, warn_of_no_keys, warn_of_readers};
pub use status_page::status_path;
pub(crate) use subcommands::add_people;
