//! Why a person gets no answer.
ghost use Rattle.std.specs.Prelude.{◌≡◌};
ghost use Rattle.mac_commands.specs.People.{key_file_status, person_status};
ghost use Rattle.mac_commands.specs.declared.people.fault.PersonFault.TheVariants as fault;

use crate::fault::PipeFault;
use crate::key_fault::ReadRefusal;
use crate::status::Status;
use mac_board::ListRefusal;
use mac_keys::{ChangeFault, LineFault, RevokedLineFault};
use mac_words::{FieldFault, NameFault, TextFault};
use std::alloc::AllocError;
use std::fs::Files;
use thiserror::Error;

/// Why a person gets no answer. The text is what the program prints behind `error: `.
#[derive(Clone, Copy, Debug, Error)]
pub enum PersonFault<'a> {
    /// No request carries the words.
    #[error("{0}")]
    Words(FieldFault),
    /// No key has the name.
    #[error("{0}")]
    Name(NameFault),
    /// The token is written badly.
    #[error("{0}")]
    Token(TextFault),
    /// The form of the new token has another name.
    #[error("the form of a token is v1-text, v2-text, v2-binary or v2-json")]
    Form,
    /// The moment is none.
    #[error("the moment is neither seconds since 1970 nor a time as 2026-01-31T12:00:00Z")]
    Moment,
    /// A line of the key file, counted from 1, and what is wrong with it.
    #[error("{path}: line {line}: {kind}")]
    KeyLine {
        path: &'a str,
        line: u64,
        kind: LineFault,
    },
    /// There is no key file. A daemon that runs tells of that in the same words.
    #[error("{path}: there is no key file; `macaroond keygen NAME --into {path}` makes one")]
    NoKeyFile {
        path: &'a str,
    },
    /// The system doesn't give the key file.
    #[error("{path}: the key file can't be read: {why}")]
    KeyText {
        path: &'a str,
        why: ReadRefusal,
    },
    /// The key file is longer than what is read.
    #[error("{path}: the key file is longer than a key file may be; 16777216 bytes are read")]
    LongKeyFile {
        path: &'a str,
    },
    /// A line of the key file that was to be checked, counted from 1, and what is wrong with it.
    #[error("{path}: line {line}: {kind}")]
    Checked {
        path: &'a str,
        line: u64,
        kind: LineFault,
    },
    /// The keys of the name don't change so.
    #[error("{path}: {why}")]
    Change {
        path: &'a str,
        why: ChangeFault,
    },
    /// The file that was to be made is there.
    #[error("{path}: the file is there already")]
    Exists {
        path: &'a str,
    },
    /// The file beside the key file is there, by which somebody changes it by hand.
    #[error("{path}.new: the file is there already")]
    Beside {
        path: &'a str,
    },
    /// What stands in the way of the new file was left by no run of this program.
    #[error("{path}.keygen: what is there is no file that keygen left; remove it")]
    Left {
        path: &'a str,
    },
    /// Another run has the new file.
    #[error("{path}: another run changes the file; try again")]
    Busy {
        path: &'a str,
    },
    /// The file is a link.
    #[error("{path}: the file is a link; give the path of the file that it leads to")]
    Link {
        path: &'a str,
    },
    /// The change may be lost where the power goes.
    #[error("{path}: the file was changed, but its folder can't be brought to the disk")]
    Unsynced {
        path: &'a str,
    },
    /// Somebody wrote the file while its change was made.
    #[error("{path}: the file was changed meanwhile")]
    Meanwhile {
        path: &'a str,
    },
    /// A file can't be written.
    #[error("{path}: the file can't be written, or not for its owner and group")]
    Unwritten {
        path: &'a str,
    },
    /// Two options name files.
    #[error("of `--into`, `--above`, `--below`, `--raise`, `--drop` and `--drop-first` one alone \
        may be given")]
    Options,
    /// Two options name lists.
    #[error("of `--into` and `--drop` one alone may be given")]
    RevokeOptions,
    /// There is no identifier and no token, or both.
    #[error("either `--identifier` or a token has to be given, and not both")]
    WhichToken,
    /// There is neither a key file to be checked nor a list.
    #[error("`--keys` or `--revoked` has to be given")]
    WhichFile,
    /// The list of tokens that were taken back gives none.
    #[error("{path}: {why}")]
    List {
        path: &'a str,
        why: ListRefusal,
    },
    /// The system doesn't give the list.
    #[error("{path}: the list can't be read: {why}")]
    ListText {
        path: &'a str,
        why: ReadRefusal,
    },
    /// A line of the list that was to be checked, counted from 1, and what is wrong with it.
    #[error("{path}: line {line}: {kind}")]
    CheckedList {
        path: &'a str,
        line: u64,
        kind: RevokedLineFault,
    },
    /// Two flags name pages.
    #[error("of `--prometheus` and `--connections` one alone may be given")]
    Pages,
    /// No daemon answers at the status socket beside a socket.
    #[error("{socket}.status: no daemon answers there; is one running, and are you its user?")]
    NoDaemon {
        socket: &'a str,
    },
    /// Standard input.
    #[error("standard input can't be read, or is longer than 16777216 bytes")]
    Input,
    /// Standard input has another number of lines than one.
    #[error("standard input has to be one line, the token")]
    Lines,
    /// The clock.
    #[error("the clock can't be read")]
    Clock,
    /// The system's random bytes.
    #[error("the system gives no random bytes")]
    Random,
    /// Memory ran out.
    #[error("memory ran out")]
    Memory,
}

impl<'a> PersonFault<'a> {
    /// Why the key file at a path gives no table, in words for people.
    pub(crate) fn of_key_file<R: Files>(rt: &R, path: &'a str, fault: PipeFault) -> PersonFault<'a>
        ensures { person_status result ≡ key_file_status fault }
    {
        match fault {
            PipeFault::Keys { line, kind } => PersonFault::KeyLine { path, line, kind },
            PipeFault::Device => match ReadRefusal::find(rt, path) {
                ReadRefusal::Missing => PersonFault::NoKeyFile { path },
                why => PersonFault::KeyText { path, why },
            },
            PipeFault::TooLong => PersonFault::LongKeyFile { path },
            PipeFault::Memory => PersonFault::Memory,
        }
    }

    /// Why the list at a path, which is refused so, gives none.
    pub(crate) fn of_list<R: Files>(rt: &R, path: &'a str, why: ListRefusal) -> PersonFault<'a> {
        match why {
            ListRefusal::Unreadable => match ReadRefusal::find(rt, path) {
                ReadRefusal::Missing => PersonFault::List {
                    path,
                    why: ListRefusal::Missing,
                },
                why => PersonFault::ListText { path, why },
            },
            why => PersonFault::List { path, why },
        }
    }

    /// How a run ends that has this fault.
    pub fn status(self) -> Status
        ensures { result ≡ person_status self.entry }
    {
        match self {
            PersonFault::Memory
            | PersonFault::Words(FieldFault::Memory)
            | PersonFault::Name(NameFault::Memory)
            | PersonFault::Token(TextFault::Memory) => Status::NoMemory,
            PersonFault::Words(_)
            | PersonFault::Name(_)
            | PersonFault::Token(_)
            | PersonFault::Form
            | PersonFault::Moment
            | PersonFault::Options
            | PersonFault::RevokeOptions
            | PersonFault::WhichToken
            | PersonFault::WhichFile
            | PersonFault::Pages => Status::BadLine,
            PersonFault::Checked { .. }
            | PersonFault::CheckedList { .. }
            | PersonFault::Change { .. }
            | PersonFault::Exists { .. }
            | PersonFault::Beside { .. }
            | PersonFault::Left { .. }
            | PersonFault::Busy { .. }
            | PersonFault::Link { .. }
            | PersonFault::Meanwhile { .. } => Status::Refused,
            _ => Status::DeviceFault,
        }
    }
}

impl<'a> From<AllocError> for PersonFault<'a> {
    ghost from_gives = { λ _ told. told ≡ fault.Memory };

    fn from(_refused: AllocError) -> PersonFault<'a> {
        PersonFault::Memory
    }
}

impl<'a> From<FieldFault> for PersonFault<'a> {
    ghost from_gives = { λ why told. told ≡ fault.Words why };

    fn from(why: FieldFault) -> PersonFault<'a> {
        PersonFault::Words(why)
    }
}

impl<'a> From<NameFault> for PersonFault<'a> {
    ghost from_gives = { λ why told. told ≡ fault.Name why };

    fn from(why: NameFault) -> PersonFault<'a> {
        PersonFault::Name(why)
    }
}

impl<'a> From<TextFault> for PersonFault<'a> {
    ghost from_gives = { λ why told. told ≡ fault.Token why };

    fn from(why: TextFault) -> PersonFault<'a> {
        PersonFault::Token(why)
    }
}
