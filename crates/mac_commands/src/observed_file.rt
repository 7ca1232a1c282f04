//! What the system tells of a file that is followed.
ghost use Rattle.std.specs.Prelude.{◌≡◌, ◌++◌, ◌∷◌, [], IfNone, IfOk, MatchResult, Ok, Err};
ghost use Rattle.mac_board.specs.declared.sight.ReadFault.TheVariants.{Unreadable};
ghost use Rattle.mac_commands.specs.declared.observed_file.FileAnswer.TheVariants.{Found, State, Text};

use crate::key_file::access_of;
use crate::key_store::read_text;
use crate::list_store::read_list_text;
use crate::people::exposure_of;
use mac_board::{Exposure, FileState, Mark, ReadFault, Stamp};
use mac_queue::History;
use std::alloc::{AllocError, Global};
use std::fs::{File, Files, Metadata};
use std::io::ErrorKind;
use std::os::unix::fs::MetadataExt;
use std::{fs, io};

/// What a file holds.
#[derive(Clone, Copy)]
pub(crate) enum Held {
    /// Keys.
    Keys,
    /// A list of tokens that were taken back.
    List,
}

/// What the system tells of a file when it is asked once.
#[derive(Drop)]
pub enum FileAnswer {
    /// How the file at its path is found.
    Found(FileState),
    /// The state of the file that was opened.
    State(FileState),
    /// Its text, or why there is none.
    Text(Result<Vec<u8>, ReadFault>),
}

/// A file that is followed. The system is asked for its state and its text here alone.
#[derive(Drop)]
pub struct ObservedFile<'a> {
    path: &'a str,
    // Whether others may use it, and why they may, as the system told with the last state.
    of_others: bool,
    exposure: Option<Exposure>,
    // All that the system told, in order.
    told: History<FileAnswer>,
}

impl<'a> ObservedFile<'a> {
    /// The file at a path, which others may use or not. The system hasn't told anything of it yet.
    pub fn new(path: &'a str, of_others: bool) -> ObservedFile<'a>
        ensures { result.told ≡ [] }
    {
        ObservedFile {
            path,
            of_others,
            exposure: None,
            told: History::new(),
        }
    }

    /// The file opened, if it can be.
    pub(crate) fn open<R: Files<File = File>>(&self, rt: &R) -> Option<File> {
        File::open(rt, self.path).ok()
    }

    /// How the file at the path is found.
    pub(crate) fn find<R: Files>(&mut self, rt: &R) -> FileState
        ensures { self.new.told ≡ self.old.told ++ Found result ∷ [] }
    {
        let state = state_of(fs::metadata(rt, self.path));
        self.told.add(&FileAnswer::Found(state));
        state
    }

    /// The state of the file that was opened.
    pub(crate) fn state(&mut self, opened: &File) -> FileState
        ensures { self.new.told ≡ self.old.told ++ State result ∷ [] }
    {
        let found = opened.metadata();
        self.exposure = exposure_told(&found);
        let state = state_of(found);
        self.told.add(&FileAnswer::State(state));
        state
    }

    /// The text of the file that was opened, if one was.
    pub(crate) fn text(
        &mut self,
        alloc: Global,
        opened: Option<&File>,
        held: Held,
    ) -> Result<Result<Vec<u8>, ReadFault>, AllocError>
        ensures told { MatchResult result
            (λ text. self.new.told ≡ self.old.told ++ Text text ∷ [])
            (λ _. self.new.told ≡ self.old.told) }
        ensures unopened { IfNone opened.entry (IfOk result (λ text. text ≡ Err Unreadable)) }
    {
        let answer = FileAnswer::Text(self.read(alloc, opened, held)?);
        self.told.add(&answer);
        let FileAnswer::Text(text) = answer else {
            unreachable!("it is a text")
        };
        Ok(text)
    }

    /// The same, of which nothing is noted.
    fn read(
        &self,
        alloc: Global,
        opened: Option<&File>,
        held: Held,
    ) -> Result<Result<Vec<u8>, ReadFault>, AllocError>
        ensures { IfNone opened.entry (IfOk result (λ text. text ≡ Err Unreadable)) }
    {
        let Some(file) = opened else {
            return Ok(Err(ReadFault::Unreadable));
        };
        match (self.exposure, held) {
            (Some(why), _) if !self.of_others => Ok(Err(ReadFault::Exposed(why))),
            (_, Held::Keys) => read_text(alloc, file),
            (_, Held::List) => read_list_text(alloc, file),
        }
    }
}

/// Why others may use the file of which the system tells this.
fn exposure_told(found: &io::Result<Metadata>) -> Option<Exposure> {
    match found {
        Ok(found) => exposure_of(access_of(found)),
        Err(_) => None,
    }
}

/// The state of a file of which the system tells this.
fn state_of(found: io::Result<Metadata>) -> FileState {
    match found {
        Ok(found) if found.is_file() => FileState::Marked(mark_of(&found)),
        Ok(_) => FileState::Unknown,
        Err(refused) if refused.kind() == ErrorKind::NotFound => FileState::Missing,
        Err(_) => FileState::Unknown,
    }
}

/// The mark of a file.
fn mark_of(found: &Metadata) -> Mark {
    Mark {
        device: found.dev(),
        inode: found.ino(),
        size: found.size(),
        modified: Stamp {
            seconds: found.mtime(),
            nanoseconds: found.mtime_nsec(),
        },
        changed: Stamp {
            seconds: found.ctime(),
            nanoseconds: found.ctime_nsec(),
        },
    }
}
