//! When a key file that changes is read, taken and told of.

ghost use Rattle.std.specs.Prelude.{◌≡◌, ◌≢◌, ◌↔◌, IsTrue, IfOk, OnErr, Some, None};
ghost use Rattle.mac_board.specs.Listing.{IsListNews, SeesList};
ghost use Rattle.mac_board.specs.Watcher.{IsDueIn, IsNews, Sees, judged, worth};
ghost use Rattle.mac_keys.specs.KeyTable.{table_of};

use crate::access::Exposure;
use crate::listing::{ListFinding, ListUp, list_value};
use crate::sight::{FileState, ReadFault, Sight, is_same};
use mac_keys::{KeyFault, KeyTable, LineFault, wipe};
use std::alloc::{AllocError, Global};
use thiserror::Error;

/// Why a key file isn't taken.
#[derive(Clone, Copy, Debug, PartialEq, Eq, Error)]
pub enum KeyFileRefusal {
    /// There is none.
    #[error("there is no key file")]
    Missing,
    /// It can't be read.
    #[error("the key file can't be read")]
    Unreadable,
    /// It is longer than what is read.
    #[error("the key file is longer than a key file may be")]
    TooLong,
    /// Others than its reader may use it.
    #[error("{0}")]
    Exposed(Exposure),
    /// A line has a fault, and no earlier line has any.
    #[error("line {line}: {kind}")]
    Faulty {
        /// The line, counted from 1.
        line: u64,
        /// What is wrong with it.
        kind: LineFault,
    },
    /// It has no key, where the table that is up has some.
    #[error("the key file has no key")]
    Emptied,
}

/// What comes of a look at a key file.
#[derive(Drop)]
pub enum KeyFileFinding {
    /// There is nothing to be done.
    Nothing,
    /// This table is to be put up.
    Table(KeyTable),
    /// The file isn't taken, which is to be told.
    Refused(KeyFileRefusal),
}

/// What is known of a key file: how it was found last, and in which state it was dealt with. It
/// reads nothing itself, and is told what each look found.
#[derive(Clone, Copy)]
pub struct Watcher {
    last: FileState,
    settled: Option<FileState>,
}

impl Watcher {
    /// A watcher of a file whose table is up. It was found in these states before and after it was
    /// read: where these are two, it is read once more.
    pub fn new(before: FileState, after: FileState) -> Watcher
        ensures last { result.last ≡ after }
        ensures at_rest { before ≡ after → result.settled ≡ Some after }
        ensures changed { before ≢ after → result.settled ≡ None }
    {
        Watcher {
            last: after,
            settled: if is_same(before, after) {
                Some(after)
            } else {
                None
            },
        }
    }

    /// Whether a file that is found in this state is to be read: it was found in it at the look
    /// before, and was not dealt with in it.
    pub fn wants(&self, found: FileState) -> bool
        ensures { IsTrue result ↔ IsDueIn self.now found found }
    {
        self.is_due(found, found)
    }

    /// Takes in what a look found, where a table of so many names is up. Where memory runs out,
    /// nothing is taken in.
    pub fn look(
        &mut self,
        alloc: Global,
        names: usize,
        sight: Sight,
    ) -> Result<KeyFileFinding, AllocError>
        ensures ok { IfOk result (λ finding. Sees self.old names sight finding self.new) }
        ensures err { OnErr result (self.new ≡ self.old) }
    {
        let (before, after) = (sight.before(), sight.after());
        let finding = if self.is_due(before, after) {
            value(alloc, names, sight)?
        } else {
            KeyFileFinding::Nothing
        };
        self.last = after;
        if is_news(&finding) {
            self.settled = Some(before);
        }
        Ok(finding)
    }

    /// The same of a list of tokens that were taken back, where this one is up.
    pub fn look_at_list(
        &mut self,
        alloc: Global,
        up: ListUp,
        sight: &Sight,
    ) -> Result<ListFinding, AllocError>
        ensures ok { IfOk result (λ finding. SeesList self.old up sight.now finding self.new) }
        ensures err { OnErr result (self.new ≡ self.old) }
    {
        let (before, after) = (sight.before(), sight.after());
        let finding = if self.is_due(before, after) {
            list_value(alloc, up, sight)?
        } else {
            ListFinding::Nothing
        };
        self.last = after;
        if is_list_news(&finding) {
            self.settled = Some(before);
        }
        Ok(finding)
    }

    /// Whether a file that is found in these states before and after a look has come to rest, and
    /// was not dealt with.
    fn is_due(&self, before: FileState, after: FileState) -> bool
        ensures { IsTrue result ↔ IsDueIn self.now before after }
    {
        is_same(self.last, before) && is_same(after, before) && !self.is_settled(before)
    }

    /// Whether this is the state in which the file was dealt with last.
    fn is_settled(&self, found: FileState) -> bool
        ensures { IsTrue result ↔ (self.now.settled ≡ Some found) }
    {
        match self.settled {
            Some(state) => is_same(state, found),
            None => false,
        }
    }
}

/// Whether there is something to be done.
fn is_news(finding: &KeyFileFinding) -> bool
    ensures { IsTrue result ↔ IsNews finding.now }
{
    match finding {
        KeyFileFinding::Nothing => false,
        KeyFileFinding::Table(_) | KeyFileFinding::Refused(_) => true,
    }
}

/// The same of a list.
fn is_list_news(finding: &ListFinding) -> bool
    ensures { IsTrue result ↔ IsListNews finding.now }
{
    match finding {
        ListFinding::Nothing => false,
        ListFinding::List(_) | ListFinding::Refused(_) => true,
    }
}

/// What comes of a look that has to be dealt with.
fn value(alloc: Global, names: usize, sight: Sight) -> Result<KeyFileFinding, AllocError>
    ensures { IfOk result (λ finding. finding ≡ worth names sight) }
{
    match sight {
        Sight::Glance(FileState::Missing) => Ok(KeyFileFinding::Refused(KeyFileRefusal::Missing)),
        Sight::Glance(FileState::Unknown) => Ok(KeyFileFinding::Refused(
            KeyFileRefusal::Unreadable,
        )),
        Sight::Glance(FileState::Marked(_)) => Ok(KeyFileFinding::Nothing),
        Sight::Read {
            text: Err(ReadFault::Unreadable),
            ..
        } => Ok(KeyFileFinding::Refused(KeyFileRefusal::Unreadable)),
        Sight::Read {
            text: Err(ReadFault::TooLong),
            ..
        } => Ok(KeyFileFinding::Refused(KeyFileRefusal::TooLong)),
        Sight::Read {
            text: Err(ReadFault::Exposed(why)),
            ..
        } => Ok(KeyFileFinding::Refused(KeyFileRefusal::Exposed(why))),
        Sight::Read {
            text: Ok(mut text),
            ..
        } => {
            let found = judge(alloc, names, text.as_slice());
            wipe(text.as_mut_slice());
            found
        }
    }
}

/// The table of a text, or why it isn't taken, where a table of so many names is up.
fn judge(alloc: Global, names: usize, text: &[u8]) -> Result<KeyFileFinding, AllocError>
    ensures { IfOk result (λ finding. finding ≡ judged names (table_of text.now)) }
{
    match KeyTable::read(alloc, text) {
        Ok(table) if table.len() == 0 && names > 0 => Ok(KeyFileFinding::Refused(
            KeyFileRefusal::Emptied,
        )),
        Ok(table) => Ok(KeyFileFinding::Table(table)),
        Err(KeyFault::Line { line, kind }) => {
            Ok(KeyFileFinding::Refused(KeyFileRefusal::Faulty { line, kind }))
        }
        Err(KeyFault::Memory) => Err(AllocError),
    }
}
