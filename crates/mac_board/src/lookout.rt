//! How a follower looks at its board.

ghost use Rattle.std.specs.Prelude.{◌≡◌, ◌∷◌, [], ◌++◌, IfOk, IfSome, slice_get, Some};
ghost use Rattle.std.specs.Arc.{arc_value};
ghost use Rattle.mac_board.specs.Board.{Ends, number_of, seen_by};
ghost use Rattle.mac_board.specs.Follows.{Begins};

use crate::issue::{Issue, Posted, See, Seen};
use left_right::reader::Reader;
use mac_queue::History;
use std::alloc::{AllocError, Global};
use std::sync::Arc;
use std::sync::atomic::AtomicU64;
use std::sync::atomic::Ordering::SeqCst;

/// What a follower sees its board by, and the numbers of the tables that its looks came to.
#[derive(Drop)]
pub struct Lookout {
    // It is lent out while it reads.
    reader: Option<Reader<Issue, Seen, Posted>>,
    // The number of the table that is put up last: of one that is up, or of the next.
    last: Arc<AtomicU64, Global>,
    came_to: History<u64>,
}

impl Lookout {
    /// One by this reader, which hasn't looked yet.
    pub fn new(reader: Reader<Issue, Seen, Posted>, last: Arc<AtomicU64, Global>) -> Lookout
        ensures { result.came_to ≡ [] }
    {
        Lookout {
            reader: Some(reader),
            last,
            came_to: History::new(),
        }
    }

    /// The table that is up, if it can be had.
    pub fn enter(&mut self) -> Option<Issue>
        ensures begins { Begins (seen_by self.old) (seen_by self.new) }
        ensures ends { IfSome result (Ends (seen_by self.new)) }
        ensures came_to { self.new.came_to ≡ self.old.came_to }
    {
        let Some(reader) = self.reader.take() else {
            return None;
        };
        match reader.enter_as::<See>() {
            Err(reader) => {
                self.reader = Some(reader);
                None
            }
            Ok(reading) => {
                let issue = reading.get();
                let number = issue.number;
                let table = Arc::try_clone(&issue.table);
                self.reader = Some(reading.leave());
                match table {
                    Ok(table) => Some(Issue { table, number }),
                    Err(AllocError) => None,
                }
            }
        }
    }

    /// Looks once, where the table of this number is had: the table that is up, unless this number
    /// is the last that was told. That is one load.
    pub fn look(&mut self, had: u64) -> Option<Issue>
        ensures begins { Begins (seen_by self.old) (seen_by self.new) }
        ensures ends { IfSome result (Ends (seen_by self.new)) }
        ensures came_to { self.new.came_to ≡ self.old.came_to ++ number_of result had ∷ [] }
    {
        let found = if self.last.load(SeqCst) == had {
            None
        } else {
            self.enter()
        };
        let number = match &found {
            Some(issue) => issue.number,
            None => had,
        };
        self.came_to.add(&number);
        found
    }
}
