//! A list that only proofs read.

ghost use Rattle.std.specs.Prelude.{◌≡◌, [], ◌∷◌, ◌++◌};

use std::marker::Model;
use std::mem;
use std::snapshot::Snapshot;

/// What was added, the last on top. A value has one byte and lives for a moment.
#[derive(Drop)]
pub enum HistoryPages<T> {
    Blank,
    After(Snapshot<HistoryPages<T>>, Snapshot<T>),
}

/// What happened so far, one entry behind another. It takes no bytes and no time.
#[derive(Drop)]
pub struct History<T> {
    pages: Snapshot<HistoryPages<T>>,
}

impl<T> Model for History<T> {
    ghost use Rattle.std.specs.Prelude.{List};
    ghost use Rattle.std.specs.Coded.{coded_list};
    ghost use Rattle.mac_queue.specs.History.{entries};

    ghost Value = { List T };

    ghost coded = { coded_list T.code };

    ghost view = { λ h. entries h.pages.value };
}

impl<T> History<T> {
    /// Nothing has happened.
    pub fn new() -> History<T>
        ensures { result ≡ [] }
    {
        History {
            pages: Snapshot::of(&HistoryPages::Blank),
        }
    }

    /// One entry more.
    pub fn add(&mut self, entry: &T)
        ensures { self.new ≡ self.old ++ entry.now ∷ [] }
    {
        let before = mem::replace(&mut self.pages, Snapshot::of(&HistoryPages::Blank));
        let after = HistoryPages::After(before, Snapshot::of(entry));
        self.pages = Snapshot::of(&after);
    }
}
