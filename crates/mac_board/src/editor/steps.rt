//! What an editor does.

ghost use Rattle.std.specs.FinMap.{len};
ghost use Rattle.std.specs.Prelude.{◌≡◌, ◌≢◌, ◌↔◌, ◌∷◌, [], ◌++◌, ◌<◌, ◌^◌, IsTrue, IfOk, MatchResult, Some, None};
ghost use Rattle.mac_board.specs.Editor.{IsKept, IsToldOf, Keeps, KeepsList, PutsUp, tables_of};
ghost use Rattle.mac_board.specs.Watcher.{IsDueIn};
ghost use Rattle.mac_board.specs.declared.editor.News.TheVariants.{Taken};
ghost use Rattle.mac_board.specs.declared.listing.ListFinding.TheVariants as found;

use super::{Editor, ListNews, News, Watchers};
use crate::follower::Followers;
use crate::listing::{ListFinding, ListUp};
use crate::publisher::{PublishFault, Publisher};
use crate::sight::{FileState, Sight};
use crate::watcher::{KeyFileFinding, Watcher};
use mac_keys::{KeyMap, KeyTable, RevokedList};
use std::alloc::{AllocError, Global};
use std::sync::Wait;

impl<R: Wait + Drop> Editor<R> {
    /// A board with the first table of a file, and room for so many followers at a time. The file
    /// was found in these states before and after it was read: where these are two, it is read once
    /// more.
    pub fn new(
        alloc: Global,
        rt: R,
        first: KeyTable,
        followers: usize,
        before: FileState,
        after: FileState,
    ) -> Result<Editor<R>, AllocError>
        requires { (0 < followers) × (followers < 2 ^ 32) }
        ensures tables { IfOk result (λ editor. tables_of editor ≡ first ∷ []) }
        ensures last { IfOk result (λ editor. editor.watchers.keys.last ≡ after) }
        ensures at_rest { IfOk result (λ editor. before ≡ after
            → editor.watchers.keys.settled ≡ Some after) }
        ensures changed { IfOk result (λ editor. before ≢ after
            → editor.watchers.keys.settled ≡ None) }
    {
        let keys = first.keys.copy()?;
        let revoked = first.revoked.share()?;
        let publisher = Publisher::new(alloc, rt, first, followers)?;
        let watchers = Watchers {
            keys: Watcher::new(before, after),
            list: Watcher::new(FileState::Missing, FileState::Missing),
        };
        Ok(Editor {
            publisher,
            watchers,
            keys,
            revoked,
        })
    }

    /// The same board, of whose list the file was found in these states before and after it was
    /// read.
    pub fn with_list_found(self, before: FileState, after: FileState) -> Editor<R>
        ensures tables { tables_of result ≡ tables_of self }
        ensures keys { result.watchers.keys ≡ self.watchers.keys }
        ensures last { result.watchers.list.last ≡ after }
    {
        let Editor {
            publisher,
            watchers,
            keys,
            revoked,
        } = self;
        let watchers = Watchers {
            keys: watchers.keys,
            list: Watcher::new(before, after),
        };
        Editor {
            publisher,
            watchers,
            keys,
            revoked,
        }
    }

    /// Whether a file that is found in this state is to be read.
    pub fn wants(&self, found: FileState) -> bool
        ensures { IsTrue result ↔ IsDueIn self.now.watchers.keys found found }
    {
        self.watchers.keys.wants(found)
    }

    /// Whether a list that is found in this state is to be read.
    pub fn wants_list(&self, found: FileState) -> bool
        ensures { IsTrue result ↔ IsDueIn self.now.watchers.list found found }
    {
        self.watchers.list.wants(found)
    }

    /// Takes in what a look at the file found: a table that is to be taken is put up, with the list
    /// that is up. Where that fails, nothing is taken in, and the next look finds the same.
    pub fn look(self, alloc: Global, sight: Sight) -> (Editor<R>, Result<News, PublishFault>)
        ensures { MatchResult result.1 (Keeps self sight result.0) (λ _. IsKept self result.0) }
    {
        let Editor {
            publisher,
            watchers: was,
            keys,
            revoked,
        } = self;
        let mut watchers = was;
        let told = match watchers.keys.look(alloc, keys.len(), sight) {
            Ok(KeyFileFinding::Table(table)) => {
                let before = Editor {
                    publisher,
                    watchers: was,
                    keys,
                    revoked,
                };
                return before.take_keys(alloc, watchers, table.keys);
            }
            Ok(KeyFileFinding::Nothing) => Ok(News::Nothing),
            Ok(KeyFileFinding::Refused(why)) => Ok(News::Refused(why)),
            Err(AllocError) => Err(PublishFault::NoMemory),
        };
        let editor = Editor {
            publisher,
            watchers,
            keys,
            revoked,
        };
        (editor, told)
    }

    /// Puts these names up, with the list that is up.
    fn take_keys(
        self,
        alloc: Global,
        watchers: Watchers,
        keys: KeyMap,
    ) -> (Editor<R>, Result<News, PublishFault>)
        ensures { MatchResult result.1
            (λ news. PutsUp self watchers keys self.revoked result.0 × (news ≡ Taken (len keys)))
            (λ _. IsKept self result.0) }
    {
        let Ok(revoked) = self.revoked.share() else {
            return (self, Err(PublishFault::NoMemory));
        };
        let count = keys.len();
        let (editor, shown) = self.put_up(alloc, watchers, keys, revoked);
        match shown {
            Ok(()) => (editor, Ok(News::Taken(count))),
            Err(fault) => (editor, Err(fault)),
        }
    }

    /// Takes in what a look at the list found: one that is to be taken is put up, with the names
    /// that are up. Where that fails, nothing is taken in, and the next look finds the same.
    pub fn look_at_list(
        self,
        alloc: Global,
        may_empty: bool,
        sight: &Sight,
    ) -> (Editor<R>, Result<ListNews, PublishFault>)
        ensures { MatchResult result.1 (KeepsList self may_empty sight.now result.0)
            (λ _. IsKept self result.0) }
    {
        let up = ListUp {
            lines: self.revoked.lines(),
            may_empty,
        };
        let mut watchers = self.watchers;
        match watchers.list.look_at_list(alloc, up, sight) {
            Ok(ListFinding::List(list)) => self.take_list(alloc, watchers, list),
            Ok(ListFinding::Nothing) => (self.with_watchers(watchers), Ok(ListNews::Nothing)),
            Ok(ListFinding::Refused(why)) => {
                (self.with_watchers(watchers), Ok(ListNews::Refused(why)))
            }
            Err(AllocError) => (self, Err(PublishFault::NoMemory)),
        }
    }

    /// Puts this list up, with the names that are up.
    fn take_list(
        self,
        alloc: Global,
        watchers: Watchers,
        list: RevokedList,
    ) -> (Editor<R>, Result<ListNews, PublishFault>)
        ensures { MatchResult result.1
            (λ news. PutsUp self watchers self.keys list result.0 × IsToldOf (found.List list) news)
            (λ _. IsKept self result.0) }
    {
        let Ok(keys) = self.keys.copy() else {
            return (self, Err(PublishFault::NoMemory));
        };
        let lines = list.lines();
        let (editor, shown) = self.put_up(alloc, watchers, keys, list);
        match shown {
            Ok(()) => (editor, Ok(ListNews::Taken(lines))),
            Err(fault) => (editor, Err(fault)),
        }
    }

    /// The same board, and this is known of its files.
    fn with_watchers(self, watchers: Watchers) -> Editor<R>
        ensures tables { tables_of result ≡ tables_of self }
        ensures watchers { result.watchers ≡ watchers }
        ensures keys { result.keys ≡ self.keys }
        ensures revoked { result.revoked ≡ self.revoked }
    {
        let Editor {
            publisher,
            watchers: _,
            keys,
            revoked,
        } = self;
        Editor {
            publisher,
            watchers,
            keys,
            revoked,
        }
    }

    /// Puts a table of these names and this list up. Where that fails, all stays as it was.
    fn put_up(
        self,
        alloc: Global,
        watchers: Watchers,
        keys: KeyMap,
        revoked: RevokedList,
    ) -> (Editor<R>, Result<(), PublishFault>)
        ensures { MatchResult result.1 (λ _. PutsUp self watchers keys revoked result.0)
            (λ _. IsKept self result.0) }
    {
        let (Ok(names), Ok(list)) = (keys.copy(), revoked.share()) else {
            return (self, Err(PublishFault::NoMemory));
        };
        let Editor {
            publisher,
            watchers: was,
            keys: had,
            revoked: held,
        } = self;
        let table = KeyTable {
            keys: names,
            revoked: list,
        };
        let (publisher, shown) = publisher.publish(alloc, table);
        match shown {
            Ok(()) => {
                let editor = Editor {
                    publisher,
                    watchers,
                    keys,
                    revoked,
                };
                (editor, Ok(()))
            }
            Err(fault) => {
                let editor = Editor {
                    publisher,
                    watchers: was,
                    keys: had,
                    revoked: held,
                };
                (editor, Err(fault))
            }
        }
    }

    /// What makes followers of the board.
    pub fn followers(&self) -> Result<Followers, AllocError> {
        self.publisher.followers()
    }
}
