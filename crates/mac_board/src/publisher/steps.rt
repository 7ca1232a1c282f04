//! What a publisher does.

ghost use Rattle.std.specs.Prelude.{◌≡◌, ◌∷◌, [], ◌++◌, ◌<◌, ◌^◌, drop, IfOk, MatchResult};
ghost use Rattle.std.specs.Arc.{arc_value};
ghost use Rattle.left_right.specs.Sides.{view};
ghost use Rattle.mac_board.specs.Publisher.{tables};

use super::{PublishFault, Publisher};
use crate::follower::Followers;
use crate::issue::{Issue, Posted, Put, Seen, Stay};
use crate::last_number::LastNumber;
use left_right::writer::Writer;
use mac_keys::KeyTable;
use std::alloc::{AllocError, Global};
use std::sync::{Arc, Wait};

impl<R: Wait + Drop> Publisher<R> {
    /// A board with its first table, and room for so many followers at a time.
    pub fn new(
        alloc: Global,
        rt: R,
        first: KeyTable,
        followers: usize,
    ) -> Result<Publisher<R>, AllocError>
        requires { (0 < followers) × (followers < 2 ^ 32) }
        ensures { IfOk result (λ publisher. tables publisher ≡ first ∷ []) }
    {
        let table = Arc::new(alloc, first)?;
        let other = Arc::try_clone(&table)?;
        let last = LastNumber::new(alloc)?;
        let shown = Issue { table, number: 0 };
        let spare = Issue {
            table: other,
            number: 0,
        };
        let writer = Writer::new(alloc, shown, spare, followers)?;
        Ok(Publisher { writer, last, rt })
    }

    /// Puts a table up: who looks from now on gets it. It waits for those that are looking.
    pub fn publish(self, alloc: Global, table: KeyTable) -> (Publisher<R>, Result<(), PublishFault>)
        ensures { MatchResult result.1 (λ _. tables result.0 ≡ tables self ++ table ∷ [])
            (λ _. tables result.0 ≡ tables self) }
    {
        let Publisher {
            mut writer,
            mut last,
            rt,
        } = self;
        let number = writer.published().number;
        if number == u64::MAX {
            return (Publisher { writer, last, rt }, Err(PublishFault::Last));
        }
        let Ok(table) = Arc::new(alloc, table) else {
            return (Publisher { writer, last, rt }, Err(PublishFault::NoMemory));
        };
        let issue = Issue {
            table,
            number: number + 1,
        };
        let Ok(()) = writer.append(issue) else {
            return (Publisher { writer, last, rt }, Err(PublishFault::NoMemory));
        };
        // Before the table itself: once one follower has it, each other looks for it.
        last.tell(number + 1);
        let (writer, shown) = writer.publish_as::<Put, R>(&rt);
        let Ok(()) = shown else {
            last.tell(number);
            return (Publisher { writer, last, rt }, Err(PublishFault::NoMemory));
        };
        let writer = shown_again(writer, &rt);
        (Publisher { writer, last, rt }, Ok(()))
    }

    /// What makes followers of the board.
    pub fn followers(&self) -> Result<Followers, AllocError> {
        let factory = self.writer.factory().another()?;
        let last = self.last.share()?;
        Ok(Followers::new(factory, last))
    }
}

/// Shows what is up once more, from the copy that still has the table before, which it lets go of.
fn shown_again<R: Wait>(
    writer: Writer<Issue, Issue, Seen, Posted>,
    rt: &R,
) -> Writer<Issue, Issue, Seen, Posted>
    requires { drop writer.behind writer.log.items ≡ [] }
    ensures view { view result.desk.place ≡ view writer.desk.place }
    ensures table { arc_value result.desk.shown.value.table
        ≡ arc_value writer.desk.shown.value.table }
    ensures number { result.desk.shown.value.number ≡ writer.desk.shown.value.number }
{
    let (writer, _) = writer.publish_as::<Stay, R>(rt);
    writer
}
