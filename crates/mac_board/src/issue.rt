//! What is up on the board: a table and its number.

ghost use Rattle.std.specs.Prelude.{◌≡◌, [], ◌+◌};
ghost use Rattle.std.specs.Arc.{arc_value};
ghost use Rattle.mac_board.specs.Board.{Kept, Sees, Puts, Stays};

use crossbeam_utils::rule::{Outcome, Protocol};
use left_right::Absorb;
use mac_keys::KeyTable;
use std::alloc::{AllocError, Global};
use std::collections::LinkedList;
use std::sync::Arc;

/// A table, with the number of tables that were up before it.
#[derive(Drop)]
pub struct Issue {
    pub table: Arc<KeyTable, Global>,
    pub number: u64,
}

/// What a handle of the board knows: a beginning of the list of all tables that were up. In a
/// clause it is a list; no value of it is made.
pub type Seen = LinkedList<KeyTable>;

/// The rule of the board: there is one list of tables, the last of which is up, and whoever has a
/// handle knows a beginning of it.
pub struct Posted;

impl Protocol<Issue, Seen> for Posted {
    ghost holds = { Kept };

    ghost first = { [] };
}

/// A reader's step.
pub struct See;

impl Outcome<Issue, Seen> for See {
    ghost then = { Sees };
}

/// The writer's step.
pub struct Put;

impl Outcome<Issue, Seen> for Put {
    ghost then = { Puts };
}

/// The writer's step that puts nothing up.
pub struct Stay;

impl Outcome<Issue, Seen> for Stay {
    ghost then = { Stays };
}

impl Absorb<Issue> for Issue {
    type State = (KeyTable, u64);

    ghost state = { λ issue. (arc_value issue.table, issue.number) };

    ghost applied = { λ _ issue. (arc_value issue.table, issue.number) };

    fn absorb_first(&mut self, operation: &Issue, _other: &Issue) -> Result<(), AllocError> {
        let table = Arc::try_clone(&operation.table)?;
        *self = Issue {
            table,
            number: operation.number,
        };
        Ok(())
    }

    fn absorb_second(&mut self, operation: Issue, _other: &Issue) -> Result<(), Issue> {
        *self = operation;
        Ok(())
    }
}
