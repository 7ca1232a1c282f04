//! Who puts tables up.

ghost use Rattle.std.specs.Prelude.{◌≡◌, ◌+◌, length};
ghost use Rattle.std.specs.Arc.{arc_value};
ghost use Rattle.left_right.specs.Sides.{view};
ghost use Rattle.mac_board.specs.Board.{history};

mod steps;

use crate::issue::{Issue, Posted, Seen};
use crate::last_number::LastNumber;
use left_right::writer::Writer;
use std::sync::Wait;
use thiserror::Error;

/// Why a table was not put up.
#[derive(Clone, Copy, Debug, PartialEq, Eq, Error)]
pub enum PublishFault {
    /// Memory was refused.
    #[error("there is no memory for one more key table")]
    NoMemory,
    /// There is no further number.
    #[error("there is no number for one more key table")]
    Last,
}

/// Puts tables up on a board, one after the other. Its drop waits for those that are looking, who
/// keep the table that they have.
pub struct Publisher<R: Wait + Drop> {
    writer: Writer<Issue, Issue, Seen, Posted>,
    last: LastNumber,
    rt: R,
    ghost counted: { length
        (history (view writer.desk.place) (arc_value writer.desk.shown.value.table))
        ≡ writer.desk.shown.value.number + 1 },
    ghost told: { last.told.value ≡ writer.desk.shown.value.number },
}

impl<R: Wait + Drop> Drop for Publisher<R> {
    fn drop(self) {
        let Self {
            writer,
            last: _,
            rt,
        } = self;
        drop(writer.take(&rt));
    }
}
