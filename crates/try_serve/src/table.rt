//! A table of many runs, in which neighbours that came to the same stand together.

use crate::report::ending_name;
use mac_wire::Ending;
use std::alloc::{AllocError, Global};

/// What came of one run, as far as it is the same in whatever order the threads went.
#[derive(Clone, Copy, PartialEq, Eq)]
pub(crate) struct Row {
    /// The number of the fault, 0 where there is none.
    pub fault: u8,
    pub ending: Ending,
    pub sent: u64,
    pub written: u64,
    /// How often the source failed.
    pub reads_failed: u64,
    /// How often the sink failed.
    pub writes_failed: u64,
}

/// Rows by the numbers of their runs.
#[derive(Drop)]
pub(crate) struct Table {
    text: String,
    group: Option<Group>,
    /// How much more is written with each further run of a group.
    step: u64,
}

#[derive(Clone, Copy)]
struct Group {
    first: u64,
    last: u64,
    row: Row,
}

impl Group {
    /// The row that the run of this number has where it belongs to the group.
    fn row_at(&self, number: u64, step: u64) -> Row {
        let more = number.wrapping_sub(self.first).wrapping_mul(step);
        Row {
            written: self.row.written.wrapping_add(more),
            ..self.row
        }
    }
}

impl Table {
    /// No rows yet.
    pub(crate) fn new(alloc: Global, step: u64) -> Table {
        Table {
            text: String::new(alloc),
            group: None,
            step,
        }
    }

    /// Appends the row of the run of this number.
    pub(crate) fn push(&mut self, alloc: Global, number: u64, row: Row) -> Result<(), AllocError> {
        let group = match self.group {
            Some(group) => group,
            None => return Ok(self.begin(number, row)),
        };
        if group.row_at(number, self.step) == row {
            self.group = Some(Group {
                last: number,
                ..group
            });
            return Ok(());
        }
        self.close(alloc)?;
        Ok(self.begin(number, row))
    }

    /// Begins a group with the row of this number.
    fn begin(&mut self, number: u64, row: Row) {
        self.group = Some(Group {
            first: number,
            last: number,
            row,
        });
    }

    /// Writes the last group.
    fn close(&mut self, alloc: Global) -> Result<(), AllocError> {
        let Some(group) = self.group else {
            return Ok(());
        };
        if !self.text.is_empty() {
            self.text.push_str("; ")?;
        }
        let told = group_text(alloc, group, self.step)?;
        self.text.push_str(told.as_str())
    }

    /// The whole table.
    pub(crate) fn finish(mut self, alloc: Global) -> Result<String, AllocError> {
        self.close(alloc)?;
        let Table { text, .. } = self;
        Ok(text)
    }
}

/// The runs of a group, and what each came to.
fn group_text(alloc: Global, group: Group, step: u64) -> Result<String, AllocError> {
    let Group { first, last, row } = group;
    let ending = ending_name(row.ending);
    let end = group.row_at(last, step).written;
    let runs = range_text(alloc, first, last)?;
    let written = range_text(alloc, row.written, end)?;
    format!(in alloc;
        "{}: fault {} {ending} sent {} written {} failed {} {}",
        runs.as_str(),
        row.fault,
        row.sent,
        written.as_str(),
        row.reads_failed,
        row.writes_failed
    )
}

/// The numbers from one to another.
fn range_text(alloc: Global, first: u64, last: u64) -> Result<String, AllocError> {
    if first == last {
        format!(in alloc; "{first}")
    } else {
        format!(in alloc; "{first}-{last}")
    }
}
