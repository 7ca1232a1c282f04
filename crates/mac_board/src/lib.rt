//! The board of key tables: one thread puts a table up, and others take the one that is up, with no
//! lock, while they go on answering.
//!
//! A [`Publisher`] puts tables up. A [`Follower`], which [`Followers`] makes, has the table that
//! was up when it looked last. Who answers requests asks for [`Tables`], which a follower is, and
//! so is one table that stays, as [`FixedTables`]. [`Moments`] tell the seconds, and
//! [`TimedTables`] join both to an [`Outlook`], each look of which comes to a table and a moment.
//!
//! An [`Editor`] puts up the tables of a key file that changes. Its [`Watcher`] says when the file
//! is read, when it is taken, and when it is told why not; the looks at the file are its caller's.
//! [`find_exposure`] says of a file that others may use why it isn't taken.
#![tactic(auto)]

mod access;
mod editor;
mod follower;
mod issue;
mod last_number;
pub mod laws;
mod listing;
mod lookout;
mod moments;
mod outlook;
mod publisher;
mod sight;
mod tables;
mod watcher;

pub use access::{Access, Exposure, Reader, find_exposure, reader_of};
pub use editor::{Editor, ListNews, News, Watchers};
pub use follower::{Follower, Followers};
pub use listing::{ListFinding, ListRefusal, ListUp, judge_list};
pub use moments::Moments;
pub use outlook::{Current, Outlook, TimedTables};
pub use publisher::{PublishFault, Publisher};
pub use sight::{FileState, Mark, ReadFault, Sight, Stamp};
pub use tables::{FixedTables, Tables};
pub use watcher::{KeyFileFinding, KeyFileRefusal, Watcher};
