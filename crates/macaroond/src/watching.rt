//! The files that a daemon follows: its key file, and its list of tokens that were taken back.
ghost use Rattle.macaroond.specs.Watching.{Watches, WatchesList};

use mac_board::Editor;
use mac_commands::{KeyPlace, ListPlace, ObservedFile, look_at, look_at_list};
use mac_host::Host;
use std::alloc::{Alloc, Global};
use std::fs::{File, Files};
use std::sync::Wait;
use std::time::Clock;

/// The files that a daemon follows.
#[derive(Clone, Copy)]
pub(crate) struct Followed<'a> {
    /// Its key file.
    pub(crate) keys: KeyPlace<'a>,
    /// Its list of tokens that were taken back, where it has one.
    pub(crate) list: Option<ListPlace<'a>>,
}

/// Looks at the key file and at the list once: a table that is to be taken is put up, and what came
/// of it is told. Where memory runs out, the next look finds the same.
pub(crate) fn look_once<R>(
    rt: &R,
    followed: Followed<'_>,
    editor: Editor<R>,
    host: &Host,
) -> Editor<R>
where
    R: Alloc<A = Global> + Files<File = File> + Clock + Wait + Drop,
{
    let keys = followed.keys;
    let mut file = ObservedFile::new(keys.path, keys.of_others);
    let editor = look_at_keys(rt, keys, &mut file, editor, host);
    let Some(list) = followed.list else {
        return editor;
    };
    let mut file = ObservedFile::new(list.path, list.of_others);
    look_at_revoked(rt, list, &mut file, editor, host)
}

/// The same of the key file alone.
fn look_at_keys<R>(
    rt: &R,
    keys: KeyPlace<'_>,
    file: &mut ObservedFile<'_>,
    editor: Editor<R>,
    host: &Host,
) -> Editor<R>
where
    R: Alloc<A = Global> + Files<File = File> + Clock + Wait + Drop,
    ensures { Watches file.old editor file.new result }
{
    let Ok(sight) = look_at(rt, file, &editor) else {
        return editor;
    };
    let (editor, told) = editor.look(rt.alloc(), sight);
    if let Ok(news) = told {
        host.tell_keys(rt, keys.path, news);
    }
    editor
}

/// The same of the list alone.
fn look_at_revoked<R>(
    rt: &R,
    list: ListPlace<'_>,
    file: &mut ObservedFile<'_>,
    editor: Editor<R>,
    host: &Host,
) -> Editor<R>
where
    R: Alloc<A = Global> + Files<File = File> + Clock + Wait + Drop,
    ensures { WatchesList list.entry.may_empty file.old editor file.new result }
{
    let Ok(sight) = look_at_list(rt, file, &editor) else {
        return editor;
    };
    let (editor, told) = editor.look_at_list(rt.alloc(), list.may_empty, &sight);
    if let Ok(news) = told {
        host.tell_revoked(rt, list.path, news);
    }
    editor
}
