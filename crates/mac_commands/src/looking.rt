//! Looks at the files that a daemon follows.
ghost use Rattle.std.specs.Prelude.{IfOk};
ghost use Rattle.mac_commands.specs.Observed.{GoesOn, IsAsked, IsRead, IsSeen};

use crate::observed_file::{Held, ObservedFile};
use mac_board::{Editor, FileState, Sight};
use std::alloc::{Alloc, AllocError, Global};
use std::fs::{File, Files};
use std::sync::Wait;

/// Looks at a key file, and reads it where its editor wants that.
pub fn look_at<R, K>(
    rt: &R,
    file: &mut ObservedFile<'_>,
    editor: &Editor<K>,
) -> Result<Sight, AllocError>
where
    R: Files<File = File> + Alloc<A = Global>,
    K: Wait + Drop,
    ensures asked { IsAsked file.old file.new }
    ensures seen { IfOk result (λ sight.
        IsSeen editor.now.watchers.keys file.old sight file.new) }
{
    let found = file.find(rt);
    match found {
        FileState::Marked(_) if editor.wants(found) => read_sight(rt, file, found, Held::Keys),
        _ => Ok(Sight::Glance(found)),
    }
}

/// The same of a list of tokens that were taken back.
pub fn look_at_list<R, K>(
    rt: &R,
    file: &mut ObservedFile<'_>,
    editor: &Editor<K>,
) -> Result<Sight, AllocError>
where
    R: Files<File = File> + Alloc<A = Global>,
    K: Wait + Drop,
    ensures asked { IsAsked file.old file.new }
    ensures seen { IfOk result (λ sight.
        IsSeen editor.now.watchers.list file.old sight file.new) }
{
    let found = file.find(rt);
    match found {
        FileState::Marked(_) if editor.wants_list(found) => read_sight(rt, file, found, Held::List),
        _ => Ok(Sight::Glance(found)),
    }
}

/// Reads a file that was found in a state, between two looks at the very file that is read.
pub(crate) fn read_sight<R>(
    rt: &R,
    file: &mut ObservedFile<'_>,
    found: FileState,
    held: Held,
) -> Result<Sight, AllocError>
where
    R: Files<File = File> + Alloc<A = Global>,
    ensures goes_on { GoesOn file.old.told file.new.told }
    ensures read { IfOk result (λ sight. IsRead found file.old.told sight file.new.told) }
{
    let Some(opened) = file.open(rt) else {
        let text = file.text(rt.alloc(), None, held)?;
        let after = file.find(rt);
        return Ok(Sight::Read {
            before: found,
            text,
            after,
        });
    };
    let before = file.state(&opened);
    let text = file.text(rt.alloc(), Some(&opened), held)?;
    let after = file.state(&opened);
    Ok(Sight::Read {
        before,
        text,
        after,
    })
}
