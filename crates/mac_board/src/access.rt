//! Who may use a key file.
ghost use Rattle.std.specs.Prelude.{◌≡◌, MatchOption};
ghost use Rattle.mac_board.specs.Access.{IsExposed, IsPrivate, reader_of};

use thiserror::Error;

/// The number of the user root.
const ROOT: u32 = 0;

/// What each digit of a mode may be, from 0 to 7.
const DIGIT: u32 = 8;

/// The digit of who may read, and do nothing else.
const READS: u32 = 4;

/// The mode of a file that its owner alone may read and write.
const OWNER_ALONE: u32 = 0o600;

/// The mode of a file that its group may read besides.
const GROUP_READS: u32 = 0o640;

/// Whose a file is, and what each may do with it.
#[derive(Clone, Copy, Debug, PartialEq, Eq)]
pub struct Access {
    /// The number of its owner.
    pub owner: u32,
    /// The number of its group.
    pub group: u32,
    /// Its mode, whose last three digits of base eight are those that `chmod` takes.
    pub mode: u32,
}

/// Who reads a file.
#[derive(Clone, Copy, Debug, PartialEq, Eq)]
pub struct Reader {
    /// The number of the user.
    pub user: u32,
    /// The number of the group by which the file may be read.
    pub group: u32,
}

/// Why a key file isn't for its reader alone.
#[derive(Clone, Copy, Debug, PartialEq, Eq, Error)]
pub enum Exposure {
    /// It belongs to another user.
    #[error("the file belongs to user {owner}; `chown {user}` mends that")]
    Owner {
        /// The number of its owner.
        owner: u32,
        /// The number of its reader.
        user: u32,
    },
    /// Others than its owner may use it.
    #[error("the file has mode {mode:o}, by which others than its owner may use it; \
        `chmod {mended:o}` mends that")]
    Mode {
        /// Its mode.
        mode: u32,
        /// One by which it is for its reader alone.
        mended: u32,
    },
}

/// Who reads a file with a process of this user and group that could open it. One that is neither
/// root's nor the owner's could do so by the file's group alone, which is one of its own then.
pub fn reader_of(access: Access, user: u32, group: u32) -> Reader
    ensures { result ≡ reader_of access user group }
{
    if user == ROOT || user == access.owner {
        Reader { user, group }
    } else {
        Reader {
            user,
            group: access.group,
        }
    }
}

/// Why a key file isn't for its reader alone: it is for those who may mint, as each who may read it
/// can.
pub fn find_exposure(access: Access, reader: Reader) -> Option<Exposure>
    ensures { MatchOption result (IsPrivate access reader) (IsExposed access reader) }
{
    if access.owner != ROOT && access.owner != reader.user {
        return Some(Exposure::Owner {
            owner: access.owner,
            user: reader.user,
        });
    }
    let (group, others) = (access.mode / DIGIT % DIGIT, access.mode % DIGIT);
    let is_own_group = access.group == reader.group;
    if others == 0 && (group == 0 || group == READS && is_own_group) {
        return None;
    }
    Some(Exposure::Mode {
        mode: access.mode,
        mended: if access.owner != reader.user && is_own_group {
            GROUP_READS
        } else {
            OWNER_ALONE
        },
    })
}
