//! What the sockets of `listen` allow.

ghost use Rattle.std.specs.Prelude.{◌≡◌, IfOk, true};
ghost use Rattle.std.specs.List.{slice_split};
ghost use Rattle.macaroond.specs.Rights.{AreNone, IsRights, IsSideSocket, is_comma};

use mac_commands::ListenOptions;
use mac_daemon::SideSocket;
use mac_decide::{Names, Rights};
use mac_wire::Bytes;
use std::alloc::{AllocError, Global};

/// What is allowed at the socket of `listen`, and the second socket where there is one, at which
/// nothing is minted.
pub fn read_sockets(
    alloc: Global,
    options: &ListenOptions,
) -> Result<(Rights, Option<SideSocket<'_>>), AllocError>
    ensures { IfOk result (λ sockets. IsRights true options.now.names sockets.0
        × IsSideSocket options.now sockets.1) }
{
    let rights = read_rights(alloc, true, &options.names)?;
    let Some(path) = &options.verify_socket else {
        return Ok((rights, None));
    };
    let side = SideSocket {
        path: path.as_str(),
        permissions: options.verify_mode.permissions(),
        rights: read_rights(alloc, false, &options.verify_names)?,
    };
    Ok((rights, Some(side)))
}

/// What is allowed at a socket whose names are given so, or left out: to mint or not, under these
/// names or all.
pub fn read_rights(
    alloc: Global,
    may_mint: bool,
    names: &Option<String>,
) -> Result<Rights, AllocError>
    ensures { IfOk result (IsRights may_mint names.now) }
{
    let names = match names {
        Some(list) => Some(read_names(alloc, list.as_str().as_bytes())?),
        None => None,
    };
    Ok(Rights { may_mint, names })
}

/// Nothing at all. It takes no memory.
pub fn no_rights(alloc: Global) -> Rights
    ensures { AreNone result }
{
    Rights {
        may_mint: false,
        names: Some(Names::new(Vec::new(alloc))),
    }
}

/// The names of a list, between its commas.
fn read_names(alloc: Global, list: &[u8]) -> Result<Names, AllocError>
    ensures { IfOk result (λ names. names ≡ slice_split is_comma list.now) }
{
    let mut names = Vec::new(alloc);
    for name in list.split(|byte| *byte == b',') {
        names.push(Bytes::new(Vec::from_slice(alloc, name)?))?;
    }
    Ok(Names::new(names))
}
