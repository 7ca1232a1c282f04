//! A fact for each step of a path, so that a prefix is a caveat like any other.

ghost use Rattle.std.specs.Prelude.{◌≡◌, ◌<◌, ◌≤◌, ◌++◌, codes, length, map, OnOk};
ghost use Rattle.mac_token.specs.RawToken.{byte_lists};
ghost use Rattle.mac_http.specs.Path.{step_of, steps};

use super::put;
use crate::path::is_step;
use std::alloc::{AllocError, Global};

/// Appends `path under ..` for each step of a path, the shortest first.
pub(super) fn put_steps(
    facts: &mut Vec<Vec<u8>>,
    alloc: Global,
    path: &[u8],
) -> Result<(), AllocError>
    ensures { OnOk result (byte_lists facts.new.items ≡ byte_lists facts.old.items
        ++ map (λ step. codes "path under " ++ step) (steps path.now)) }
{
    for before in 0..path.len() {
        put_step(facts, alloc, path, before + 1)?;
    }
    Ok(())
}

/// Appends the fact of the step of so many bytes, if they are one.
fn put_step(
    facts: &mut Vec<Vec<u8>>,
    alloc: Global,
    path: &[u8],
    count: usize,
) -> Result<(), AllocError>
    requires above { 0 < count }
    requires within { count ≤ length path.now }
    ensures { OnOk result (byte_lists facts.new.items ≡ byte_lists facts.old.items
        ++ map (λ step. codes "path under " ++ step) (step_of path.now count)) }
{
    if is_step(path, count) {
        return put(facts, alloc, b"path under ", &path[..count]);
    }
    Ok(())
}
