//! What operators are told of keys.

ghost use Rattle.std.specs.Prelude.{◌≡◌, ◌++◌, OnOk, option_copied};
ghost use Rattle.mac_gate.specs.KeyLines.{key_line, key_lines, keys_text, second_text, told_lines};

use mac_calls::append_fingerprint;
use mac_hmac::RootKey;
use mac_keys::{KeyTable, Keys};
use std::alloc::{AllocError, Global};

/// Appends the lines of the keys that may be told.
pub(crate) fn append_told_keys(
    alloc: Global,
    keys: Option<&KeyTable>,
    out: &mut Vec<u8>,
) -> Result<(), AllocError>
    ensures { OnOk result (out.new.items ≡ out.old.items ++ told_lines (option_copied keys.entry)) }
{
    match keys {
        Some(table) => append_key_lines(alloc, table, out),
        None => Ok(()),
    }
}

/// Appends a line for each name of a table, in the order of their bytes, with the fingerprints of
/// its keys.
fn append_key_lines(alloc: Global, table: &KeyTable, out: &mut Vec<u8>) -> Result<(), AllocError>
    ensures { OnOk result (out.new.items ≡ out.old.items ++ key_lines table.now) }
{
    let names = table.names(alloc)?;
    for name in &names {
        append_line(alloc, name.name, table.find(name.name), out)?;
    }
    Ok(())
}

/// Appends the line of a name with its keys.
fn append_line(
    alloc: Global,
    name: &[u8],
    keys: Option<&Keys>,
    out: &mut Vec<u8>,
) -> Result<(), AllocError>
    ensures { OnOk result (out.new.items
        ≡ out.old.items ++ key_line name.now (option_copied keys.entry)) }
{
    out.extend_from_slice(b"key ")?;
    out.extend_from_slice(name)?;
    append_keys(alloc, keys, out)?;
    out.extend_from_slice(b"\n")
}

/// Appends the fingerprints of the keys of a name, if it has any.
fn append_keys(alloc: Global, keys: Option<&Keys>, out: &mut Vec<u8>) -> Result<(), AllocError>
    ensures { OnOk result (out.new.items ≡ out.old.items ++ keys_text (option_copied keys.entry)) }
{
    match keys {
        Some(keys) => {
            out.extend_from_slice(b" ")?;
            append_fingerprint(alloc, &keys.first, out)?;
            append_second(alloc, &keys.second, out)
        }
        None => Ok(()),
    }
}

/// Appends the fingerprint of a second key, if there is one.
fn append_second(
    alloc: Global,
    second: &Option<RootKey>,
    out: &mut Vec<u8>,
) -> Result<(), AllocError>
    ensures { OnOk result (out.new.items ≡ out.old.items ++ second_text second.now) }
{
    match second {
        Some(key) => {
            out.extend_from_slice(b" ")?;
            append_fingerprint(alloc, key, out)
        }
        None => Ok(()),
    }
}
