//! The names of keys, as JSON.

ghost use Rattle.std.specs.Prelude.{◌≡◌, ◌++◌, IfOk, OnOk};
ghost use Rattle.std.specs.List.{flat_map};
ghost use Rattle.mac_keys.specs.Names.{told};
ghost use Rattle.mac_calls.specs.Names.{behind_comma, items_text, names_in, names_json, quoted};

use mac_keys::{KeyName, KeyTable};
use std::alloc::{AllocError, Global};

/// The names of a table, as the one member of an object.
pub fn names_json(alloc: Global, table: &KeyTable) -> Result<Vec<u8>, AllocError>
    ensures { IfOk result (λ json. json.items ≡ names_json table.now) }
{
    let names = table.names(alloc)?;
    let mut json = Vec::from_slice(alloc, b"{\"names\":[")?;
    put_items(&mut json, &names)?;
    json.extend_from_slice(b"]}")?;
    Ok(json)
}

/// Appends the items of a list.
fn put_items(json: &mut Vec<u8>, names: &[KeyName<'_>]) -> Result<(), AllocError>
    ensures { OnOk result (json.new.items
        ≡ json.old.items ++ items_text (names_in (told names.now))) }
{
    match names {
        [] => Ok(()),
        [first, rest @ ..] => {
            put_quoted(json, first.name)?;
            put_rest(json, rest)
        }
    }
}

/// Appends the items behind the first.
fn put_rest(json: &mut Vec<u8>, names: &[KeyName<'_>]) -> Result<(), AllocError>
    ensures { OnOk result (json.new.items
        ≡ json.old.items ++ flat_map behind_comma (names_in (told names.now))) }
{
    for name in names {
        put_behind_comma(json, name.name)?;
    }
    Ok(())
}

fn put_behind_comma(json: &mut Vec<u8>, name: &[u8]) -> Result<(), AllocError>
    ensures { OnOk result (json.new.items ≡ json.old.items ++ behind_comma name.now) }
{
    json.extend_from_slice(b",")?;
    put_quoted(json, name)
}

fn put_quoted(json: &mut Vec<u8>, name: &[u8]) -> Result<(), AllocError>
    ensures { OnOk result (json.new.items ≡ json.old.items ++ quoted name.now) }
{
    json.extend_from_slice(b"\"")?;
    json.extend_from_slice(name)?;
    json.extend_from_slice(b"\"")
}
