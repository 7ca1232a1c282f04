//! What is told of a key file: its names, and the fingerprints of their keys.
ghost use Rattle.std.specs.Prelude.{◌≡◌, ◌++◌, IfOk, OnOk, Some, None, option_copied};
ghost use Rattle.mac_words.specs.NameList.{key_words, keys_words, name_line, names_text};
ghost use Rattle.mac_words.specs.NameList.{second_words};

use mac_calls::append_fingerprint;
use mac_hmac::RootKey;
use mac_keys::{KeyTable, Keys};
use std::alloc::{AllocError, Global};

/// A line for each name of a table, in the order of their bytes, that says how many keys it has,
/// and their fingerprints.
pub fn list_names(alloc: Global, table: &KeyTable) -> Result<Vec<u8>, AllocError>
    ensures { IfOk result (λ text. text.items ≡ names_text table.now) }
{
    let names = table.names(alloc)?;
    let mut text = Vec::new(alloc);
    for name in &names {
        append_name(alloc, name.name, table.find(name.name), &mut text)?;
    }
    Ok(text)
}

/// Appends the line of a name with its keys.
fn append_name(
    alloc: Global,
    name: &[u8],
    keys: Option<&Keys>,
    out: &mut Vec<u8>,
) -> Result<(), AllocError>
    ensures { OnOk result (out.new.items
        ≡ out.old.items ++ name_line name.now (option_copied keys.entry)) }
{
    out.extend_from_slice(name)?;
    append_keys(alloc, keys, out)?;
    out.extend_from_slice(b"\n")
}

/// Appends how many keys there are, if there are any, and their fingerprints.
fn append_keys(alloc: Global, keys: Option<&Keys>, out: &mut Vec<u8>) -> Result<(), AllocError>
    ensures { OnOk result (out.new.items ≡ out.old.items ++ keys_words (option_copied keys.entry)) }
{
    match keys {
        Some(keys) => append_each(alloc, keys, out),
        None => Ok(()),
    }
}

/// Appends that there is one key, or that there are two, and their fingerprints.
fn append_each(alloc: Global, keys: &Keys, out: &mut Vec<u8>) -> Result<(), AllocError>
    ensures { OnOk result (out.new.items
        ≡ out.old.items ++ key_words keys.now.first keys.now.second) }
{
    match &keys.second {
        None => append_one(alloc, &keys.first, out),
        Some(second) => append_both(alloc, &keys.first, second, out),
    }
}

/// Appends that there is one key, and its fingerprint.
fn append_one(alloc: Global, key: &RootKey, out: &mut Vec<u8>) -> Result<(), AllocError>
    ensures { OnOk result (out.new.items ≡ out.old.items ++ key_words key.now None) }
{
    out.extend_from_slice(b": one key, ")?;
    append_fingerprint(alloc, key, out)
}

/// Appends that there are two keys, and their fingerprints.
fn append_both(
    alloc: Global,
    first: &RootKey,
    second: &RootKey,
    out: &mut Vec<u8>,
) -> Result<(), AllocError>
    ensures { OnOk result (out.new.items ≡ out.old.items ++ key_words first.now (Some second.now)) }
{
    out.extend_from_slice(b": two keys, ")?;
    append_fingerprint(alloc, first, out)?;
    append_second(alloc, second, out)?;
    Ok(())
}

/// Appends the fingerprint of a second key, behind that of the first.
#[tactic(auto, unfolding(crate::specs::NameList::second_words))]
fn append_second(alloc: Global, key: &RootKey, out: &mut Vec<u8>) -> Result<(), AllocError>
    ensures { OnOk result (out.new.items ≡ out.old.items ++ second_words key.now) }
{
    out.extend_from_slice(b" and ")?;
    append_fingerprint(alloc, key, out)
}
