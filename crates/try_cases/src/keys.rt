//! Cases of `mac_keys`.

use crate::case::{Case, CaseFault};
use mac_keys::{KeyFault, KeyTable, Keys};

/// Tells what a case comes to, if it is one of these kinds.
pub(crate) fn tells(case: &mut Case<'_>, kind: &str) -> bool {
    match kind {
        "keys" => names(case),
        "key" => found(case),
        _ => return false,
    }
    true
}

/// The number of names in a key file, or its fault.
fn names(case: &mut Case<'_>) {
    let file = case.bytes();
    match KeyTable::read(case.alloc, &file) {
        Ok(table) => {
            case.say("names ");
            case.say_number(table.len() as u64);
        }
        Err(KeyFault::Line { line, kind }) => {
            let fault = KeyFault::Line { line, kind };
            case.tell(format!(in case.alloc; "kind {}: {fault}", kind.code()));
        }
        Err(KeyFault::Memory) => case.fail(CaseFault::Memory),
    }
}

/// The root keys that a key file gives a name, or that it gives none.
fn found(case: &mut Case<'_>) {
    let Some(table) = table(case) else {
        return;
    };
    let name = case.bytes();
    match table.find(&name) {
        Some(keys) => say_keys(case, keys),
        None => case.say("no key"),
    }
}

fn say_keys(case: &mut Case<'_>, keys: &Keys) {
    case.digits(&keys.first.bytes());
    if let Some(second) = keys.second {
        case.say(" then ");
        case.digits(&second.bytes());
    }
}

/// The key table of the file that the next word spells.
pub(crate) fn table(case: &mut Case<'_>) -> Option<KeyTable> {
    let file = case.bytes();
    match KeyTable::read(case.alloc, &file) {
        Ok(table) => Some(table),
        Err(_) => {
            case.fail(CaseFault::NoCase);
            None
        }
    }
}
