//! Facts as the fields of a list, in which a decision looks them up.

ghost use Rattle.std.specs.Prelude.{◌≡◌, ◌<◌, ◌^◌, ◌++◌, ◌∷◌, length, if◌then◌else◌, Some, None, IfOk, OnOk};
ghost use Rattle.std.specs.List.{flat_map, list_any};
ghost use Rattle.std.specs.Option.{option_map};
ghost use Rattle.mac_token.specs.RawToken.{byte_lists};
ghost use Rattle.mac_wire.specs.Request.{AreFields, counted_fields, long_field};
ghost use Rattle.mac_calls.specs.Counted.{are_few, is_long};

use mac_wire::FACTS_MAX;
use std::alloc::{AllocError, Global};

/// The greatest length of a fact, in bytes.
pub const FACT_MAX: usize = 65_535;

/// The facts, counted in one byte and each behind its length; none where they are too many or too
/// long.
pub fn counted_facts(alloc: Global, facts: &[Vec<u8>]) -> Result<Option<Vec<u8>>, AllocError>
    ensures { IfOk result (λ made. option_map (λ c. c.items) made
        ≡ (if are_few (byte_lists facts.now) then Some (counted_fields (byte_lists facts.now))
        else None)) }
{
    if are_few(facts) {
        Ok(Some(counted_fields(alloc, facts)?))
    } else {
        Ok(None)
    }
}

/// Whether the facts are no more and no longer than a request may have.
fn are_few(facts: &[Vec<u8>]) -> bool
    ensures { result ≡ are_few (byte_lists facts.now) }
{
    facts.len() <= FACTS_MAX as usize && !any_is_long(facts)
}

fn any_is_long(facts: &[Vec<u8>]) -> bool
    ensures { result ≡ list_any is_long (byte_lists facts.now) }
{
    has_long(facts)
}

fn has_long(facts: &[Vec<u8>]) -> bool
    ensures { result ≡ list_any (λ fact. is_long fact.items) facts.now }
{
    facts.iter().any(|fact| fact.len() > FACT_MAX)
}

fn counted_fields(alloc: Global, facts: &[Vec<u8>]) -> Result<Vec<u8>, AllocError>
    requires count { length facts.now < 2 ^ 8 }
    requires each { AreFields (byte_lists facts.now) }
    ensures { IfOk result (λ counted. counted.items ≡ counted_fields (byte_lists facts.now)) }
{
    let mut counted = Vec::new(alloc);
    counted.push(facts.len() as u8)?;
    for fact in facts {
        put_field(&mut counted, fact)?;
    }
    Ok(counted)
}

/// Appends a length of two bytes, and that many bytes.
fn put_field(counted: &mut Vec<u8>, bytes: &[u8]) -> Result<(), AllocError>
    requires { length bytes.now < 2 ^ 16 }
    ensures { OnOk result (counted.new.items ≡ counted.old.items ++ long_field bytes.now) }
{
    let length = bytes.len() as u16;
    counted.extend_from_slice(&length.to_be_bytes())?;
    counted.extend_from_slice(bytes)
}
