//! What a call is answered.

ghost use Rattle.std.specs.Prelude.{◌≡◌, IfOk, List, ℕ, option_copied};
ghost use Rattle.serde_json.specs.View.{view};
ghost use Rattle.mac_calls.specs.Asking.{lent_verifier};
ghost use Rattle.mac_calls.specs.Gives.{Gives};
ghost use Rattle.mac_calls.specs.Outcome.{attenuate_answer, check_answer, inspect_answer};
ghost use Rattle.mac_calls.specs.Json.{minted_json};
ghost use Rattle.mac_calls.specs.Outcome.{mint_answer, minted_identifier, minted_outcome};
ghost use Rattle.mac_calls.specs.Outcome.{outcome_of, told_outcome, verify_answer, wire_refusal};
ghost use Rattle.mac_calls.specs.Steps.{Step};

use crate::call::Call;
use crate::fault::{CallFault, CallRefusal};
use crate::inspect::inspected;
use crate::json::{drawn_json, refusal_json, token_json};
use crate::judge::judged;
use crate::make::{NewToken, attenuated, minted};
use crate::members::has_identifier;
use crate::object::object_in;
use crate::verifier::Verifier;
use mac_keys::{KeyTable, Keys};
use mac_wire::{Bytes, Refusal};
use serde_json::Value;
use std::alloc::{AllocError, Global};

/// What comes of a call.
#[derive(Drop)]
pub enum CallOutcome {
    /// No key has the name.
    NoKey,
    /// The JSON text of a token that was minted.
    Minted {
        /// The text.
        json: Bytes,
        /// The token's identifier.
        identifier: Bytes,
    },
    /// The JSON text of another reply.
    Reply(Bytes),
    /// A refusal.
    Refused {
        /// Its JSON text.
        json: Bytes,
        /// Why the call is refused.
        why: CallRefusal,
    },
}

impl CallOutcome {
    /// The identifier of the token that was minted, if one was.
    pub fn identifier(&self) -> Option<&[u8]>
        ensures { option_copied result ≡ minted_identifier self.now }
    {
        match self {
            CallOutcome::Minted { identifier, .. } => Some(identifier.as_slice()),
            CallOutcome::NoKey | CallOutcome::Reply(_) | CallOutcome::Refused { .. } => None,
        }
    }

    /// The refusal of the wire that it is, if it is one: that the body is none of the call's isn't.
    pub fn refusal(&self) -> Option<Refusal>
        ensures { result ≡ wire_refusal self.now }
    {
        match self {
            CallOutcome::NoKey => Some(Refusal::UnknownKey),
            CallOutcome::Refused {
                why: CallRefusal::Token(why),
                ..
            } => Some(*why),
            CallOutcome::Minted { .. } | CallOutcome::Reply(_) | CallOutcome::Refused { .. } =>
                None,
        }
    }
}

/// Where random bytes come from.
pub trait Draws {
    /// 16 random bytes, if there are any now.
    fn draw(&self) -> Option<[u8; 16]>;
}

/// What a call brings.
#[derive(Clone, Copy)]
pub struct Brought<'a> {
    /// Its body.
    pub body: &'a [u8],
    /// Random bytes, for the identifier of a token whose body says none.
    pub drawn: &'a [u8; 16],
    /// The moment at which new caveats are looked at, in seconds since 1970-01-01T00:00:00Z.
    pub moment: u64,
}

/// What comes of a call that brings this, under the table; a mint and a verify alone are about a
/// name. Memory and time are linear in the body and in what is made of it, but that a check and a
/// verify look each caveat up among the facts, and a mint and an attenuate among those before it.
pub fn answer(
    alloc: Global,
    table: &KeyTable,
    name: &[u8],
    call: Call,
    brought: Brought<'_>,
) -> Result<CallOutcome, AllocError>
    ensures { IfOk result (λ o. o
        ≡ outcome_of table.now brought.entry.moment name.now call brought.entry.drawn.now
        brought.entry.body.now) }
{
    let body = brought.body;
    match call {
        Call::Mint => match table.find(name) {
            Some(keys) => minted_outcome(alloc, mint_answer(alloc, keys, brought)),
            None => Ok(CallOutcome::NoKey),
        },
        Call::Attenuate => told_outcome(alloc, attenuate_answer(alloc, brought.moment, body)),
        Call::Inspect => told_outcome(alloc, inspect_answer(alloc, body)),
        Call::Check => told_outcome(alloc, check_answer(alloc, body)),
        Call::Verify => match table.find(name) {
            Some(keys) => {
                let revoked = &table.revoked;
                let verifier = Verifier {
                    keys,
                    name,
                    revoked,
                };
                told_outcome(alloc, verify_answer(alloc, verifier, body))
            }
            None => Ok(CallOutcome::NoKey),
        },
    }
}

/// The reply or the refusal.
fn told_outcome(alloc: Global, told: Result<Vec<u8>, CallFault>) -> Result<CallOutcome, AllocError>
    ensures { (answer : Step (List ℕ)) → Gives (λ json. json.items) told answer
        → IfOk result (λ o. o ≡ told_outcome answer) }
{
    match told {
        Ok(json) => Ok(CallOutcome::Reply(Bytes::new(json))),
        Err(CallFault::Refused(why)) => refused(alloc, why),
        Err(CallFault::Memory) => Err(AllocError),
    }
}

/// The same of a mint.
fn minted_outcome(
    alloc: Global,
    told: Result<(Vec<u8>, Vec<u8>), CallFault>,
) -> Result<CallOutcome, AllocError>
    ensures { (answer : Step (List ℕ × List ℕ))
        → Gives (λ told. (told.0.items, told.1.items)) told answer
        → IfOk result (λ o. o ≡ minted_outcome answer) }
{
    match told {
        Ok((json, identifier)) => Ok(CallOutcome::Minted {
            json: Bytes::new(json),
            identifier: Bytes::new(identifier),
        }),
        Err(CallFault::Refused(why)) => refused(alloc, why),
        Err(CallFault::Memory) => Err(AllocError),
    }
}

/// The refusal.
fn refused(alloc: Global, why: CallRefusal) -> Result<CallOutcome, AllocError>
    ensures told { IfOk result (λ o. o ≡ told_outcome (Err why)) }
    ensures minted { IfOk result (λ o. o ≡ minted_outcome (Err why)) }
{
    let json = refusal_json(alloc, why)?;
    Ok(CallOutcome::Refused {
        json: Bytes::new(json),
        why,
    })
}

/// The reply to a mint under these keys, and the token's identifier.
fn mint_answer(
    alloc: Global,
    keys: &Keys,
    brought: Brought<'_>,
) -> Result<(Vec<u8>, Vec<u8>), CallFault>
    ensures { Gives (λ told. (told.0.items, told.1.items)) result
        (mint_answer keys.now brought.entry.drawn.now brought.entry.moment
        brought.entry.body.now) }
{
    let object = object_in(alloc, Call::Mint, brought.body)?;
    let made = minted(alloc, keys, brought.drawn, brought.moment, &object)?;
    let json = minted_json(alloc, &object, &made)?;
    let NewToken { identifier, .. } = made;
    Ok((json, identifier))
}

/// A token that was minted, with its identifier where the object says none.
fn minted_json(alloc: Global, object: &Value, made: &NewToken) -> Result<Vec<u8>, AllocError>
    ensures { IfOk result (λ json. json.items ≡ minted_json (view object.now)
        (made.now.identifier.items, (made.now.text.items, made.now.warnings.items))) }
{
    if has_identifier(object) {
        token_json(alloc, &made.text, &made.warnings)
    } else {
        drawn_json(alloc, &made.identifier, &made.text, &made.warnings)
    }
}

/// The reply to an attenuate, at a moment.
fn attenuate_answer(alloc: Global, moment: u64, body: &[u8]) -> Result<Vec<u8>, CallFault>
    ensures { Gives (λ json. json.items) result (attenuate_answer moment body.now) }
{
    let object = object_in(alloc, Call::Attenuate, body)?;
    let (text, warnings) = attenuated(alloc, moment, &object)?;
    Ok(token_json(alloc, &text, &warnings)?)
}

/// The reply to an inspect.
fn inspect_answer(alloc: Global, body: &[u8]) -> Result<Vec<u8>, CallFault>
    ensures { Gives (λ json. json.items) result (inspect_answer body.now) }
{
    let object = object_in(alloc, Call::Inspect, body)?;
    inspected(alloc, &object)
}

/// The reply to a check.
fn check_answer(alloc: Global, body: &[u8]) -> Result<Vec<u8>, CallFault>
    ensures { Gives (λ json. json.items) result (check_answer body.now) }
{
    let object = object_in(alloc, Call::Check, body)?;
    judged(alloc, None, &object)
}

/// The reply to a verify.
fn verify_answer(alloc: Global, v: Verifier<'_>, body: &[u8]) -> Result<Vec<u8>, CallFault>
    ensures { Gives (λ json. json.items) result
        (verify_answer (lent_verifier v.entry) body.now) }
{
    let object = object_in(alloc, Call::Verify, body)?;
    judged(alloc, Some(v), &object)
}
