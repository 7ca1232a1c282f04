//! Tokens judged in a context.

ghost use Rattle.std.specs.Prelude.{◌≡◌, map, true, Bool, IfOk, List, ℕ};
ghost use Rattle.std.specs.Prelude.{option_map};
ghost use Rattle.serde_json.specs.Data.{boolean};
ghost use Rattle.serde_json.specs.View.{view};
ghost use Rattle.serde_json.specs.Written.{compact_text};
ghost use Rattle.mac_decide.specs.Reading.{is_satisfied};
ghost use Rattle.mac_token.specs.RawToken.{byte_lists};
ghost use Rattle.mac_wire.specs.Request.{counted_fields};
ghost use Rattle.mac_calls.specs.Asking.{lent_verifier};
ghost use Rattle.mac_calls.specs.Counted.{are_few};
ghost use Rattle.mac_calls.specs.Gives.{Gives};
ghost use Rattle.mac_calls.specs.Judged.{checked, holding, holds_object, judged, judged_at};
ghost use Rattle.mac_calls.specs.Judged.{judged_few, refused_json, reply_json, unsatisfied_json};
ghost use Rattle.mac_calls.specs.Judged.{verify_reply};

use crate::asking::ask_verify;
use crate::counted::counted_facts;
use crate::fault::{BodyFault, CallFault};
use crate::members::{facts_in, moment_in, token_in};
use crate::received::receive;
use crate::verifier::Verifier;
use mac_decide::{Context, satisfied};
use mac_token::Token;
use mac_wire::{FieldList, Refusal, Reply};
use serde_json::{Map, Value, put};
use std::alloc::{AllocError, Global};

/// The JSON of a token that none of the keys gives the signature of.
const BAD_SIGNATURE: &[u8] = b"{\"granted\":false,\"code\":23,\
    \"reason\":\"the key does not give the signature of the token\"}";

/// The JSON of a token that was taken back.
const REVOKED: &[u8] = b"{\"granted\":false,\"code\":29,\"reason\":\"the token was taken back\"}";

/// What the JSON of an unsatisfied caveat begins with.
const UNSATISFIED: &str = "{\"granted\":false,\"code\":24,\"caveat\":";

/// What is told of an object's token with the object's facts at its moment: the verdict of the
/// keys, or where there are none, which caveats hold.
pub(crate) fn judged(
    alloc: Global,
    verifier: Option<Verifier<'_>>,
    object: &Value,
) -> Result<Vec<u8>, CallFault>
    ensures { Gives (λ text. text.items) result
        (judged (option_map lent_verifier verifier.entry) (view object.now)) }
{
    let text = token_in(object)?;
    let facts = facts_in(alloc, object)?;
    let moment = moment_in(object)?;
    judged_few(alloc, verifier, text.as_bytes(), &facts, moment)
}

/// The same with these facts, if they are few.
fn judged_few(
    alloc: Global,
    verifier: Option<Verifier<'_>>,
    text: &[u8],
    facts: &[Vec<u8>],
    moment: u64,
) -> Result<Vec<u8>, CallFault>
    ensures { Gives (λ text. text.items) result
        (judged_few (option_map lent_verifier verifier.entry)
        text.now (byte_lists facts.now) moment) }
{
    match counted_facts(alloc, facts)? {
        Some(counted) => judged_at(alloc, verifier, text, &counted, moment),
        None => Err(BodyFault::ManyFacts.into()),
    }
}

/// The same with counted facts.
fn judged_at(
    alloc: Global,
    verifier: Option<Verifier<'_>>,
    text: &[u8],
    counted: &[u8],
    moment: u64,
) -> Result<Vec<u8>, CallFault>
    ensures { (facts : List (List ℕ)) → counted.now ≡ counted_fields facts → are_few facts ≡ true
        → Gives (λ text. text.items) result (judged_at (option_map lent_verifier verifier.entry)
        text.now (record { moment = moment; facts = facts })) }
{
    let Some(facts) = FieldList::read(counted) else {
        return Err(BodyFault::ManyFacts.into());
    };
    match verifier {
        Some(verifier) => verified(alloc, verifier, text, Context { moment, facts }),
        None => checked(alloc, text, &Context { moment, facts }),
    }
}

/// What a verify of a text is answered in a context.
fn verified(
    alloc: Global,
    verifier: Verifier<'_>,
    token: &[u8],
    context: Context<'_>,
) -> Result<Vec<u8>, CallFault>
    ensures { Gives (λ text. text.items) result
        (reply_json (verify_reply (lent_verifier verifier.entry) token.now context.entry)) }
{
    let reply = ask_verify(alloc, verifier, token, context)?;
    reply_json(alloc, &reply)
}

/// Which caveats of the token that a text spells are satisfied in a context.
fn checked(alloc: Global, text: &[u8], context: &Context<'_>) -> Result<Vec<u8>, CallFault>
    ensures { Gives (λ text. text.items) result (checked text.now context.now) }
{
    let received = receive(alloc, text)?;
    Ok(holds_json(alloc, &received.token, context)?)
}

/// Which caveats of a token are satisfied, as JSON.
fn holds_json(alloc: Global, token: &Token, context: &Context<'_>) -> Result<Vec<u8>, AllocError>
    ensures { IfOk result (λ text. text.items
        ≡ compact_text (holds_object (holding token.now.caveats context.now))) }
{
    let values = holding(alloc, token.caveat_list(), context)?;
    let object = held(alloc, values)?;
    Ok(object.to_vec(alloc)?)
}

/// An object of this list.
#[tactic(auto, unfolding(crate::specs::Judged::holds_object))]
fn held(alloc: Global, values: Vec<Value>) -> Result<Value, AllocError>
    ensures { (holds : List Bool) → map view values.items ≡ map boolean holds
        → IfOk result (λ value. view value ≡ holds_object holds) }
{
    let mut object = Map::new(alloc);
    put(&mut object, alloc, "holds", Value::Array(values))?;
    Ok(Value::Object(object))
}

/// Of each caveat, whether it is satisfied.
fn holding(
    alloc: Global,
    caveats: &[Vec<u8>],
    context: &Context<'_>,
) -> Result<Vec<Value>, AllocError>
    ensures { IfOk result (λ values. map view values.items
        ≡ map boolean (holding (byte_lists caveats.now) context.now)) }
{
    let mut values = Vec::with_capacity(alloc, caveats.len())?;
    for caveat in caveats {
        values.push(Value::Bool(is_satisfied(caveat, context)))?;
    }
    Ok(values)
}

/// Whether a caveat is satisfied.
fn is_satisfied(caveat: &[u8], context: &Context<'_>) -> bool
    ensures { result ≡ is_satisfied caveat.now context.now }
{
    satisfied(caveat, context)
}

/// The reply to a verify as JSON. A token that is none is refused.
fn reply_json(alloc: Global, reply: &Reply) -> Result<Vec<u8>, CallFault>
    ensures { Gives (λ json. json.items) result (reply_json reply.now) }
{
    match reply {
        Reply::Granted => Ok(Vec::from_slice(alloc, b"{\"granted\":true}")?),
        Reply::Unsatisfied(index) => Ok(unsatisfied_json(alloc, *index)?),
        Reply::Refused(why) => refused_json(alloc, *why),
        Reply::GrantedTo { .. } | Reply::Token(_) => Err(Refusal::BadRequest.into()),
    }
}

/// A refusal of a verify as JSON, where it says that the keys don't grant the token.
fn refused_json(alloc: Global, why: Refusal) -> Result<Vec<u8>, CallFault>
    ensures { Gives (λ json. json.items) result (refused_json why) }
{
    match why {
        Refusal::BadSignature => Ok(Vec::from_slice(alloc, BAD_SIGNATURE)?),
        Refusal::Revoked => Ok(Vec::from_slice(alloc, REVOKED)?),
        Refusal::BadRequest | Refusal::FrameTooLong | Refusal::UnknownKey => Err(why.into()),
        Refusal::Transport | Refusal::Malformed | Refusal::ThirdParty => Err(why.into()),
        Refusal::Limit | Refusal::CaveatLocation => Err(why.into()),
        Refusal::NotAllowed | Refusal::NoClock => Err(why.into()),
    }
}

/// That the caveat at a place isn't satisfied, as JSON.
fn unsatisfied_json(alloc: Global, index: u16) -> Result<Vec<u8>, AllocError>
    ensures { IfOk result (λ json. json.items ≡ unsatisfied_json index) }
{
    let text = format!(in alloc;
        "{}{},\"reason\":\"caveat {} is not satisfied\"}}",
        UNSATISFIED, index, index
    )?;
    Ok(text.into_bytes())
}
