//! The object that a body is.

ghost use Rattle.std.specs.Prelude.{◌≡◌, Err};
ghost use Rattle.serde_json.specs.Data.{Data};
ghost use Rattle.serde_json.specs.Errors.{IsMemory};
ghost use Rattle.serde_json.specs.View.{members_view, view};
ghost use Rattle.mac_calls.specs.Gives.{Gives, IsFault};
ghost use Rattle.mac_calls.specs.Object.{are_known, checked, data_of, object_in};
ghost use Rattle.mac_calls.specs.Steps.{Step, or_fault};

use crate::call::Call;
use crate::fault::{BodyFault, CallFault, CallRefusal};
use serde_json::{Error, Map, Value};
use std::alloc::Global;

/// The object that a body is, with no member but those of the call. Time is linear in the bytes.
#[tactic(auto, unfolding(crate::specs::Object::object_in))]
pub(crate) fn object_in(alloc: Global, call: Call, body: &[u8]) -> Result<Value, CallFault>
    ensures { Gives (λ value. view value) result (object_in call body.now) }
{
    let value = data_in(alloc, body)?;
    checked(call, value)
}

/// The value that a body is.
fn data_in(alloc: Global, body: &[u8]) -> Result<Value, CallFault>
    ensures { Gives (λ value. view value) result
        (or_fault BodyFault.NoObject (data_of body.now)) }
{
    match Value::from_slice(alloc, body) {
        Ok(value) => Ok(value),
        Err(error) => Err(unread(error)),
    }
}

/// Why nothing was read.
fn unread(error: Error) -> CallFault
    ensures { (answer : Step Data)
        → (¬ IsMemory error → answer ≡ Err (CallRefusal.Body BodyFault.NoObject))
        → IsFault result answer }
{
    if error.is_memory() {
        CallFault::Memory
    } else {
        BodyFault::NoObject.into()
    }
}

/// A value, if it is an object with no member but those of the call.
fn checked(call: Call, value: Value) -> Result<Value, CallFault>
    ensures { Gives (λ value. view value) result (checked call (view value)) }
{
    match value.as_object() {
        None => Err(BodyFault::NoObject.into()),
        Some(members) if are_known(call, members) => Ok(value),
        Some(_) => Err(BodyFault::UnknownMember.into()),
    }
}

/// Whether each member is one of the call's.
fn are_known(call: Call, members: &Map<String, Value>) -> bool
    ensures { result ≡ are_known call (members_view members.now.entries) }
{
    for (name, _) in members.iter() {
        if !call.knows(name.as_str()) {
            return false;
        }
    }
    true
}
