//! Replies as JSON.

ghost use Rattle.std.specs.Prelude.{◌≡◌, ◌++◌, IfOk, OnOk, string_bytes};
ghost use Rattle.mac_calls.specs.Json.{drawn_json, refusal_json, token_end, token_json};

use crate::fault::{CallRefusal, reason};
use crate::warned::append_warnings;
use std::alloc::{AllocError, Global};

/// A token's text, and what is told of its caveats.
pub(crate) fn token_json(alloc: Global, text: &[u8], warnings: &[u8]) -> Result<Vec<u8>, AllocError>
    ensures { IfOk result (λ json. json.items ≡ token_json text.now warnings.now) }
{
    let mut json = Vec::from_slice(alloc, b"{\"token\":\"")?;
    append_end(text, warnings, &mut json)?;
    Ok(json)
}

/// The same behind the identifier that was drawn for it.
pub(crate) fn drawn_json(
    alloc: Global,
    identifier: &[u8],
    text: &[u8],
    warnings: &[u8],
) -> Result<Vec<u8>, AllocError>
    ensures { IfOk result (λ json. json.items
        ≡ drawn_json identifier.now text.now warnings.now) }
{
    let mut json = Vec::from_slice(alloc, b"{\"identifier\":\"")?;
    json.extend_from_slice(identifier)?;
    json.extend_from_slice(b"\",\"token\":\"")?;
    append_end(text, warnings, &mut json)?;
    Ok(json)
}

/// Appends a token's text and what is told of its caveats, to the end of the object.
fn append_end(text: &[u8], warnings: &[u8], json: &mut Vec<u8>) -> Result<(), AllocError>
    ensures { OnOk result (json.new.items
        ≡ json.old.items ++ token_end text.now warnings.now) }
{
    json.extend_from_slice(text)?;
    json.extend_from_slice(b"\"")?;
    append_warnings(warnings, json)?;
    json.extend_from_slice(b"}")?;
    Ok(())
}

/// A refusal, with its number where it is one of a token.
pub(crate) fn refusal_json(alloc: Global, why: CallRefusal) -> Result<Vec<u8>, AllocError>
    ensures { IfOk result (λ json. json.items ≡ refusal_json why) }
{
    let text = match why {
        CallRefusal::Body(why) => { format!(in alloc; "{{\"reason\":\"{}\"}}", why.reason())? }
        CallRefusal::Token(why) => {
            format!(in alloc;
                "{{\"code\":{},\"reason\":\"{}\"}}",
                why.code(),
                reason(why)
            )?
        }
    };
    Ok(text.into_bytes())
}
