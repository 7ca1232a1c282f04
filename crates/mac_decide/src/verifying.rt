//! A verify, up to what its reply waits for.

ghost use Rattle.std.specs.Prelude.{◌≡◌, IfOk};
ghost use Rattle.mac_keys.specs.Keys.{listed};
ghost use Rattle.mac_decide.specs.Prepared.{comes_to};
ghost use Rattle.mac_decide.specs.Reading.{verdict_of};
ghost use Rattle.mac_decide.specs.Telling.{verdict_told, verify_told};

use crate::context::Context;
use crate::folding::Folding;
use crate::prepared::{Prepared, Purpose, Question, Signing};
use crate::preparing::told;
use crate::reply::refusal_of;
use crate::revocation::Telling;
use crate::verdict::other_key;
use mac_keys::Keys;
use mac_token::{TokenFault, TokenView};
use mac_wire::NoMemory;
use std::alloc::{AllocError, Global};

/// What the reply to a verify waits for.
pub(crate) fn prepare_verify<'a>(
    room: &'a mut Vec<u8>,
    alloc: Global,
    telling: Telling<'a>,
    keys: &Keys,
    token: &'a [u8],
    context: Context<'a>,
) -> Result<Prepared<'a>, NoMemory>
    ensures { IfOk result (λ p.
        comes_to p ≡ verify_told telling.entry token.now context.entry keys.now) }
{
    match TokenView::read(room, alloc, token) {
        Ok(token) => Ok(ask(telling, keys, token, context)),
        Err(TokenFault::Refused(reason)) => Ok(told(refusal_of(reason))),
        Err(TokenFault::Memory) => Err(AllocError),
    }
}

/// What a verify of a token asks, which waits for a signature.
fn ask<'a>(
    telling: Telling<'a>,
    keys: &Keys,
    token: TokenView<'a>,
    context: Context<'a>,
) -> Prepared<'a>
    ensures { comes_to result ≡ verdict_told telling.entry token.entry
        (verdict_of (listed keys.now) token.entry context.entry) }
{
    let folding = Folding::of_token(keys.first, &token);
    let question = Question {
        telling,
        second: other_key(keys),
        token,
        context,
    };
    let purpose = Purpose::Verdict(question);
    Prepared::Pending(Signing { folding, purpose })
}
