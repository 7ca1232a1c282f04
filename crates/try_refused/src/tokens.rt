//! Calls that hand a token back, and one that is lent a buffer.

use crate::outcome::{Outcome, Refused, made_if, once_more, stood_if};
use crate::samples::{
    IDENTIFIER, LOCATION, NARROWED, SIGNATURE, V2_BINARY, V2_TEXT, caveats, is_narrowed,
};
use mac_decide::{Asking, Revocation, SeenTokens, answer_request};
use mac_token::{Token, TokenFault, bare};
use mac_wire::{FieldList, Reply, Request, TokenForm};
use std::alloc::Global;

/// The caveat as a request has it, counted.
const ONE_CAVEAT: &[u8] = b"\x01\x00\x0dtest = caveat";

/// How many caveats a call adds.
const ADDED: usize = 3;

/// The buffer of what a text stands for is filled after a refusal, and holds the token then.
pub(crate) fn bares(alloc: Global) -> Outcome {
    let mut room = Vec::new(alloc);
    let first = is_bare(&mut room);
    once_more(first, is_bare(&mut room))
}

fn is_bare(room: &mut Vec<u8>) -> Option<bool> {
    match bare(room, V2_TEXT) {
        Ok(bytes) => Some(bytes == V2_BINARY),
        Err(TokenFault::Memory) => None,
        Err(_) => Some(false),
    }
}

/// The old token comes back, and takes the caveats then.
pub(crate) fn pushes(alloc: Global) -> Result<Outcome, Refused> {
    let added = caveats(alloc, ADDED)?;
    let token = narrowed(alloc)?;
    match token.push(alloc, &added, SIGNATURE) {
        Ok(token) => Ok(made_if(is_narrowed(&token, 1 + ADDED, SIGNATURE))),
        Err((TokenFault::Memory, back)) => {
            let is_back = is_narrowed(&back, 1, NARROWED);
            Ok(match back.push(alloc, &added, SIGNATURE) {
                Ok(token) => stood_if(is_back && is_narrowed(&token, 1 + ADDED, SIGNATURE)),
                Err(_) => Outcome::Wrong,
            })
        }
        Err(_) => Ok(Outcome::Wrong),
    }
}

/// The token with the caveat, from its parts.
fn narrowed(alloc: Global) -> Result<Token, Refused> {
    let location = String::from_str(alloc, LOCATION)?;
    let identifier = Vec::from_slice(alloc, IDENTIFIER)?;
    match Token::new(location, identifier, caveats(alloc, 1)?, NARROWED) {
        Ok(token) => Ok(token),
        Err(_) => Err(Refused),
    }
}

/// An attenuate that is asked as a call asks it leaves its token as it was, and is answered then.
pub(crate) fn attenuates(alloc: Global) -> Outcome {
    let first = is_attenuated(alloc);
    once_more(first, is_attenuated(alloc))
}

fn is_attenuated(alloc: Global) -> Option<bool> {
    let Some(caveats) = FieldList::read(ONE_CAVEAT) else {
        return Some(false);
    };
    let asking = Asking {
        request: Request::Attenuate {
            form: TokenForm::V2Binary,
            token: V2_BINARY,
            caveats,
        },
        keys: None,
        revoked: Revocation::Known(false),
        may_mint: false,
        moment: None,
    };
    match answer_request(&SeenTokens::none(), alloc, asking) {
        Ok(Reply::Token(made)) => Some(made.as_slice().ends_with(&NARROWED)),
        Ok(_) => Some(false),
        Err(_) => None,
    }
}
