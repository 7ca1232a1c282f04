//! Which of a name's keys gave a signature.

ghost use Rattle.std.specs.Prelude.{◌≡◌, IfOk, true};
ghost use Rattle.mac_decide.specs.Seen.{is_minted_text};
ghost use Rattle.mac_decide.specs.Uses.{key_alone, signer_by, signer_of};

use crate::uses::Signer;
use crate::verdict::other_key;
use crate::verdict_view::signs_view;
use mac_hmac::RootKey;
use mac_keys::Keys;
use mac_token::{TokenFault, TokenView};
use mac_wire::NoMemory;
use std::alloc::{AllocError, Global};

/// Which of these keys gives the signature of the token that a text spells, where one of them does.
/// Where there is one alone nothing is read or hashed.
pub(crate) fn find_signer(alloc: Global, keys: &Keys, text: &[u8]) -> Result<Signer, NoMemory>
    requires { is_minted_text keys.now text.now ≡ true }
    ensures { IfOk result (λ signer. signer ≡ signer_of keys.now text.now) }
{
    match other_key(keys) {
        Some(_) => first_or_second(alloc, &keys.first, text),
        None => Ok(Signer::First),
    }
}

/// The first key, where it gives the signature of the token that the text spells, and else the
/// second.
fn first_or_second(alloc: Global, first: &RootKey, text: &[u8]) -> Result<Signer, NoMemory>
    ensures { IfOk result (λ signer. signer ≡ signer_by first.now text.now) }
{
    if signs_text(alloc, first, text)? {
        Ok(Signer::First)
    } else {
        Ok(Signer::Second)
    }
}

/// Whether the key gives the signature of the token that the text spells.
fn signs_text(alloc: Global, key: &RootKey, text: &[u8]) -> Result<bool, NoMemory>
    ensures { IfOk result (λ signs. signs ≡ is_minted_text (key_alone key.now) text.now) }
{
    match TokenView::read(&mut Vec::new(alloc), alloc, text) {
        Ok(token) => Ok(signs_view(key, &token)),
        Err(TokenFault::Refused(_)) => Ok(false),
        Err(TokenFault::Memory) => Err(AllocError),
    }
}

/// Which of these keys gives a signature that one of them gives, as far as that is known by their
/// number.
pub(crate) fn likely_signer(keys: &Keys) -> Signer {
    match other_key(keys) {
        Some(_) => Signer::Either,
        None => Signer::First,
    }
}
