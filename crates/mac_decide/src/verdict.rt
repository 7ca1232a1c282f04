//! Verdicts: the keys of a name, and which caveats are satisfied.

ghost use Rattle.std.specs.Prelude.{◌≡◌, ◌↔◌, ◌∷◌, ◌<◌, ◌^◌, All, IfSome, IsTrue, MatchOption, length};
ghost use Rattle.std.specs.Prelude.{option_to_list};
ghost use Rattle.mac_keys.specs.Keys.{listed};
ghost use Rattle.mac_token.specs.RawToken.{TokenParts};
ghost use Rattle.mac_decide.specs.Folding.{texts_of};
ghost use Rattle.mac_decide.specs.Minted.{Minted};
ghost use Rattle.mac_decide.specs.Verdict.{Satisfied, IsFirstUnsatisfied, found_verdict};

use crate::context::{Context, satisfied_in_order};
use crate::folding::Texts;
use mac_hmac::RootKey;
use mac_keys::Keys;
use mac_token::Token;
use mac_wire::FieldList;

/// The verdict on a token.
#[derive(Clone, Copy, Debug, PartialEq, Eq)]
pub enum Verdict {
    /// One of the keys gives the token's signature, and each caveat is satisfied.
    Granted,
    /// None of the keys gives the token's signature.
    BadSignature,
    /// The index of the first caveat that isn't satisfied, from 0.
    Unsatisfied(u16),
}

/// The second key, where it is another than the first: a key is asked once.
pub(crate) fn other_key(keys: &Keys) -> Option<RootKey>
    ensures minted { (t : TokenParts) → Minted (keys.now.first ∷ option_to_list result) t
        ↔ Minted (listed keys.now) t }
    ensures other { IfSome result (λ key. ¬ (key ≡ keys.now.first)) }
{
    match keys.second {
        Some(second) if second != keys.first => Some(second),
        _ => None,
    }
}

/// The index of the first caveat that isn't satisfied.
pub(crate) fn unsatisfied_of(token: &Token, context: &Context<'_>) -> Option<u16>
    ensures { MatchOption result (All (λ caveat. Satisfied caveat context.now) token.now.caveats)
        (IsFirstUnsatisfied token.now.caveats context.now) }
{
    unsatisfied_in(Texts::Held(token.caveat_list()), context)
}

/// The index of the first of a token's caveats that isn't satisfied.
pub(crate) fn unsatisfied_in(mut caveats: Texts<'_>, context: &Context<'_>) -> Option<u16>
    requires { length (texts_of caveats) < 2 ^ 16 }
    ensures { let all = texts_of caveats.entry in
        MatchOption result (All (λ caveat. Satisfied caveat context.now) all)
        (IsFirstUnsatisfied all context.now) }
{
    let mut index = 0;
    let mut ahead = context.facts.walk();
    while let Some(caveat) = caveats.next() {
        if !satisfied_in_order(caveat, context, &mut ahead) {
            return Some(index);
        }
        index += 1;
    }
    None
}

/// The verdict where a key gives the signature, by the caveat that was found.
pub(crate) fn found_verdict(unsatisfied: Option<u16>) -> Verdict
    ensures { result ≡ found_verdict unsatisfied }
{
    match unsatisfied {
        None => Verdict::Granted,
        Some(index) => Verdict::Unsatisfied(index),
    }
}
