//! The verdict on a token that is read where it lies, once a signature is computed.

ghost use Rattle.std.specs.Prelude.{◌≡◌, ◌↔◌, ◌⊎◌, All, IsTrue, IsSomeAnd, MatchOption};
ghost use Rattle.mac_decide.specs.Minted.{Signs};
ghost use Rattle.mac_decide.specs.Prepared.{verdict_by};
ghost use Rattle.mac_decide.specs.Verdict.{Satisfied, IsFirstUnsatisfied};

use crate::context::Context;
use crate::folding::{Folding, Texts};
use crate::verdict::{Verdict, found_verdict, unsatisfied_in};
use mac_hmac::{RootKey, Sig, same};
use mac_token::TokenView;

/// Whether there is a second key and it gives the token's signature.
fn second_signs(second: Option<RootKey>, token: &TokenView<'_>) -> bool
    ensures { IsTrue result ↔ IsSomeAnd second (λ key. Signs key token.now) }
{
    match second {
        Some(second) => signs_view(&second, token),
        None => false,
    }
}

/// Whether the key gives the token's signature.
pub(crate) fn signs_view(key: &RootKey, token: &TokenView<'_>) -> bool
    ensures { IsTrue result ↔ Signs key.now token.now }
{
    let signature = Folding::of_token(*key, token).finish();
    same(&Sig::from_bytes(token.sig()), &signature)
}

/// The verdict by the signature that the first key gives the token. Only where it isn't the token's
/// the second key is asked.
pub(crate) fn verdict_by(
    signature: Sig,
    second: Option<RootKey>,
    token: &TokenView<'_>,
    context: &Context<'_>,
) -> Verdict
    ensures { result ≡ verdict_by signature second token.now context.now }
{
    if is_given(signature, second, token) {
        found_verdict(unsatisfied_caveat(token, context))
    } else {
        Verdict::BadSignature
    }
}

/// Whether the token has this signature, or the one that the second key gives it.
fn is_given(signature: Sig, second: Option<RootKey>, token: &TokenView<'_>) -> bool
    ensures { IsTrue result ↔ ((token.now.sig ≡ signature)
        ⊎ IsSomeAnd second (λ key. Signs key token.now)) }
{
    same(&Sig::from_bytes(token.sig()), &signature) || second_signs(second, token)
}

/// The index of the first caveat that isn't satisfied.
pub(crate) fn unsatisfied_caveat(token: &TokenView<'_>, context: &Context<'_>) -> Option<u16>
    ensures { MatchOption result (All (λ caveat. Satisfied caveat context.now) token.now.caveats)
        (IsFirstUnsatisfied token.now.caveats context.now) }
{
    let _count = token.caveats();
    unsatisfied_in(Texts::Caveats(token.walk()), context)
}
