//! Requests that are answered as those of the wire are.

ghost use Rattle.std.specs.Prelude.{◌≡◌, IfOk};
ghost use Rattle.std.specs.Option.{option_copied};
ghost use Rattle.mac_decide.specs.Answer.{request_reply};
ghost use Rattle.mac_wire.specs.Request.{asked, verify};
ghost use Rattle.mac_calls.specs.Asking.{basis_of, lent_verifier, verify_basis};

use crate::verifier::Verifier;
use mac_decide::{Asking, Context, Revocation, SeenTokens, answer_request};
use mac_keys::Keys;
use mac_wire::{Reply, Request};
use std::alloc::{AllocError, Global};

/// The reply to a request that is no verify, under these keys.
pub(crate) fn ask<'a>(
    alloc: Global,
    keys: Option<&'a Keys>,
    request: Request<'a>,
) -> Result<Reply, AllocError>
    ensures { IfOk result (λ r.
        r ≡ request_reply (asked request.entry) (basis_of (option_copied keys.entry))) }
{
    let asking = Asking {
        request,
        keys,
        revoked: Revocation::Known(false),
        may_mint: true,
        moment: None,
    };
    answer_request(&SeenTokens::none(), alloc, asking)
}

/// The reply to a verify of a token in a context, which names its own moment.
pub(crate) fn ask_verify(
    alloc: Global,
    verifier: Verifier<'_>,
    token: &[u8],
    context: Context<'_>,
) -> Result<Reply, AllocError>
    ensures { IfOk result (λ r. r ≡ request_reply
        (verify verifier.entry.name.now token.now context.entry.moment context.entry.facts)
        (verify_basis (lent_verifier verifier.entry) token.now)) }
{
    let request = Request::Verify {
        key: verifier.name,
        token,
        moment: context.moment,
        facts: context.facts,
    };
    let asking = Asking {
        request,
        keys: Some(verifier.keys),
        revoked: Revocation::In(verifier.revoked),
        may_mint: true,
        moment: None,
    };
    answer_request(&SeenTokens::none(), alloc, asking)
}
