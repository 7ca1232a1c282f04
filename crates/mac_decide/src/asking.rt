//! A request that is to be answered.

ghost use Rattle.std.specs.Prelude.{◌≡◌};
ghost use Rattle.std.specs.Option.{option_copied};
ghost use Rattle.mac_wire.specs.Request.{asked, key_of};
ghost use Rattle.mac_decide.specs.Answer.{asked_basis};
ghost use Rattle.mac_decide.specs.Asking.{asking_basis};
ghost use Rattle.mac_decide.specs.Terms.{lent_terms};

use crate::revocation::{Revocation, Telling};
use crate::rights::Terms;
use mac_keys::Keys;
use mac_wire::{Grant, Request};

/// A request, where its parts lie, with what it is answered on: the keys are lent.
#[derive(Drop)]
pub struct Asking<'a> {
    pub request: Request<'a>,
    /// The keys of its name; none where the table has none for it, and where it may not be used.
    pub keys: Option<&'a Keys>,
    /// Whether its token was taken back.
    pub revoked: Revocation<'a>,
    /// Whether a mint is answered.
    pub may_mint: bool,
    /// The moment, in seconds since 1970, if the clock told one.
    pub moment: Option<u64>,
}

impl<'a> Asking<'a> {
    /// A request under these terms.
    pub fn under(terms: Terms<'a>, request: Request<'a>) -> Asking<'a>
        ensures request { result.request ≡ request.entry }
        ensures basis { asking_basis result
            ≡ asked_basis (lent_terms terms.entry) (asked request.entry) }
    {
        let keys = match key_of(&request) {
            Some(name) => terms.keys_of(name),
            None => None,
        };
        Asking {
            request,
            keys,
            revoked: Revocation::In(&terms.table.revoked),
            may_mint: terms.rights.may_mint,
            moment: terms.moment,
        }
    }

    /// What is told of a verify beside its verdict, under the name of its key.
    pub(crate) fn telling(&self, grant: Grant, name: &'a [u8]) -> Telling<'a>
        ensures grant { result.grant ≡ grant }
        ensures name { result.name.now ≡ name.now }
        ensures revoked { result.revoked ≡ self.now.revoked }
    {
        Telling {
            grant,
            name,
            revoked: self.revoked,
        }
    }
}

/// The name of the key that a request is about; an attenuate names none.
fn key_of<'a>(request: &Request<'a>) -> Option<&'a [u8]>
    ensures { option_copied result ≡ key_of (asked request.now) }
{
    match request {
        Request::Mint { key, .. } => Some(*key),
        Request::Attenuate { .. } => None,
        Request::Verify { key, .. } => Some(*key),
        Request::VerifyNow { key, .. } => Some(*key),
    }
}
