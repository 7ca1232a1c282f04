//! What a worker is handed: an arrival, and what it is answered on.

ghost use Rattle.std.specs.Option.{option_copied};
ghost use Rattle.std.specs.Prelude.{◌≡◌, IfOk};
ghost use Rattle.mac_wire.specs.declared.arrival.Arrival.TheVariants as arrival;
ghost use Rattle.mac_decide.specs.Answer.{keys_for};
ghost use Rattle.mac_decide.specs.Terms.{lent_terms};
ghost use Rattle.mac_decide.specs.World.{job_under};

use crate::revocation::is_arrival_revoked;
use crate::rights::Terms;
use mac_keys::Keys;
use mac_wire::{Arrival, NoMemory, key_name};
use std::alloc::Global;

/// What a request is answered on: what of the terms that it came under bears on it.
#[derive(Clone, Copy, PartialEq, Eq)]
pub struct Basis {
    /// The keys of the name in its front; none where it names none, where the table has none for
    /// the name, and where its connection may not use the name.
    pub keys: Option<Keys>,
    /// Whether it asks for a verify of a token that was taken back.
    pub is_revoked: bool,
    /// Whether its connection may mint.
    pub may_mint: bool,
    /// The moment when it came, in seconds since 1970, if the clock told one.
    pub moment: Option<u64>,
}

/// An arrival, with what it is answered on.
#[derive(PartialEq, Eq, Drop)]
pub struct Job {
    pub arrival: Arrival,
    pub basis: Basis,
}

/// The job of an arrival under these terms. Memory is taken where the name has tokens that were
/// taken back, and the token is base64 text or JSON.
pub fn job_of(alloc: Global, terms: Terms<'_>, arrival: Arrival) -> Result<Job, NoMemory>
    ensures { IfOk result (λ job. job ≡ job_under (lent_terms terms.entry) arrival) }
{
    let keys = match &arrival {
        Arrival::Payload(payload) => keys_named(terms, payload.as_slice()).copied(),
        Arrival::Oversize => None,
    };
    let basis = Basis {
        keys,
        is_revoked: is_arrival_revoked(alloc, &terms.table.revoked, &arrival)?,
        may_mint: terms.rights.may_mint,
        moment: terms.moment,
    };
    Ok(Job { arrival, basis })
}

/// The keys of the name in the payload's front, where it may be used, lent.
pub(crate) fn keys_named<'a>(terms: Terms<'a>, payload: &[u8]) -> Option<&'a Keys>
    ensures { option_copied result
        ≡ keys_for (lent_terms terms.entry) (arrival.Payload payload.now) }
{
    terms.keys_of(key_name(payload)?)
}
