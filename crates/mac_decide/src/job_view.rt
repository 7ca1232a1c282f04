//! A job whose payload lies in somebody's bytes.

ghost use Rattle.std.specs.Prelude.{◌≡◌};
ghost use Rattle.mac_wire.specs.declared.arrival.Arrival.TheVariants as arrival;
ghost use Rattle.mac_decide.specs.Terms.{lent_terms};
ghost use Rattle.mac_decide.specs.Viewed.{arrival_of, viewed};
ghost use Rattle.mac_decide.specs.World.{job_under};

use crate::job::{Job, keys_named};
use crate::revocation::Revocation;
use crate::rights::Terms;
use mac_keys::Keys;
use mac_wire::Arrival;

/// One arrival of a stream, where it lies.
#[derive(Clone, Copy)]
pub enum ArrivalView<'a> {
    /// The payload of a whole frame.
    Payload(&'a [u8]),
    /// A frame that tells too great a length.
    Oversize,
}

impl<'a> ArrivalView<'a> {
    /// The arrival, lent.
    pub fn of(arrival: &'a Arrival) -> ArrivalView<'a>
        ensures { arrival_of result ≡ arrival.now }
    {
        match arrival {
            Arrival::Payload(payload) => ArrivalView::Payload(payload.as_slice()),
            Arrival::Oversize => ArrivalView::Oversize,
        }
    }
}

/// An arrival where it lies, with what it is answered on: the keys are lent.
#[derive(Clone, Copy)]
pub struct JobView<'a> {
    pub arrival: ArrivalView<'a>,
    pub keys: Option<&'a Keys>,
    pub revoked: Revocation<'a>,
    pub may_mint: bool,
    pub moment: Option<u64>,
}

impl<'a> JobView<'a> {
    /// The job, lent.
    pub fn of(job: &'a Job) -> JobView<'a>
        ensures { viewed result ≡ job.now }
    {
        JobView {
            arrival: ArrivalView::of(&job.arrival),
            keys: job.basis.keys.as_ref(),
            revoked: Revocation::Known(job.basis.is_revoked),
            may_mint: job.basis.may_mint,
            moment: job.basis.moment,
        }
    }
}

/// A frame of too great a length, without keys, leave to mint or moment: what stands in a place
/// that has no job yet.
impl Default for JobView<'_> {
    fn default() -> Self {
        JobView {
            arrival: ArrivalView::Oversize,
            keys: None,
            revoked: Revocation::Known(false),
            may_mint: false,
            moment: None,
        }
    }
}

/// The job of a payload under these terms. It takes no memory, and copies nothing.
pub fn job_view_of<'a>(terms: Terms<'a>, payload: &'a [u8]) -> JobView<'a>
    ensures { viewed result ≡ job_under (lent_terms terms.entry) (arrival.Payload payload.now) }
{
    JobView {
        arrival: ArrivalView::Payload(payload),
        keys: keys_named(terms, payload),
        revoked: Revocation::In(&terms.table.revoked),
        may_mint: terms.rights.may_mint,
        moment: terms.moment,
    }
}
