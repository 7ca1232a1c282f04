//! What is known of a reply at first sight, before anything is hashed.

ghost use Rattle.std.specs.Prelude.{◌≡◌, ◌+◌, ◌++◌, ◌≤◌, IfOk, OnOk, IfNone, IfSome, None, length, map};
ghost use Rattle.mac_wire.specs.Reading.{request_of};
ghost use Rattle.mac_decide.specs.Answer as answers;
ghost use Rattle.mac_decide.specs.Asking.{asking_reply};
ghost use Rattle.mac_decide.specs.Prepared.{reply_to_job};
ghost use Rattle.mac_decide.specs.Revocation.{asked_revoked};
ghost use Rattle.mac_decide.specs.Seen.{due_of};
ghost use Rattle.mac_decide.specs.Viewed.{viewed, viewed_basis};

use crate::asking::Asking;
use crate::context::Context;
use crate::job_view::{ArrivalView, JobView};
use crate::reply::refused;
use crate::revocation::Telling;
use crate::rooms::RUN;
use crate::seen::SeenTokens;
use arrayvec::ArrayVec;
use mac_wire::{Grant, NoMemory, Refusal, Reply, Request, parse_request};
use std::alloc::Global;

/// What is known of a reply at first sight.
#[derive(Drop)]
pub(crate) enum Sight<'a> {
    /// The reply.
    Told(Reply),
    /// What asks for it, as it was parsed.
    Asked(Asking<'a>),
}

/// What stands in a place of a run that has no job.
impl Default for Sight<'_> {
    fn default() -> Self {
        Sight::Told(Reply::default())
    }
}

/// Puts what is known of the reply to each job behind what is known of others.
pub(crate) fn look_at_all<'a>(
    sights: &mut ArrayVec<Sight<'a>, RUN>,
    seen: &SeenTokens,
    alloc: Global,
    jobs: &[JobView<'a>],
) -> Result<(), NoMemory>
    requires { length sights.old.items + length jobs.now ≤ RUN }
    ensures sights { OnOk result (map due_of sights.new.items
        ≡ map due_of sights.old.items ++ map reply_to_job (map viewed jobs.now)) }
    ensures count { OnOk result
        (length sights.new.items ≡ length sights.old.items + length jobs.now) }
{
    for job in jobs {
        sights.push(look_at_job(seen, alloc, job)?);
    }
    Ok(())
}

/// How many replies are still asked for.
pub(crate) fn count_asked(sights: &[Sight<'_>]) -> usize {
    let mut count: usize = 0;
    for sight in sights {
        if let Sight::Asked(_) = sight {
            count = count.saturating_add(1);
        }
    }
    count
}

/// What is known of the reply to a job, whose payload is parsed here and nowhere else.
#[tactic(auto, unfolding(crate::specs::Answer::reply_of))]
pub(crate) fn look_at_job<'a>(
    seen: &SeenTokens,
    alloc: Global,
    job: &JobView<'a>,
) -> Result<Sight<'a>, NoMemory>
    ensures { IfOk result (λ sight. due_of sight ≡ reply_to_job (viewed job.now)) }
{
    match job.arrival {
        ArrivalView::Payload(payload) => look_at_payload(seen, alloc, payload, job),
        ArrivalView::Oversize => Ok(Sight::Told(refused(Refusal::FrameTooLong))),
    }
}

/// The same of what a payload asks on the basis of its job.
fn look_at_payload<'a>(
    seen: &SeenTokens,
    alloc: Global,
    payload: &'a [u8],
    job: &JobView<'a>,
) -> Result<Sight<'a>, NoMemory>
    ensures { IfOk result (λ sight. due_of sight
        ≡ answers.asked_reply (request_of payload.now) (record (viewed_basis job.now) {
          is_revoked = asked_revoked job.now.revoked (request_of payload.now);
        })) }
{
    match asking_of(payload, job) {
        Some(asking) => look_at(seen, alloc, asking),
        None => Ok(Sight::Told(refused(Refusal::BadRequest))),
    }
}

/// What a payload asks on the basis of its job; nothing where it is no request.
pub(crate) fn asking_of<'a>(payload: &'a [u8], job: &JobView<'a>) -> Option<Asking<'a>>
    ensures asks { IfSome result (λ asking. asking_reply asking
        ≡ answers.asked_reply (request_of payload.now) (record (viewed_basis job.now) {
          is_revoked = asked_revoked job.now.revoked (request_of payload.now);
        })) }
    ensures nothing { IfNone result (request_of payload.now ≡ None) }
{
    match parse_request(payload) {
        Some(request) => Some(Asking {
            request,
            keys: job.keys,
            revoked: job.revoked,
            may_mint: job.may_mint,
            moment: job.moment,
        }),
        None => None,
    }
}

/// What is known of the reply to a request: a verify of a token that the memory has is told.
pub(crate) fn look_at<'a>(
    seen: &SeenTokens,
    alloc: Global,
    asking: Asking<'a>,
) -> Result<Sight<'a>, NoMemory>
    ensures { IfOk result (λ sight. due_of sight ≡ asking_reply asking.entry) }
{
    if seen.is_none() {
        return Ok(Sight::Asked(asking));
    }
    match tell(seen, alloc, &asking)? {
        Some(reply) => Ok(Sight::Told(reply)),
        None => Ok(Sight::Asked(asking)),
    }
}

/// The reply to a verify of a token that the memory has.
fn tell(seen: &SeenTokens, alloc: Global, asking: &Asking<'_>) -> Result<Option<Reply>, NoMemory>
    ensures { IfOk result (λ told. IfSome told (λ r. r ≡ asking_reply asking.now)) }
{
    match (&asking.request, asking.keys, asking.moment) {
        (
            Request::Verify {
                key,
                token,
                moment,
                facts,
            },
            Some(keys),
            _,
        ) => {
            let facts = facts.walk();
            let moment = *moment;
            let telling = asking.telling(Grant::Bare, key);
            seen.reply(alloc, keys, token, telling, &Context { moment, facts })
        }
        (
            Request::VerifyNow {
                grant,
                key,
                token,
                facts,
            },
            Some(keys),
            Some(moment),
        ) => {
            let facts = facts.walk();
            let telling = asking.telling(*grant, key);
            seen.reply(alloc, keys, token, telling, &Context { moment, facts })
        }
        _ => Ok(None),
    }
}
