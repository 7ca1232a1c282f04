//! What is remembered of a verify, for those of the same token.

ghost use Rattle.std.specs.Prelude.{◌≡◌, IfOk, IfSome, true};
ghost use Rattle.mac_wire.specs.Reading.{request_of};
ghost use Rattle.mac_wire.specs.declared.reply.Reply.{Reply as PlainReply};
ghost use Rattle.mac_decide.specs.Answer as answers;
ghost use Rattle.mac_decide.specs.Asking.{asking_reply};
ghost use Rattle.mac_decide.specs.Prepared.{reply_to_job};
ghost use Rattle.mac_decide.specs.Revocation.{asked_revoked};
ghost use Rattle.mac_decide.specs.Seen.{is_minted_text};
ghost use Rattle.mac_decide.specs.Uses.{IsMintedText};
ghost use Rattle.mac_decide.specs.Viewed.{viewed, viewed_basis};

use crate::asking::Asking;
use crate::job_view::{ArrivalView, JobView};
use crate::looking::{Sight, asking_of, look_at_job};
use crate::part::MintedText;
use crate::seen::{SEEN_MAX, SeenTokens};
use crate::signer::{find_signer, likely_signer};
use crate::uses::KeyUse;
use mac_keys::Keys;
use mac_wire::{NoMemory, Reply, Request};
use std::alloc::Global;

/// The reply to a job, where that is known and nothing is hashed or read as a token: to a verify of
/// a token that the memory has, and to what asks nothing.
pub fn recall(
    seen: &SeenTokens,
    alloc: Global,
    job: &JobView<'_>,
) -> Result<Option<Reply>, NoMemory>
    ensures { IfOk result (λ told. IfSome told (λ reply.
        reply ≡ reply_to_job (viewed job.now))) }
{
    match look_at_job(seen, alloc, job)? {
        Sight::Told(reply) => Ok(Some(reply)),
        Sight::Asked(_) => Ok(None),
    }
}

/// Remembers the token of a verify that was answered elsewhere, where the reply to its job tells
/// that it is minted.
#[tactic(auto, unfolding(crate::specs::Answer::reply_of))]
pub fn remember_answer(seen: &SeenTokens, alloc: Global, job: &JobView<'_>, reply: &Reply)
    requires { reply.now ≡ reply_to_job (viewed job.now) }
{
    match job.arrival {
        ArrivalView::Payload(payload) => remember_payload(seen, alloc, payload, job, reply),
        ArrivalView::Oversize => {}
    }
}

/// The same of what a payload asks on the basis of its job.
fn remember_payload(
    seen: &SeenTokens,
    alloc: Global,
    payload: &[u8],
    job: &JobView<'_>,
    reply: &Reply,
)
    requires { reply.now
        ≡ answers.asked_reply (request_of payload.now) (record (viewed_basis job.now) {
          is_revoked = asked_revoked job.now.revoked (request_of payload.now);
        }) }
{
    match asking_of(payload, job) {
        Some(asking) => remember(seen, alloc, &asking, reply),
        None => {}
    }
}

/// Remembers the token of a verify whose reply tells that it is minted. It is read and hashed once
/// it is kept, and no sooner.
fn remember(seen: &SeenTokens, alloc: Global, asking: &Asking<'_>, reply: &Reply)
    requires { reply.now ≡ asking_reply asking.now }
{
    if !tells_minted(reply) {
        return;
    }
    let Some(keyed) = keyed_text(asking) else {
        return;
    };
    if let Some(mark) = seen.mark_again(keyed.text) {
        if let Ok(found) = signed_text(alloc, &keyed) {
            seen.keep(alloc, mark, &found);
        }
    }
}

/// Counts a request that was answered elsewhere at the name of its key. Where that has two keys, it
/// isn't looked at which one gave a signature.
pub fn count_answer(seen: &SeenTokens, alloc: Global, job: &JobView<'_>, reply: &Reply) {
    let ArrivalView::Payload(payload) = job.arrival else {
        return;
    };
    if let Some(asking) = asking_of(payload, job) {
        match keyed_text(&asking) {
            Some(KeyedText { name, keys, .. }) => {
                let used = KeyUse::of_verify(reply, likely_signer(keys));
                seen.count(alloc, name, used);
            }
            None => count_mint(seen, alloc, &asking, reply),
        }
    }
}

/// Counts a request that was answered at the name of its key, and remembers the token of a verify
/// whose reply tells that it is minted.
pub(crate) fn note(seen: &SeenTokens, alloc: Global, asking: &Asking<'_>, reply: &Reply)
    requires { reply.now ≡ asking_reply asking.now }
{
    if seen.is_idle() {
        return;
    }
    match keyed_text(asking) {
        Some(keyed) if tells_minted(reply) => note_minted(seen, alloc, &keyed, reply),
        Some(keyed) => seen.count(alloc, keyed.name, KeyUse::Refused),
        None => count_mint(seen, alloc, asking, reply),
    }
}

/// The same of a verify whose reply tells that its token is minted. Of one that is too long to be
/// remembered it isn't looked at which of two keys signed it.
fn note_minted(seen: &SeenTokens, alloc: Global, keyed: &KeyedText<'_>, reply: &Reply)
    requires { is_minted_text keyed.now.keys.now keyed.now.text.now ≡ true }
{
    if keyed.text.len() > SEEN_MAX {
        let used = KeyUse::of_verify(reply, likely_signer(keyed.keys));
        seen.count(alloc, keyed.name, used);
    } else if let Ok(found) = signed_text(alloc, keyed) {
        seen.count(alloc, found.name, KeyUse::of_verify(reply, found.signer));
        seen.note(alloc, &found);
    }
}

/// Counts a request at the name of its key, if it is a mint whose name has one.
fn count_mint(seen: &SeenTokens, alloc: Global, asking: &Asking<'_>, reply: &Reply) {
    if let (Request::Mint { key, .. }, Some(_)) = (&asking.request, asking.keys) {
        seen.count(alloc, key, KeyUse::of_mint(reply));
    }
}

/// A text that is to be verified under the keys of a name.
#[derive(Clone, Copy)]
struct KeyedText<'a> {
    name: &'a [u8],
    keys: &'a Keys,
    text: &'a [u8],
}

/// What is to be verified, if it is a verify whose name has keys. A reply to it that tells so is
/// given to a token that is minted.
fn keyed_text<'a>(asking: &Asking<'a>) -> Option<KeyedText<'a>>
    ensures { IfSome result (λ keyed. (reply : PlainReply) → reply ≡ asking_reply asking.now
        → answers.tells_minted reply ≡ true
        → is_minted_text keyed.keys.now keyed.text.now ≡ true) }
{
    match (&asking.request, asking.keys) {
        (
            Request::Verify {
                key: name,
                token: text,
                ..
            },
            Some(keys),
        ) => Some(KeyedText { name, keys, text }),
        (
            Request::VerifyNow {
                key: name,
                token: text,
                ..
            },
            Some(keys),
        ) => Some(KeyedText { name, keys, text }),
        _ => None,
    }
}

/// A text whose token is minted, with the key that signed it.
fn signed_text<'a>(alloc: Global, keyed: &KeyedText<'a>) -> Result<MintedText<'a>, NoMemory>
    requires { is_minted_text keyed.now.keys.now keyed.now.text.now ≡ true }
    ensures minted { IfOk result IsMintedText }
    ensures text { IfOk result (λ found. found.text.now ≡ keyed.now.text.now) }
    ensures name { IfOk result (λ found. found.name.now ≡ keyed.now.name.now) }
{
    let KeyedText { name, keys, text } = *keyed;
    let signer = find_signer(alloc, keys, text)?;
    Ok(MintedText {
        name,
        keys,
        text,
        signer,
    })
}

/// Whether the reply to a verify tells that one of the keys gives the signature.
pub(crate) fn tells_minted(reply: &Reply) -> bool
    ensures { result ≡ answers.tells_minted reply.now }
{
    match reply {
        Reply::Granted | Reply::GrantedTo { .. } | Reply::Unsatisfied(_) => true,
        Reply::Token(_) | Reply::Refused(_) => false,
    }
}
