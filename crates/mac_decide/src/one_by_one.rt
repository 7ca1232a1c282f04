//! The replies to few requests, each by itself: a run with all its places costs more than they do.

ghost use Rattle.std.specs.Prelude.{◌≡◌, ◌≤◌, IfOk, length, map};
ghost use Rattle.mac_wire.specs.Reply.{IsReply};
ghost use Rattle.mac_decide.specs.Asking.{asking_reply};
ghost use Rattle.mac_decide.specs.Prepared.{reply_to_job};
ghost use Rattle.mac_decide.specs.Seen.{due_of};
ghost use Rattle.mac_decide.specs.Viewed.{viewed};

use crate::asking::Asking;
use crate::job_view::JobView;
use crate::looking::{Sight, look_at, look_at_job};
use crate::preparing::prepare;
use crate::remembering::note;
use crate::rooms::{RUN, Rooms};
use crate::seen::SeenTokens;
use arrayvec::ArrayVec;
use mac_wire::{NoMemory, Reply};
use std::alloc::Global;

/// The reply to a request, beside a memory of tokens. What no arrival carries, because it came in
/// another way, is answered so; an arrival is answered the same, once it is parsed.
pub fn answer_request(
    seen: &SeenTokens,
    alloc: Global,
    asking: Asking<'_>,
) -> Result<Reply, NoMemory>
    ensures reply { IfOk result (λ reply. reply ≡ asking_reply asking.entry) }
    ensures sendable { IfOk result IsReply }
{
    let sight = look_at(seen, alloc, asking)?;
    reply_by_sight(&mut Vec::new(alloc), seen, alloc, sight)
}

/// The reply to one job, where it lies, as [`crate::answer_run`] gives it for a run of one.
pub fn answer_one(rooms: &mut Rooms, alloc: Global, job: &JobView<'_>) -> Result<Reply, NoMemory>
    ensures reply { IfOk result (λ reply. reply ≡ reply_to_job (viewed job.now)) }
    ensures sendable { IfOk result IsReply }
{
    let sight = look_at_job(&rooms.seen, alloc, job)?;
    rooms.asked = match &sight {
        Sight::Told(_) => 0,
        Sight::Asked(_) => 1,
    };
    let reply = reply_by_sight(&mut rooms.held[0], &rooms.seen, alloc, sight);
    rooms.give_back(alloc);
    reply
}

/// The replies to what was seen, in order.
pub(crate) fn replies_one_by_one<'a>(
    rooms: &mut [Vec<u8>],
    seen: &SeenTokens,
    alloc: Global,
    sights: ArrayVec<Sight<'a>, RUN>,
) -> Result<ArrayVec<Reply, RUN>, NoMemory>
    requires { length sights.items ≤ length rooms.old }
    ensures { IfOk result (λ replies. replies.items ≡ map due_of sights.entry.items) }
{
    let mut replies = ArrayVec::new();
    for (room, sight) in rooms.iter_mut().zip(sights) {
        replies.push(reply_by_sight(room, seen, alloc, sight)?);
    }
    Ok(replies)
}

/// The reply to what was seen.
fn reply_by_sight(
    room: &mut Vec<u8>,
    seen: &SeenTokens,
    alloc: Global,
    sight: Sight<'_>,
) -> Result<Reply, NoMemory>
    ensures { IfOk result (λ reply. reply ≡ due_of sight.entry) }
{
    match sight {
        Sight::Told(reply) => Ok(reply),
        Sight::Asked(asking) => {
            let reply = prepare(room, alloc, &asking)?.into_reply(alloc)?;
            note(seen, alloc, &asking, &reply);
            Ok(reply)
        }
    }
}
