//! The replies to many jobs, from several threads.

ghost use Rattle.std.specs.Prelude.{◌≡◌, ◌<◌, IfOk, map};
ghost use Rattle.mac_decide.specs.Viewed.{viewed};
ghost use Rattle.mac_plain.specs.Shares.{AreRepliesTo};

use crate::NoMemory;
use mac_decide::{JobView, SeenTokens, answer_views};
use mac_wire::Reply;
use std::alloc::Global;
use std::thread::{Threads, map_chunks};

/// The replies to the jobs, in order. So many threads answer as many each, beside the memory of
/// tokens that all share; where the system gives fewer, they take longer.
pub fn answer_shared<'a, R: Threads + Sync>(
    rt: &R,
    alloc: Global,
    seen: &SeenTokens,
    jobs: &[JobView<'a>],
    threads: usize,
) -> Result<Vec<Reply>, NoMemory>
    requires { 0 < threads }
    ensures { IfOk result (λ replies. AreRepliesTo (map viewed jobs.now) replies.items) }
{
    let size = jobs.len().div_ceil(threads).max(1);
    let answer = |_: usize, share: &[JobView<'_>]| -> Result<Vec<Reply>, NoMemory>
        ensures { IfOk result (λ replies. AreRepliesTo (map viewed share.now) replies.items) }
    { answer_views(seen, alloc, share) };
    let shares = map_chunks(rt, alloc, jobs, size, &answer)?;
    let mut replies = Vec::with_capacity(alloc, jobs.len())?;
    for share in shares {
        replies.append(&mut share?)?;
    }
    Ok(replies)
}
