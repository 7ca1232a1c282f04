//! A worker that posts other answers than are due, or in another order.

ghost use Rattle.std.specs.Prelude.{◌≡◌, IfSome};
ghost use Rattle.std.specs.Arc.{arc_value};
ghost use Rattle.mac_queue.specs.Pass.{AreFresh};

use crate::fault::RunFault;
use crate::flags::TURNS;
use crate::report::{Report, fault_number};
use crate::serving::{Caller, Devices, ROOM, attended};
use crate::streams::{FIRST_REPLY, TWO_FRAMES, TWO_REPLIES, key_table};
use mac_decide::Macaroons;
use mac_order::{Answer, Service};
use mac_queue::{Claim, Desk, Mailbox, Post, Queue, QueuePass, Ticket};
use std::alloc::Global;
use std::sync::{Arc, Wait};
use std::thread;
use std::thread::Threads;

/// What the worker posts, once it has the tickets of both frames.
#[derive(Clone, Copy)]
enum Posts {
    /// The second answer, and then the first.
    Backwards,
    /// The second's answer at the first place.
    OthersFirst,
    /// The first's answer at the second place, and then at its own.
    OthersLast,
    /// The first answer twice.
    Twice,
    /// The first answer at a place that is 200 away.
    FarAway,
    /// That memory ran out at the first place.
    Failed,
}

/// The names of what it posts.
const POSTS: &[(&str, Posts)] = &[
    ("backwards", Posts::Backwards),
    ("others_first", Posts::OthersFirst),
    ("others_last", Posts::OthersLast),
    ("twice", Posts::Twice),
    ("far_away", Posts::FarAway),
    ("failed", Posts::Failed),
];

fn posts_of(name: &str) -> Result<Posts, RunFault> {
    for (known, posts) in POSTS {
        if *known == name {
            return Ok(*posts);
        }
    }
    Err(RunFault::NoRun)
}

/// What comes of two frames by a worker that posts so.
pub(crate) fn false_worker_told<R>(rt: &R, alloc: Global, name: &str) -> Result<String, RunFault>
where
    R: Threads + Wait + Sync,
{
    let posts = posts_of(name)?;
    let stream = Vec::from_slice(alloc, TWO_FRAMES)?;
    let mut devices = Devices::new(alloc, stream, ROOM, 64)?;
    let report = by_hand(rt, alloc, &mut devices, posts)?;
    posted_text(alloc, posts, report, devices.sink.bytes())
}

/// The fault, and which replies were sent.
fn posted_text(
    alloc: Global,
    posts: Posts,
    report: Report,
    bytes: &[u8],
) -> Result<String, RunFault> {
    if !TWO_REPLIES.starts_with(bytes) {
        return Err(RunFault::Wrong);
    }
    let fault = fault_number(report.fault);
    let sent = sent_text(posts, report)?;
    Ok(format!(in alloc; "fault {fault} {sent}")?)
}

/// Serves a connection at a queue that no worker serves, while another pass claims and posts.
fn by_hand<R: Threads + Wait + Sync>(
    rt: &R,
    alloc: Global,
    devices: &mut Devices,
    posts: Posts,
) -> Result<Report, RunFault> {
    let keys = &key_table(alloc)?;
    let (queue, passes) = Queue::<Macaroons>::new(alloc)?;
    let Some((first, pass)) = two_of(&queue, passes) else {
        return Err(RunFault::Wrong);
    };
    let queue = Arc::new(alloc, queue)?;
    let Ok(desk) = Desk::new(alloc, Arc::try_clone(&queue)?, first) else {
        return Err(RunFault::Refused);
    };
    let caller = Caller { devices, desk };
    let (told, done) = thread::join(
        rt,
        move || attended(rt, alloc, keys, caller),
        move || -> Result<(), RunFault>
            requires { pass.queue ≡ (arc_value queue).tickets }
        { claim_and_post(rt, alloc, &queue, pass, posts) },
    );
    done?;
    Ok(told.report)
}

/// The first two passes of a queue.
fn two_of(
    queue: &Queue<Macaroons>,
    passes: Vec<QueuePass<Macaroons>>,
) -> Option<(QueuePass<Macaroons>, QueuePass<Macaroons>)>
    requires { AreFresh queue.now.tickets passes.items }
    ensures { IfSome result (λ two.
        (two.0.queue ≡ queue.now.tickets) × (two.1.queue ≡ queue.now.tickets)) }
{
    let _queue = queue;
    let mut passes = passes.into_iter();
    let first = passes.next()?;
    let second = passes.next()?;
    Some((first, second))
}

/// Which replies were sent. Where the first answer comes twice, its reply may be out before the
/// second is seen.
fn sent_text(posts: Posts, report: Report) -> Result<&'static str, RunFault> {
    let first = FIRST_REPLY as u64;
    let both = TWO_REPLIES.len() as u64;
    match (posts, report.sent, report.written) {
        (Posts::Twice, 0, 0) => Ok("sent the first or none"),
        (Posts::Twice, 1, written) if written == first => Ok("sent the first or none"),
        (_, 0, 0) => Ok("sent none"),
        (_, 1, written) if written == first => Ok("sent the first"),
        (_, 2, written) if written == both => Ok("sent both"),
        _ => Err(RunFault::Wrong),
    }
}

/// Claims both tickets, and posts.
fn claim_and_post<R: Wait>(
    rt: &R,
    alloc: Global,
    queue: &Queue<Macaroons>,
    mut pass: QueuePass<Macaroons>,
    posts: Posts,
) -> Result<(), RunFault>
    requires { pass.queue ≡ queue.now.tickets }
{
    let first = next_ticket(rt, queue, &mut pass)?;
    let second = next_ticket(rt, queue, &mut pass)?;
    post_all(rt, alloc, &first, &second, posts)
}

/// The next ticket, looked for some ten million times.
fn next_ticket<R: Wait>(
    rt: &R,
    queue: &Queue<Macaroons>,
    pass: &mut QueuePass<Macaroons>,
) -> Result<Ticket<Macaroons>, RunFault>
    requires { pass.old.queue ≡ queue.now.tickets }
    ensures { pass.new.queue ≡ pass.old.queue }
{
    for _ in 0..TURNS {
        if let Claim::Got(ticket) = queue.claim(rt, pass) {
            return Ok(ticket);
        }
        thread::yield_now();
    }
    Err(RunFault::Wrong)
}

fn post_all<R: Wait>(
    rt: &R,
    alloc: Global,
    first: &Ticket<Macaroons>,
    second: &Ticket<Macaroons>,
    posts: Posts,
) -> Result<(), RunFault> {
    match posts {
        Posts::Backwards => {
            post(rt, alloc, 1, second)?;
            post(rt, alloc, 0, first)
        }
        Posts::OthersFirst => post(rt, alloc, 0, second),
        Posts::OthersLast => {
            post(rt, alloc, 1, first)?;
            post(rt, alloc, 0, first)
        }
        Posts::Twice => {
            post(rt, alloc, 0, first)?;
            post(rt, alloc, 0, first)
        }
        Posts::FarAway => post(rt, alloc, 200, first),
        Posts::Failed => {
            deliver(rt, &first.mail, Post::Failed(0));
            Ok(())
        }
    }
}

/// Posts the answer to a ticket's job at a place. A mailbox that is closed drops it.
fn post<R: Wait>(
    rt: &R,
    alloc: Global,
    place: u64,
    of: &Ticket<Macaroons>,
) -> Result<(), RunFault> {
    let job = Macaroons::copy(alloc, &of.job)?;
    let Ok(answer) = Answer::make(alloc, job) else {
        return Err(RunFault::Refused);
    };
    deliver(rt, &of.mail, Post::Answered(place, answer));
    Ok(())
}

/// Delivers the post, and wakes who waits for it.
fn deliver<R: Wait>(rt: &R, mail: &Mailbox<Macaroons>, post: Post<Macaroons>) {
    let _ = mail.deliver(rt, post);
    mail.ring();
}
