//! Single calls of a queue, a mailbox and a pool, and whether they answer as they are to.

ghost use Rattle.std.specs.Prelude.{◌≡◌, IfOk, IfSome};
ghost use Rattle.std.specs.Arc.{arc_value};
ghost use Rattle.mac_queue.specs.Pass.{AreFresh};

use crate::digits::{Digits, REFUSED};
use crate::drive::{all_home, answered, books_if, desk_of, desks_of, pool_of, put_run};
use crate::fault::RunFault;
use crate::runs::Outcome;
use mac_pool::{
    Claim, Desk, DeskFault, Mailbox, PoolFault, Post, PutFault, Queue, QueuePass, Taker,
};
use mac_queue::Delivery;
use std::alloc::Global;
use std::sync::atomic::AtomicBool;
use std::sync::atomic::Ordering::SeqCst;
use std::sync::{Arc, Wait};
use std::thread;
use std::thread::Threads;

/// How many desks a pool has.
const DESKS: usize = 64;

/// How many tickets a queue holds.
const TICKETS: u64 = 8192;

/// How many posts a mailbox holds.
const POSTS: u64 = 128;

/// The row of a name.
pub(crate) fn row<R>(rt: &R, alloc: Global, name: &str) -> Result<Outcome, RunFault>
where
    R: Threads + Wait + Copy + Send + Sync + 'static,
{
    match name {
        "full" => full(rt, alloc),
        "closed" => closed(rt, alloc),
        "refused_work" => refused_work(rt, alloc),
        "exchange" => exchange(rt, alloc),
        "desks" => desks(rt, alloc),
        "desk_out" => desk_out(rt, alloc),
        "mailbox" => mailbox(rt, alloc),
        "rung" => rung(rt, alloc),
        _ => Err(RunFault::NoRun),
    }
}

pub(crate) fn right_if(is_right: bool) -> Result<Outcome, RunFault> {
    if is_right {
        Ok(Outcome::Right)
    } else {
        Err(RunFault::Wrong)
    }
}

/// Puts at a queue from which nobody claims, until one is refused.
fn full<R: Wait>(rt: &R, alloc: Global) -> Result<Outcome, RunFault> {
    let Line { queue, first, .. } = Line::new(alloc)?;
    let mut desk = desk_at(alloc, &queue, first)?;
    right_if(fills(rt, &mut desk))
}

/// A queue that no worker serves, and two of its passes.
#[derive(Drop)]
struct Line {
    queue: Arc<Queue<Digits>, Global>,
    first: QueuePass<Digits>,
    second: QueuePass<Digits>,
    ghost one: { first.queue ≡ (arc_value queue).tickets },
    ghost other: { second.queue ≡ (arc_value queue).tickets },
}

impl Line {
    fn new(alloc: Global) -> Result<Line, RunFault> {
        let (queue, passes) = Queue::<Digits>::new(alloc)?;
        let Some((first, second)) = two_of(&queue, passes) else {
            return Err(RunFault::Wrong);
        };
        let queue = Arc::new(alloc, queue)?;
        Ok(Line {
            queue,
            first,
            second,
        })
    }
}

/// A desk with this pass, if there is memory.
fn desk_at(
    alloc: Global,
    queue: &Arc<Queue<Digits>, Global>,
    pass: QueuePass<Digits>,
) -> Result<Desk<Digits>, RunFault>
    requires { pass.queue ≡ (arc_value queue.now).tickets }
    ensures { IfOk result (λ desk. desk.putter.queue ≡ (arc_value queue.now).tickets) }
{
    match Desk::new(alloc, Arc::try_clone(queue)?, pass) {
        Ok(desk) => Ok(desk),
        Err(_) => Err(RunFault::Refused),
    }
}

/// Whether 8,192 jobs go in and the next is handed back.
fn fills<R: Wait>(rt: &R, desk: &mut Desk<Digits>) -> bool
    ensures { desk.new.putter.queue ≡ desk.old.putter.queue }
{
    let is_put = put_run(rt, &mut desk.putter, 0, TICKETS);
    is_put && matches!(desk.putter.put(rt, 7, 8), Err((PutFault::Full(_), 8)))
}

/// Puts at a closed queue, of a ticket and of a job.
fn closed<R: Wait>(rt: &R, alloc: Global) -> Result<Outcome, RunFault> {
    let Line {
        queue,
        first,
        mut second,
    } = Line::new(alloc)?;
    let mut desk = desk_at(alloc, &queue, first)?;
    let is_put = put_run(rt, &mut desk.putter, 5, 2);
    let is_refused = refuses_a_ticket(rt, &queue, &mut second);
    let is_late = matches!(desk.putter.put(rt, 7, 8), Err((PutFault::Closed(_), 8)));
    let is_left = claims(rt, &queue, &mut second, 6);
    right_if(is_put && is_refused && is_late && is_left)
}

/// The first two passes of a queue.
fn two_of(
    queue: &Queue<Digits>,
    passes: Vec<QueuePass<Digits>>,
) -> Option<(QueuePass<Digits>, QueuePass<Digits>)>
    requires { AreFresh queue.now.tickets passes.items }
    ensures { IfSome result (λ two.
        (two.0.queue ≡ queue.now.tickets) × (two.1.queue ≡ queue.now.tickets)) }
{
    let _queue = queue;
    let mut passes = passes.into_iter();
    let first = passes.next()?;
    let second = passes.next()?;
    Some((first, second))
}

/// Claims a ticket, closes the queue and puts the ticket again. Whether it is handed back.
fn refuses_a_ticket<R: Wait>(rt: &R, queue: &Queue<Digits>, pass: &mut QueuePass<Digits>) -> bool
    requires { pass.old.queue ≡ queue.now.tickets }
    ensures { pass.new.queue ≡ pass.old.queue }
{
    let Claim::Got(ticket) = queue.claim(rt, pass) else {
        return false;
    };
    queue.close();
    match queue.put(rt, pass, ticket) {
        Err((PutFault::Closed(_), back)) => back.place == 5 && back.job == 5,
        _ => false,
    }
}

/// Whether the ticket of this place is claimed, and the closed queue is empty then.
fn claims<R: Wait>(rt: &R, queue: &Queue<Digits>, pass: &mut QueuePass<Digits>, place: u64) -> bool
    requires { pass.old.queue ≡ queue.now.tickets }
{
    let is_got = match queue.claim(rt, pass) {
        Claim::Got(ticket) => ticket.place == place,
        _ => false,
    };
    is_got && matches!(queue.claim(rt, pass), Claim::Closed(_))
}

/// One worker meets want of memory at the second of three jobs, and goes on.
fn refused_work<R>(rt: &R, alloc: Global) -> Result<Outcome, RunFault>
where
    R: Threads + Wait + Copy + Send + 'static,
{
    let Ok(mut pool) = pool_of(rt, alloc, 1) else {
        return Err(RunFault::Refused);
    };
    let mut desk = desk_of(alloc, &mut pool)?;
    let is_right = fails_once(rt, &mut desk);
    pool.home(desk);
    books_if(rt, pool, is_right)
}

fn fails_once<R: Wait>(rt: &R, desk: &mut Desk<Digits>) -> bool
    ensures { desk.new.putter.queue ≡ desk.old.putter.queue }
{
    let is_put = desk.putter.put(rt, 0, 5).is_ok()
        && desk.putter.put(rt, 1, REFUSED).is_ok()
        && desk.putter.put(rt, 2, 7).is_ok();
    is_put
        && answered(desk.taker.wait(rt)) == 0
        && matches!(desk.taker.wait(rt), Some(Post::Failed(1)))
        && answered(desk.taker.wait(rt)) == 2
}

/// Two desks put two jobs and three, each in a thread of its own; then their passes claim three.
fn exchange<R>(rt: &R, alloc: Global) -> Result<Outcome, RunFault>
where
    R: Threads + Wait + Sync,
{
    let Line {
        queue,
        first,
        second,
    } = Line::new(alloc)?;
    let one = desk_at(alloc, &queue, first)?;
    let other = desk_at(alloc, &queue, second)?;
    let ((is_put, one), (is_other_put, other)) = thread::join(
        rt,
        move || -> (bool, Desk<Digits>)
            ensures { result.1.putter.queue ≡ one.putter.queue }
        { put_at(rt, one, 2) },
        move || -> (bool, Desk<Digits>)
            ensures { result.1.putter.queue ≡ other.putter.queue }
        { put_at(rt, other, 3) },
    );
    let is_claimed = claims_by(rt, &queue, one.into_pass(), 2)
        && claims_by(rt, &queue, other.into_pass(), 1);
    right_if(is_put && is_other_put && is_claimed)
}

/// Puts so many jobs at a desk.
fn put_at<R: Wait>(rt: &R, mut desk: Desk<Digits>, count: u64) -> (bool, Desk<Digits>)
    ensures { result.1.putter.queue ≡ desk.putter.queue }
{
    let is_put = put_run(rt, &mut desk.putter, 0, count);
    (is_put, desk)
}

/// Whether so many tickets are claimed by a pass.
fn claims_by<R: Wait>(
    rt: &R,
    queue: &Queue<Digits>,
    mut pass: QueuePass<Digits>,
    count: u64,
) -> bool
    requires { pass.queue ≡ queue.now.tickets }
{
    let mut is_claimed = true;
    for _ in 0..count {
        is_claimed &= matches!(queue.claim(rt, &mut pass), Claim::Got(_));
    }
    is_claimed
}

/// All desks, what the next one meets, and one once they are home.
fn desks<R>(rt: &R, alloc: Global) -> Result<Outcome, RunFault>
where
    R: Threads + Wait + Copy + Send + 'static,
{
    let Ok(mut pool) = pool_of(rt, alloc, 1) else {
        return Err(RunFault::Refused);
    };
    let desks = desks_of(alloc, &mut pool, DESKS);
    let are_all = desks.len() == DESKS;
    let is_out = matches!(pool.desk(alloc), Err(DeskFault::AllOut));
    all_home(&mut pool, desks);
    let desk = desk_of(alloc, &mut pool)?;
    pool.home(desk);
    books_if(rt, pool, are_all && is_out)
}

/// A number of workers that no pool has.
pub(crate) fn start<R>(rt: &R, alloc: Global, workers: usize) -> Result<Outcome, RunFault>
where
    R: Threads + Wait + Copy + Send + 'static,
{
    right_if(matches!(pool_of(rt, alloc, workers), Err(PoolFault::Count)))
}

/// An end while a desk is out, and once it is home.
fn desk_out<R>(rt: &R, alloc: Global) -> Result<Outcome, RunFault>
where
    R: Threads + Wait + Copy + Send + 'static,
{
    let Ok(mut pool) = pool_of(rt, alloc, 2) else {
        return Err(RunFault::Refused);
    };
    let desk = desk_of(alloc, &mut pool)?;
    match pool.stop(rt) {
        Ok(_) => Err(RunFault::Wrong),
        Err(mut pool) => {
            pool.home(desk);
            books_if(rt, pool, true)
        }
    }
}

/// A mailbox is filled, taken from by two sides, closed, and taken from again.
fn mailbox<R: Wait>(rt: &R, alloc: Global) -> Result<Outcome, RunFault> {
    let Line {
        queue,
        first,
        mut second,
    } = Line::new(alloc)?;
    let Desk {
        mut putter,
        mut taker,
    } = desk_at(alloc, &queue, first)?;
    let is_put = put_run(rt, &mut putter, 0, 1);
    let is_right = match queue.claim(rt, &mut second) {
        Claim::Got(ticket) => is_filled(rt, &ticket.mail) && is_taken(rt, &ticket.mail, &mut taker),
        _ => false,
    };
    right_if(is_put && is_right)
}

/// Whether 128 posts go in and the next is handed back.
fn is_filled<R: Wait>(rt: &R, mail: &Mailbox<Digits>) -> bool {
    let mut is_in = true;
    for place in 0..POSTS {
        is_in &= matches!(
            mail.try_deliver(rt, Post::Failed(place)),
            Ok(Delivery::Posted(_))
        );
    }
    is_in
        && matches!(
            mail.try_deliver(rt, Post::Failed(POSTS)),
            Err(Post::Failed(POSTS))
        )
}

/// Whether posts are taken in order, and none goes in after a close.
fn is_taken<R: Wait>(rt: &R, mail: &Mailbox<Digits>, taker: &mut Taker<Digits>) -> bool {
    let is_first = matches!(taker.take(rt), Some(Post::Failed(0)));
    let is_second = matches!(taker.take(rt), Some(Post::Failed(1)));
    taker.close();
    let is_late = matches!(
        mail.try_deliver(rt, Post::Failed(9)),
        Ok(Delivery::Closed(_))
    );
    is_first && is_second && is_late && matches!(taker.take(rt), Some(Post::Failed(2)))
}

/// A taker sleeps, and is rung for a flag and no post. Once it is closed it waits no more.
fn rung<R>(rt: &R, alloc: Global) -> Result<Outcome, RunFault>
where
    R: Threads + Wait + Sync,
{
    let Line { queue, first, .. } = Line::new(alloc)?;
    let Desk { putter, mut taker } = desk_at(alloc, &queue, first)?;
    let flag = AtomicBool::new(false);
    let (has_post, _) = thread::join(
        rt,
        || has_post_at(rt, &mut taker, &flag),
        || {
            flag.store(true, SeqCst);
            putter.ring();
        },
    );
    taker.close();
    right_if(!has_post && taker.wait(rt).is_none())
}

/// Waits for the flag. Whether a post came in the meantime.
fn has_post_at<R: Wait>(rt: &R, taker: &mut Taker<Digits>, flag: &AtomicBool) -> bool {
    for _ in rt.forever() {
        let notice = taker.announce();
        if flag.load(SeqCst) {
            taker.withdraw(notice);
            return taker.take(rt).is_some();
        }
        taker.sleep(rt, notice);
    }
    unreachable!()
}
