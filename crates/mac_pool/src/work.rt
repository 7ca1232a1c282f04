//! A worker: it claims tickets, works on them, and posts the answers.

ghost use Rattle.std.specs.Prelude.{◌≡◌, ◌+◌, ◌++◌, ◌≤◌, ◌<◌, ◌^◌, List, [], length, IfOk, IfSome, IfNone, OnOk, OnErr, OnSome};
ghost use Rattle.std.specs.VecDeque.{deque_len, deque_capacity};
ghost use Rattle.mac_queue.specs.Balance.{entry_of};
ghost use Rattle.mac_queue.specs.Pass.{with_claimed};
ghost use Rattle.mac_pool.specs.Parcel.{IsAnswerTo, AnswerEach, joined};
ghost use Rattle.mac_pool.specs.Working.{with_tickets, HasTurned, HasWorked};
ghost use Rattle.mac_pool.specs.declared.work.TheConstants.{TURN_MAX};

use crate::posting::{give_up, post_all, ring_all};
use mac_order::{Answer, NoMemory, Service};
use mac_queue::{Claim, Delivery, History, Mailbox, Post, Queue, QueuePass, Ticket};
use std::alloc::Global;
use std::collections::VecDeque;
use std::sync::{Arc, Wait};

/// The most tickets of a worker's turn.
pub const TURN_MAX: usize = 32;

/// What a worker leaves behind.
#[derive(Drop)]
pub struct Worked<S: Service> {
    /// Its pass.
    pub pass: QueuePass<S>,
    /// How many tickets it claimed.
    pub claimed: u64,
    /// What became of its posts, one for each of these. For contracts: it takes no room.
    pub deliveries: History<Delivery<S>>,
}

/// What stays of a ticket while its job is worked on.
#[derive(Drop)]
pub struct Label<S: Service> {
    pub place: u64,
    pub mail: Arc<Mailbox<S>, Global>,
}

/// A post on its way to a mailbox.
#[derive(Drop)]
pub struct Parcel<S: Service> {
    pub post: Post<S>,
    pub mail: Arc<Mailbox<S>, Global>,
}

type Tickets<S> = VecDeque<Ticket<S>>;

pub type Parcels<S> = VecDeque<Parcel<S>>;

pub type Mails<S> = VecDeque<Arc<Mailbox<S>, Global>>;

/// The room of a turn: what is claimed, what is to be posted, and the mailboxes that are to be
/// rung.
#[derive(Drop)]
pub struct TurnRoom<S: Service> {
    alloc: Global,
    tickets: Tickets<S>,
    parcels: Parcels<S>,
    owed: Mails<S>,
    ghost idle: { (tickets.items ≡ []) × (parcels.items ≡ []) × (owed.items ≡ []) },
    ghost room: { (TURN_MAX ≤ deque_capacity tickets)
        × (TURN_MAX ≤ deque_capacity parcels)
        × (TURN_MAX ≤ deque_capacity owed) },
}

impl<S: Service> TurnRoom<S> {
    fn new(alloc: Global) -> Result<TurnRoom<S>, NoMemory> {
        let tickets = VecDeque::with_capacity(alloc, TURN_MAX)?;
        let parcels = VecDeque::with_capacity(alloc, TURN_MAX)?;
        let owed = VecDeque::with_capacity(alloc, TURN_MAX)?;
        Ok(TurnRoom {
            alloc,
            tickets,
            parcels,
            owed,
        })
    }
}

/// Claims tickets and posts their answers until the queue is closed and empty. A full mailbox is
/// waited for; at a closed one the post is dropped.
pub fn worker<S: Service, R: Wait>(
    rt: &R,
    alloc: Global,
    queue: &Queue<S>,
    mut pass: QueuePass<S>,
) -> Worked<S>
    requires { pass.queue ≡ queue.now.tickets }
    ensures { HasWorked pass result.claimed result.pass result.deliveries }
{
    queue.enter();
    let mut claimed = 0;
    let mut deliveries = History::new();
    let mut room = TurnRoom::new(alloc).ok();
    for _ in rt.forever() {
        let ticket = match next_ticket(rt, queue, &mut pass) {
            Some(ticket) => ticket,
            None => {
                queue.leave();
                return Worked {
                    pass,
                    claimed,
                    deliveries,
                };
            }
        };
        claimed += 1;
        match &mut room {
            Some(turn) => {
                let book = &mut deliveries;
                claimed += turn_from(rt, queue, &mut pass, turn, ticket, book);
            }
            None => {
                deliveries.add(&give_up(rt, ticket));
                room = TurnRoom::new(alloc).ok();
            }
        }
    }
    unreachable!()
}

/// Claims the oldest ticket, and sleeps while there is none. `None` once the queue is closed and
/// empty.
fn next_ticket<S: Service, R: Wait>(
    rt: &R,
    queue: &Queue<S>,
    pass: &mut QueuePass<S>,
) -> Option<Ticket<S>>
    requires { pass.old.queue ≡ queue.now.tickets }
    ensures claimed { IfSome result (λ ticket.
        pass.new ≡ with_claimed pass.old (entry_of ticket)) }
    ensures few { OnSome result (length pass.new.claimed < 2 ^ 62) }
    ensures same { IfNone result (pass.new ≡ pass.old) }
{
    for _ in rt.forever() {
        match queue.claim(rt, pass) {
            Claim::Got(ticket) => return Some(ticket),
            Claim::Closed(_) => return None,
            Claim::Empty(_) => {}
        }
        let notice = queue.announce();
        match queue.claim(rt, pass) {
            Claim::Got(ticket) => {
                queue.withdraw(notice);
                return Some(ticket);
            }
            Claim::Closed(_) => {
                queue.withdraw(notice);
                return None;
            }
            Claim::Empty(_) => queue.sleep(rt, notice),
        }
    }
    unreachable!()
}

/// Works on the ticket, and on others that wait, so many that no other worker idles for it.
/// Answers how many others.
fn turn_from<S: Service, R: Wait>(
    rt: &R,
    queue: &Queue<S>,
    pass: &mut QueuePass<S>,
    turn: &mut TurnRoom<S>,
    ticket: Ticket<S>,
    book: &mut History<Delivery<S>>,
) -> u64
    requires { pass.old.queue ≡ queue.now.tickets }
    ensures answered { HasTurned ticket pass.old result pass.new book.old book.new }
    ensures few { result ≤ TURN_MAX }
{
    turn.tickets.push_back_reserved(ticket);
    let waiting = queue.waiting(rt, pass);
    let others = turn_size(waiting, queue.workers()) - 1;
    let claimed = claim_more(rt, queue, pass, others, &mut turn.tickets);
    if waiting > others {
        queue.ring();
    }
    answer_all(turn.alloc, &mut turn.tickets, &mut turn.parcels);
    post_all(rt, &mut turn.parcels, &mut turn.owed, book);
    ring_all(&mut turn.owed);
    claimed
}

/// How many tickets a turn takes, of which one is claimed and so many wait.
fn turn_size(waiting: usize, workers: u64) -> usize
    ensures least { 1 ≤ result }
    ensures most { result ≤ TURN_MAX }
{
    let share = waiting.saturating_add(1) as u64 / workers.max(1);
    let share = if share < TURN_MAX as u64 {
        share as usize
    } else {
        TURN_MAX
    };
    share.max(1)
}

/// Claims up to so many tickets more.
fn claim_more<S: Service, R: Wait>(
    rt: &R,
    queue: &Queue<S>,
    pass: &mut QueuePass<S>,
    most: usize,
    tickets: &mut Tickets<S>,
) -> u64
    requires queue { pass.old.queue ≡ queue.now.tickets }
    requires room { deque_len tickets.old + most ≤ deque_capacity tickets.old }
    ensures claimed { (got : List (Ticket S S.Job S.Reply)) × (length got ≡ result)
        × (tickets.new.items ≡ tickets.old.items ++ got)
        × (pass.new ≡ with_tickets pass.old got) }
    ensures few { result ≤ most }
    ensures count { deque_len tickets.new ≡ deque_len tickets.old + result }
    ensures capacity { deque_capacity tickets.new ≡ deque_capacity tickets.old }
{
    let mut claimed = 0;
    for _ in 0..most {
        let Claim::Got(ticket) = queue.claim(rt, pass) else {
            break;
        };
        tickets.push_back_reserved(ticket);
        claimed += 1;
    }
    claimed
}

/// Works on a run of tickets, in order. All that is claimed at a time comes through here.
fn answer_all<S: Service>(alloc: Global, tickets: &mut Tickets<S>, parcels: &mut Parcels<S>)
    requires empty { parcels.old.items ≡ [] }
    requires room { deque_len tickets.old ≤ deque_capacity parcels.old }
    ensures answers { AnswerEach tickets.old.items parcels.new.items }
    ensures done { tickets.new.items ≡ [] }
    ensures count { deque_len parcels.new ≡ deque_len tickets.old }
    ensures capacity { (deque_capacity tickets.new ≡ deque_capacity tickets.old)
        × (deque_capacity parcels.new ≡ deque_capacity parcels.old) }
{
    if tickets.len() > 1 {
        if let Ok((labels, jobs)) = taken_apart(alloc, tickets) {
            return answer_together(alloc, labels, jobs, parcels);
        }
    }
    answer_each(alloc, tickets, parcels);
}

/// Works on the tickets one by one.
fn answer_each<S: Service>(alloc: Global, tickets: &mut Tickets<S>, parcels: &mut Parcels<S>)
    requires empty { parcels.old.items ≡ [] }
    requires room { deque_len tickets.old ≤ deque_capacity parcels.old }
    ensures answers { AnswerEach tickets.old.items parcels.new.items }
    ensures done { tickets.new.items ≡ [] }
    ensures count { deque_len parcels.new ≡ deque_len tickets.old }
    ensures capacity { (deque_capacity tickets.new ≡ deque_capacity tickets.old)
        × (deque_capacity parcels.new ≡ deque_capacity parcels.old) }
{
    while let Some(ticket) = tickets.pop_front() {
        parcels.push_back_reserved(answer(alloc, ticket));
    }
}

/// Takes the tickets apart, into what stays of each and its job.
fn taken_apart<S: Service>(
    alloc: Global,
    tickets: &mut Tickets<S>,
) -> Result<(Vec<Label<S>>, Vec<S::Job>), NoMemory>
    ensures parts { IfOk result (λ parts. joined parts.0.items parts.1.items ≡ tickets.old.items) }
    ensures even { IfOk result (λ parts. length parts.0.items ≡ length parts.1.items) }
    ensures done { OnOk result (tickets.new.items ≡ []) }
    ensures same { OnErr result (tickets.new ≡ tickets.old) }
    ensures capacity { deque_capacity tickets.new ≡ deque_capacity tickets.old }
{
    let mut labels = Vec::with_capacity(alloc, tickets.len())?;
    let mut jobs = Vec::with_capacity(alloc, tickets.len())?;
    while let Some(Ticket { place, job, mail }) = tickets.pop_front() {
        labels.push_reserved(Label { place, mail });
        jobs.push_reserved(job);
    }
    Ok((labels, jobs))
}

/// Works on the jobs together, and one by one where there is no memory for that.
fn answer_together<S: Service>(
    alloc: Global,
    labels: Vec<Label<S>>,
    jobs: Vec<S::Job>,
    parcels: &mut Parcels<S>,
)
    requires even { length labels.items ≡ length jobs.items }
    requires empty { parcels.old.items ≡ [] }
    requires room { length (joined labels.items jobs.items) ≤ deque_capacity parcels.old }
    ensures answers { AnswerEach (joined labels.items jobs.items) parcels.new.items }
    ensures capacity { deque_capacity parcels.new ≡ deque_capacity parcels.old }
{
    match Answer::make_all(alloc, jobs) {
        Ok(answers) => pack(labels, answers, parcels),
        Err(jobs) => answer_parts(alloc, labels, jobs, parcels),
    }
}

/// Makes a parcel of each answer, the last first.
fn pack<S: Service>(
    mut labels: Vec<Label<S>>,
    mut answers: Vec<Answer<S>>,
    parcels: &mut Parcels<S>,
)
    requires even { length labels.items ≡ length answers.items }
    requires empty { parcels.old.items ≡ [] }
    requires room { length (joined labels.items answers.items) ≤ deque_capacity parcels.old }
    ensures answers { AnswerEach (joined labels.items answers.items) parcels.new.items }
    ensures capacity { deque_capacity parcels.new ≡ deque_capacity parcels.old }
{
    while let Some(answer) = answers.pop() {
        let Some(Label { place, mail }) = labels.pop() else {
            unreachable!()
        };
        let post = Post::Answered(place, answer);
        parcels.push_front_reserved(Parcel { post, mail });
    }
}

/// Works on the jobs one by one, the last first.
fn answer_parts<S: Service>(
    alloc: Global,
    mut labels: Vec<Label<S>>,
    mut jobs: Vec<S::Job>,
    parcels: &mut Parcels<S>,
)
    requires even { length labels.items ≡ length jobs.items }
    requires empty { parcels.old.items ≡ [] }
    requires room { length (joined labels.items jobs.items) ≤ deque_capacity parcels.old }
    ensures answers { AnswerEach (joined labels.items jobs.items) parcels.new.items }
    ensures capacity { deque_capacity parcels.new ≡ deque_capacity parcels.old }
{
    while let Some(job) = jobs.pop() {
        let Some(Label { place, mail }) = labels.pop() else {
            unreachable!()
        };
        parcels.push_front_reserved(answer(alloc, Ticket { place, job, mail }));
    }
}

/// Works on a ticket.
fn answer<S: Service>(alloc: Global, ticket: Ticket<S>) -> Parcel<S>
    ensures { IsAnswerTo ticket result }
{
    let Ticket { place, job, mail } = ticket;
    let post = match Answer::make(alloc, job) {
        Ok(answer) => Post::Answered(place, answer),
        Err(_) => Post::Failed(place),
    };
    Parcel { post, mail }
}
