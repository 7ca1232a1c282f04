//! The replies to all requests of a round, and whose they are.

ghost use Rattle.std.specs.Prelude.{◌≡◌, ◌≤◌, ◌<◌, ℕ, List, [], ◌∷◌, length, map, slice_get, All, IfOk, IfSome, Some};
ghost use Rattle.mac_board.specs.Noticed.{Current as PlainCurrent};
ghost use Rattle.mac_wire.specs.Reply.{IsReply};
ghost use Rattle.mac_decide.specs.Prepared.{reply_to_job};
ghost use Rattle.mac_decide.specs.Viewed.{viewed};
ghost use Rattle.mac_plain.specs.declared.request.RoundRequest.{RoundRequest};
ghost use Rattle.mac_plain.specs.Goes.{AreAnswered};
ghost use Rattle.mac_plain.specs.Requests.{AreReplies, asked_of, job_at, jobs_at};
ghost use Rattle.mac_plain.specs.RoundView.{LieWithin, LiesIn, asked_in, job_in, jobs_in, up_in};

use crate::NoMemory;
use crate::client::Client;
use crate::port::Port;
use crate::request::{RoundRequest, RoundView};
use crate::sharing::answer_shared;
use crate::tally::RequestTally;
use arrayvec::ArrayVec;
use mac_decide::{
    ArrivalView, JobView, RUN, Revocation, Rooms, SeenTokens, Terms, answer_one, answer_run,
    job_view_of,
};
use mac_wire::Reply;
use std::alloc::Global;
use std::thread::Threads;

/// How many bytes of requests are worth several threads. Fewer are answered before threads begin.
const SHARED_MIN: usize = 65_536;

/// How many threads answer together what a memory tells: for more there is too little to do.
const TELLERS: usize = 2;

/// What answering keeps from run to run: its allocator, rooms for tokens, a memory of those that
/// were seen, and a tally of what was answered.
#[derive(Drop)]
pub struct Bench {
    pub alloc: Global,
    pub rooms: Rooms,
    pub seen: SeenTokens,
    pub tally: RequestTally,
}

impl Bench {
    /// How many threads are worth what is like the last run, of so many. Without a memory all is
    /// hashed.
    fn worth(&self, threads: usize) -> usize {
        if self.seen.is_none() || self.rooms.was_dear() {
            threads
        } else {
            threads.min(TELLERS)
        }
    }
}

/// Answers the requests, and gives each client the replies to its own. Where they are many, several
/// threads answer them together, so many at most. The first run shows how many are worth it.
pub fn answer_requests<R: Threads + Sync, P: Port>(
    rt: &R,
    threads: usize,
    bench: &mut Bench,
    round: RoundView<'_>,
    clients: &mut [Client<P>],
)
    requires { LieWithin round }
    ensures { AreAnswered P.tells P.taken P.written (up_in round.entry) (asked_in round.entry)
        clients.old clients.new }
{
    let first = if bench.seen.is_none() {
        0
    } else {
        round.requests.len().min(RUN)
    };
    let (run, rest) = round.requests.split_at(first);
    let run = RoundView {
        requests: run,
        ..round
    };
    answer_runs(bench, run, clients);
    let rest = RoundView {
        requests: rest,
        ..round
    };
    let threads = bench.worth(threads);
    answer_rest(rt, threads, bench, rest, clients);
}

/// The same of what is left, by so many threads where it is much.
fn answer_rest<R: Threads + Sync, P: Port>(
    rt: &R,
    threads: usize,
    bench: &mut Bench,
    round: RoundView<'_>,
    clients: &mut [Client<P>],
)
    requires { LieWithin round }
    ensures { AreAnswered P.tells P.taken P.written (up_in round.entry) (asked_in round.entry)
        clients.old clients.new }
{
    if threads > 1 && span(round.requests) >= SHARED_MIN {
        if let Ok(replies) = replies_from(rt, threads, bench, round, clients) {
            return hand_out(round.requests, replies.as_slice(), clients);
        }
    }
    answer_runs(bench, round, clients);
}

/// How many bytes the requests stand in.
fn span(requests: &[RoundRequest]) -> usize {
    match (requests.first(), requests.last()) {
        (Some(first), Some(last)) => last.end.saturating_sub(first.start),
        _ => 0,
    }
}

/// The replies to the requests, each under the rights of its client, from so many threads.
fn replies_from<R: Threads + Sync, P: Port>(
    rt: &R,
    threads: usize,
    bench: &mut Bench,
    round: RoundView<'_>,
    clients: &[Client<P>],
) -> Result<Vec<Reply>, NoMemory>
    requires threads { 0 < threads }
    requires within { LieWithin round }
    ensures replies { IfOk result (λ replies. AreReplies
        (jobs_in round.entry clients.now) replies.items) }
    ensures sendable { IfOk result (λ replies. All IsReply replies.items) }
{
    let jobs = jobs_of_all(bench.alloc, round, clients)?;
    let replies = answer_shared(rt, bench.alloc, &bench.seen, jobs.as_slice(), threads)?;
    bench.tally.count_all(jobs.as_slice(), replies.as_slice());
    Ok(replies)
}

/// The requests, where they lie, with what each is answered on.
fn jobs_of_all<'a, P: Port>(
    alloc: Global,
    round: RoundView<'a>,
    clients: &'a [Client<P>],
) -> Result<Vec<JobView<'a>>, NoMemory>
    requires { LieWithin round }
    ensures { IfOk result (λ jobs. map viewed jobs.items
        ≡ jobs_in round.entry clients.now) }
{
    let mut jobs = Vec::with_capacity(alloc, round.requests.len())?;
    for request in round.requests {
        jobs.push_reserved(job_of_request(round, request, clients));
    }
    Ok(jobs)
}

/// Answers the requests in runs, and gives each client the replies to its own.
fn answer_runs<P: Port>(bench: &mut Bench, round: RoundView<'_>, clients: &mut [Client<P>])
    requires { LieWithin round }
    ensures { AreAnswered P.tells P.taken P.written (up_in round.entry) (asked_in round.entry)
        clients.old clients.new }
{
    let mut at = 0;
    while at < round.requests.len() {
        let end = round.requests.len().min(at + RUN);
        let requests = &round.requests[at..end];
        answer_some(bench, RoundView { requests, ..round }, clients);
        at = end;
    }
}

/// Answers a run of requests together, or each by itself where memory is refused for all. One alone
/// asks for no places of a run.
fn answer_some<P: Port>(bench: &mut Bench, run: RoundView<'_>, clients: &mut [Client<P>])
    requires count { length run.requests.now ≤ RUN }
    requires within { LieWithin run }
    ensures { AreAnswered P.tells P.taken P.written (up_in run.entry) (asked_in run.entry)
        clients.old clients.new }
{
    if run.requests.len() == 1 {
        return answer_alone(bench, run, clients);
    }
    match replies_to(bench, run, clients) {
        Ok(replies) => hand_out(run.requests, replies.as_slice(), clients),
        Err(_) => answer_apart(bench, run, clients),
    }
}

/// The replies to a run of requests, each under the rights of its client.
fn replies_to<P: Port>(
    bench: &mut Bench,
    run: RoundView<'_>,
    clients: &[Client<P>],
) -> Result<ArrayVec<Reply, RUN>, NoMemory>
    requires count { length run.requests.now ≤ RUN }
    requires within { LieWithin run }
    ensures replies { IfOk result (λ replies. AreReplies
        (jobs_in run.entry clients.now) replies.items) }
    ensures sendable { IfOk result (λ replies. All IsReply replies.items) }
{
    let jobs = jobs_of_run(run, clients);
    let replies = answer_run(&mut bench.rooms, bench.alloc, jobs.as_slice())?;
    bench.tally.count_all(jobs.as_slice(), replies.as_slice());
    Ok(replies)
}

/// The requests of a run, where they lie, with what each is answered on.
fn jobs_of_run<'a, P: Port>(
    run: RoundView<'a>,
    clients: &'a [Client<P>],
) -> ArrayVec<JobView<'a>, RUN>
    requires count { length run.requests.now ≤ RUN }
    requires within { LieWithin run }
    ensures { map viewed result.items
        ≡ jobs_in run.entry clients.now }
{
    let mut jobs = ArrayVec::new();
    for request in run.requests {
        jobs.push(job_of_request(run, request, clients));
    }
    jobs
}

/// The job of a request, under the rights of its client; without a client it asks nothing.
fn job_of_request<'a, P: Port>(
    round: RoundView<'a>,
    request: &RoundRequest,
    clients: &'a [Client<P>],
) -> JobView<'a>
    requires within { LiesIn round request.now }
    ensures { viewed result ≡ job_in round.entry clients.now request.now }
{
    match clients.get(request.owner) {
        Some(client) => {
            let rights = &client.rights;
            let terms = Terms {
                table: round.current.table,
                rights,
                moment: round.current.moment,
            };
            job_view_of(terms, &round.arena[request.start..request.end])
        }
        None => JobView {
            arrival: ArrivalView::Oversize,
            keys: None,
            revoked: Revocation::Known(false),
            may_mint: false,
            moment: None,
        },
    }
}

/// Answers each request of a run by itself.
fn answer_apart<P: Port>(bench: &mut Bench, run: RoundView<'_>, clients: &mut [Client<P>])
    requires { LieWithin run }
    ensures { AreAnswered P.tells P.taken P.written (up_in run.entry) (asked_in run.entry)
        clients.old clients.new }
{
    for index in 0..run.requests.len() {
        let requests = &run.requests[index..index + 1];
        answer_alone(bench, RoundView { requests, ..run }, clients);
    }
}

/// Answers one request, or lets its client fall where memory is refused for it.
fn answer_alone<P: Port>(bench: &mut Bench, one: RoundView<'_>, clients: &mut [Client<P>])
    requires one { length one.requests.now ≡ 1 }
    requires within { LieWithin one }
    ensures { AreAnswered P.tells P.taken P.written (up_in one.entry) (asked_in one.entry)
        clients.old clients.new }
{
    match reply_to(bench, one, &one.requests[0], clients) {
        Ok(reply) => give(one.requests, Some(&reply), clients),
        Err(_) => give(one.requests, None, clients),
    }
}

/// The reply to a request, under the rights of its client.
fn reply_to<P: Port>(
    bench: &mut Bench,
    round: RoundView<'_>,
    request: &RoundRequest,
    clients: &[Client<P>],
) -> Result<Reply, NoMemory>
    requires within { LiesIn round request.now }
    ensures reply { IfOk result (λ reply.
        reply ≡ reply_to_job (job_in round.entry clients.now request.now)) }
    ensures sendable { IfOk result IsReply }
{
    let job = job_of_request(round, request, clients);
    let reply = answer_one(&mut bench.rooms, bench.alloc, &job)?;
    bench.tally.count(&job, &reply);
    Ok(reply)
}

/// Gives each client the replies to its own requests, in order. Where one is missing the client has
/// fallen.
fn hand_out<P: Port>(run: &[RoundRequest], replies: &[Reply], clients: &mut [Client<P>])
    requires { All IsReply replies.now }
    ensures { (current : PlainCurrent) (arena : List ℕ)
        → AreReplies (jobs_at current clients.old arena run.now) replies.now
        → AreAnswered P.tells P.taken P.written current
        (λ k. asked_of k arena run.now) clients.old clients.new }
{
    for index in 0..run.len() {
        give(&run[index..index + 1], reply_at(replies, index), clients);
    }
}

/// The reply at a place, where there is one.
fn reply_at(replies: &[Reply], index: usize) -> Option<&Reply>
    requires { All IsReply replies.now }
    ensures sendable { IfSome result (λ reply. IsReply reply.now) }
    ensures there { IfSome result (λ reply. slice_get replies.now index ≡ Some reply.now) }
{
    replies.get(index)
}

/// Gives a request's client the reply to it.
fn give<P: Port>(one: &[RoundRequest], reply: Option<&Reply>, clients: &mut [Client<P>])
    requires reply { IfSome reply (λ r. IsReply r.now) }
    requires one { length one.now ≡ 1 }
    ensures { (current : PlainCurrent) (arena : List ℕ) (request : RoundRequest)
        → one.now ≡ request ∷ [] → IfSome reply.entry (λ r. r.now
        ≡ reply_to_job (job_at current arena request (slice_get clients.old request.owner)))
        → AreAnswered P.tells P.taken P.written current
        (λ k. asked_of k arena one.now) clients.old clients.new }
{
    let owner = one[0].owner;
    if owner < clients.len() {
        clients[owner].answer(reply);
    }
}
