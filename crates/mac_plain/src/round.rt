//! A round of a loop: what has come on many connections is answered together.

ghost use Rattle.std.specs.Prelude.{◌≡◌, ◌≢◌, ◌≤◌, [], ◌∷◌, Some, None, length, vec_len, IsFalse, IsTrue};
ghost use Rattle.mac_board.specs.Noticed.{Current as PlainCurrent, Notices, lent_current};
ghost use Rattle.mac_count.specs.RequestCounts.{no_counts};
ghost use Rattle.mac_decide.specs.Prepared.{reply_to_job};
ghost use Rattle.mac_decide.specs.Viewed.{viewed};
ghost use Rattle.mac_plain.specs.Asking.{Takes};
ghost use Rattle.mac_plain.specs.Client.{Answers, IsAwaited, asked_job};
ghost use Rattle.mac_plain.specs.Dear.{GoesWide};
ghost use Rattle.mac_plain.specs.Rounds.{ServesEach};
ghost use Rattle.mac_plain.specs.Goes.{AreAnswered, AreRead};
ghost use Rattle.mac_plain.specs.Receiving.{Receives};
ghost use Rattle.mac_plain.specs.Requests.{AreWithin, asked_of};
ghost use Rattle.mac_plain.specs.Tally.{counts_of, request_of};

use crate::NoMemory;
use crate::answering::{Bench, answer_requests};
use crate::client::Client;
use crate::port::Port;
use crate::receiving::receive;
use crate::request::{RoundRequest, RoundView};
use crate::tally::{RequestTally, request_of};
use mac_board::{Current, Outlook};
use mac_count::{AnsweredRequest as Counted, REQUESTS};
use mac_decide::{
    ArrivalView, JobView, Macaroons, Rooms, SEEN_MAX, SeenTokens, count_answer, remember_answer,
};
use mac_order::Answer;
use mac_wire::Reply;
use std::alloc::Global;
use std::thread::Threads;

/// How many bytes a read asks for, where many clients are read or one thread answers.
pub const PIECE: usize = 16_384;

/// How many bytes a round reads from all clients together: past them the others wait for the next.
pub const ROUND_MAX: usize = 131_072;

/// From how many bytes on nothing more is remembered of what workers answered until the next round:
/// a token is read once more for that, which in JSON may take a millisecond.
const LEARNED_MAX: usize = 16_384;

/// What a round is held to.
#[derive(Clone, Copy)]
pub struct RoundTerms {
    /// How many threads answer, at most, where much is asked.
    pub threads: usize,
    /// With how many bytes unsent a client isn't read.
    pub unsent_max: usize,
}

/// What a round has read.
#[derive(Drop)]
struct Intake {
    arena: Vec<u8>,
    requests: Vec<RoundRequest>,
}

/// What a loop keeps from round to round: room for what it reads, and for what answering asks for.
#[derive(Drop)]
pub struct Round {
    piece: Vec<u8>,
    intake: Intake,
    bench: Bench,
    // How many bytes tokens that workers verified have been remembered from since the last round.
    learned: usize,
}

impl Round {
    /// Room for a round, beside a memory of tokens.
    pub fn new(alloc: Global, seen: SeenTokens) -> Result<Round, NoMemory> {
        let mut piece = Vec::new(alloc);
        piece.resize(ROUND_MAX, 0)?;
        Ok(Round {
            piece,
            intake: Intake {
                arena: Vec::with_capacity(alloc, 2 * ROUND_MAX)?,
                requests: Vec::new(alloc),
            },
            bench: Bench {
                alloc,
                rooms: Rooms::new(alloc, seen.share()?),
                seen,
                tally: RequestTally::new(),
            },
            learned: 0,
        })
    }

    /// Serves each of the clients once: reads it, looks at the tables and the clock, answers all
    /// requests of all clients together under the table that is up and at the moment that is told,
    /// and writes. Where several threads answer, few clients are read further at a time.
    pub fn serve<R: Threads + Sync, P: Port, K: Outlook>(
        &mut self,
        rt: &R,
        terms: RoundTerms,
        outlook: &mut K,
        clients: &mut [Client<P>],
    )
        ensures looks { Notices K.tells (K.known outlook.old) (K.known outlook.new) }
        ensures serves { ServesEach P.tells P.taken P.written (K.known outlook.new)
            clients.old clients.new }
    {
        self.intake.arena.clear();
        self.intake.requests.clear();
        self.learned = 0;
        let size = piece_size(terms.threads, clients.len()).min(self.piece.len());
        receive_all(
            &mut self.piece[..size],
            &mut self.intake,
            clients,
            terms.unsent_max,
        );
        outlook.look();
        let view = RoundView {
            current: outlook.current(),
            arena: self.intake.arena.as_slice(),
            requests: self.intake.requests.as_slice(),
        };
        answer_requests(rt, terms.threads, &mut self.bench, view, clients);
        flush_all(clients);
    }

    /// Answers what a client goes on wide for without a worker, where a memory of tokens tells the
    /// reply, under this table and at this moment. It is counted, and written as far as that goes
    /// now. Whether it was told.
    pub fn recall<P: Port>(&mut self, client: &mut Client<P>, current: Current<'_>) -> bool
        ensures answers { IsTrue result → Answers P.tells P.taken P.written client.old client.new
            (asked_job (lent_current current.entry) client.old ∷ []) }
        ensures untold { IsFalse result → client.new ≡ client.old }
        ensures rights { client.new.rights ≡ client.old.rights }
    {
        if !client.recall(&mut self.bench, current) {
            return false;
        }
        client.flush();
        true
    }

    /// Has a client take a worker's answer. What it is to be counted as, where it is the one that
    /// the client waits for. The token of a verify that it grants is remembered.
    pub fn deliver<P: Port>(
        &mut self,
        client: &mut Client<P>,
        answer: Answer<Macaroons>,
    ) -> Option<Counted>
        ensures counted { GoesWide client.old.session.carried.items → IsAwaited answer client.old
            → result ≡ Some (request_of answer (reply_to_job answer)) }
        ensures uncounted { GoesWide client.old.session.carried.items
            → ¬ IsAwaited answer client.old → result ≡ None }
        ensures takes { client.new ≢ client.old → Takes answer client.old client.new }
        ensures own { GoesWide client.old.session.carried.items → IsAwaited answer client.old
            → Takes answer client.old client.new }
        ensures another { GoesWide client.old.session.carried.items → ¬ IsAwaited answer client.old
            → client.new ≡ client.old }
        ensures rights { client.new.rights ≡ client.old.rights }
        ensures answers { Answers P.tells P.taken P.written client.old client.new [] }
    {
        let (job, reply) = answer.into_parts();
        let view = JobView::of(&job);
        let is_own = client.take_answer(&job, &reply);
        self.remember(&view, &reply);
        if is_own {
            count_answer(&self.bench.seen, self.bench.alloc, &view, &reply);
            Some(request_of(&view, &reply))
        } else {
            None
        }
    }

    /// Remembers the token of a verify that a worker has granted, unless much was remembered so
    /// since the last round.
    fn remember(&mut self, job: &JobView<'_>, reply: &Reply)
        requires { reply.now ≡ reply_to_job (viewed job.now) }
    {
        let ArrivalView::Payload(payload) = job.arrival else {
            return;
        };
        if self.learned < LEARNED_MAX {
            let bytes = payload.len().min(SEEN_MAX);
            self.learned = self.learned.saturating_add(bytes);
            remember_answer(&self.bench.seen, self.bench.alloc, job, reply);
        }
    }

    /// How many requests were answered since the last call, each kind at its place, but for those
    /// that workers answered.
    pub fn take_counts(&mut self) -> [u64; REQUESTS]
        ensures taken { result ≡ counts_of self.old.bench.tally }
        ensures none_left { counts_of self.new.bench.tally ≡ no_counts }
    {
        self.bench.tally.take()
    }
}

/// How many bytes a read of one of so many clients asks for, where so many threads answer: several
/// threads are kept busy by what a round takes.
fn piece_size(threads: usize, clients: usize) -> usize {
    if threads > 1 {
        (ROUND_MAX / clients.max(1)).max(PIECE)
    } else {
        PIECE
    }
}

/// Reads each client that is to be read, as long as there is room.
fn receive_all<P: Port>(
    piece: &mut [u8],
    intake: &mut Intake,
    clients: &mut [Client<P>],
    unsent_max: usize,
)
    requires { intake.old.requests.items ≡ [] }
    ensures within { AreWithin (length intake.new.arena.items) intake.new.requests.items }
    ensures read { (current : PlainCurrent) → AreRead P.tells P.taken P.written current
        (λ k. asked_of k intake.new.arena.items intake.new.requests.items)
        clients.old clients.new }
{
    for index in 0..clients.len() {
        visit(&mut clients[index], piece, intake, index, unsent_max);
    }
}

/// Reads a client, where it is to be read and there is room.
fn visit<P: Port>(
    client: &mut Client<P>,
    piece: &mut [u8],
    intake: &mut Intake,
    owner: usize,
    unsent_max: usize,
)
    requires { AreWithin (length intake.old.arena.items) intake.old.requests.items }
    ensures receives { (current : PlainCurrent) → Receives P.tells P.taken P.written current
        owner client.old client.new intake.old.arena.items intake.new.arena.items
        intake.old.requests.items intake.new.requests.items }
    ensures within { AreWithin (length intake.new.arena.items) intake.new.requests.items }
    ensures unread { unsent_max ≤ length client.old.session.unsent → client.new ≡ client.old }
{
    if intake.arena.len() >= ROUND_MAX {
        return;
    }
    if !client.may_read(unsent_max) {
        return;
    }
    let Intake { arena, requests } = intake;
    receive(client, piece, arena, requests, owner);
}

/// Writes to each client that has something unsent.
fn flush_all<P: Port>(clients: &mut [Client<P>])
    ensures { (current : PlainCurrent) → AreRead P.tells P.taken P.written current
        (λ _. []) clients.old clients.new }
{
    for index in 0..clients.len() {
        clients[index].flush();
    }
}
