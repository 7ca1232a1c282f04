//! What follows from the definitions alone. Each law is the contract of a function that does
//! nothing.

ghost use Rattle.std.specs.Prelude.{◌≡◌, ℕ, List, [], ◌++◌, All, IsTrue};
ghost use Rattle.mac_order.specs.History.{IsReached};
ghost use Rattle.mac_decide.specs.Prepared.{reply_to_job};
ghost use Rattle.mac_decide.specs.declared.job.Job.{Job};
ghost use Rattle.mac_decide.specs.declared.macaroons.Macaroons.{Macaroons};
ghost use Rattle.mac_board.specs.Noticed.{Current};
ghost use Rattle.mac_wire.specs.declared.arrival.Ending.{Ending};
ghost use Rattle.mac_wire.specs.declared.session.Session.{Session};
ghost use Rattle.mac_decide.specs.declared.rights.Rights.{Rights};
ghost use Rattle.mac_plain.specs.Asking.{IsAsked};
ghost use Rattle.mac_plain.specs.Client.{Answers, HasAnswered, IsPromised, Serves, asked_job, may_move, replies};
ghost use Rattle.mac_plain.specs.Lives.{IsOfWorld, IsUnder, Lives, Rests, Said, SaidAll};
ghost use Rattle.mac_plain.specs.declared.course.Course.{Course};
ghost use Rattle.mac_plain.specs.Rounds.{AnswersUnder, ServesUnder};
ghost use Rattle.mac_plain.specs.declared.client.Client.{Client};

use crate::course::Ended;
use crate::port::Port;

/// One round and the next are as one: what the first answered, and then what the second did,
/// whatever table and moment each had.
pub fn rounds_compose<P: Port>()
    ensures { (first second third : Client P) (jobs more : List Job)
        → Answers P.tells P.taken P.written first second jobs
        → Answers P.tells P.taken P.written second third more
        → Answers P.tells P.taken P.written first third (jobs ++ more) }
{}

/// Rounds, each under its own table and at its own moment, answer in their order, each request
/// under the table of its round and at the moment of that.
pub fn rounds_keep_their_tables<P: Port>()
    ensures { (currents : List Current) (before after : Client P)
        → ServesUnder P.tells P.taken P.written currents before after
        → AnswersUnder P.tells P.taken P.written currents before after }
{}

/// What was written on a client begins the framed answers to what was read, in order, each once.
pub fn what_is_written_is_a_beginning<P: Port>()
    ensures { (client : Client P) (read written : List ℕ) (jobs : List Job)
        → HasAnswered client read written jobs → IsPromised read written jobs }
{}

/// What rounds answer is what a connection of the world comes to, where for each job one after the
/// other an arrival, a claim, a finish and a send happen.
pub fn rounds_are_events()
    ensures { (jobs : List Job) → IsReached Macaroons reply_to_job jobs (replies jobs) }
{}

/// A round keeps lives: what was answered before it and in it was asked under the client's rights,
/// and stands over all that its device gave and took.
pub fn a_round_keeps_lives<P: Port>()
    ensures { (current : Current) (before after : Client P) → IsTrue P.tells
        → Serves P.tells P.taken P.written current before after
        → Lives before.rights.value (P.taken before.port) (P.written before.port)
        before.course before.session
        → Lives after.rights.value (P.taken after.port) (P.written after.port)
        after.course after.session }
{}

/// So does each step between two rounds that leaves the rights and answers nothing but jobs asked
/// under them: a worker is asked, its answer comes or is lost, or what comes behind a frame that is
/// too long is dropped.
pub fn a_step_keeps_lives<P: Port>()
    ensures { (before after : Client P) (jobs : List Job) → IsTrue P.tells
        → after.rights ≡ before.rights → All (IsUnder before.rights.value) jobs
        → Answers P.tells P.taken P.written before after jobs
        → Lives before.rights.value (P.taken before.port) (P.written before.port)
        before.course before.session
        → Lives after.rights.value (P.taken after.port) (P.written after.port)
        after.course after.session }
{}

/// What a worker is asked is asked under the client's rights.
pub fn what_is_asked_is_under_rights<P: Port>()
    ensures { (current : Current) (before after : Client P) (job : Job) (came went : List ℕ)
        → IsAsked current before after job
        → Lives before.rights.value came went before.course before.session
        → IsUnder before.rights.value job }
{}

/// So is what stands in front of what a client carries, where the memory of tokens tells the reply.
pub fn what_is_recalled_is_under_rights<P: Port>()
    ensures { (current : Current) (client : Client P)
        → IsUnder client.rights.value (asked_job current client) }
{}

/// A life that may go on elsewhere rests.
pub fn what_may_move_rests()
    ensures { (rights : Rights) (came went : List ℕ) (goes : Course) (session : Session)
        → IsTrue (may_move goes) → Lives rights came went goes session
        → Rests rights came went session }
{}

/// Of each life, however it ends, what was written begins the framed answers to what was read.
pub fn lives_are_said()
    ensures { (rights : Rights) (came went : List ℕ) (goes : Course) (session : Session)
        → Lives rights came went goes session → Said rights came went }
{}

/// Of a connection between two requests, too.
pub fn what_rests_is_said()
    ensures { (rights : Rights) (came went : List ℕ) (session : Session)
        → Rests rights came went session → Said rights came went }
{}

/// So what was written on a connection is what a connection of the world comes to, in some order of
/// events: all that holds there in every order holds of it.
pub fn lives_are_of_the_world()
    ensures { (rights : Rights) (came went : List ℕ)
        → Said rights came went → IsOfWorld rights came went }
{}

/// Of a life whose peer sends no more, of which nothing is carried and nothing is unsent, all that
/// was read is answered, and all of the answers were written.
pub fn what_ended_well_is_all()
    ensures { (rights : Rights) (came went : List ℕ) (why : Ended) (session : Session)
        → session.unsent ≡ [] → session.carried.items ≡ []
        → Lives rights came went (Course.Ended why) session
        → SaidAll rights came went Ending.Clean }
{}

/// Of a life that ends in a frame that is too long, and of which nothing is unsent, all that
/// arrived is answered, and all of the answers were written.
pub fn what_ended_too_long_is_all()
    ensures { (rights : Rights) (came went : List ℕ) (session : Session)
        → session.unsent ≡ [] → Lives rights came went Course.TooLong session
        → SaidAll rights came went Ending.Oversize }
{}
