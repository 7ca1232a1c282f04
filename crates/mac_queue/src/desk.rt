//! A desk: one connection's place at a pool, with an end for each of its two threads.

ghost use Rattle.std.specs.Prelude.{◌≡◌, length, IfOk, IfErr, OnOk, OnErr};
ghost use Rattle.std.specs.Arc.{arc_value};
ghost use Rattle.mac_queue.specs.Taking.{fresh_taking};
ghost use Rattle.mac_queue.specs.Putting.{pass_of, putting_of, with_put};

use crate::bell::AnnouncedWait;
use crate::fault::PutFault;
use crate::mailbox::Mailbox;
use crate::queue::{PUTS_MAX, Queue, QueuePass};
use crate::taker::Taker;
use crate::ticket::Ticket;
use mac_order::Service;
use std::alloc::Global;
use std::marker::Model;
use std::sync::{Arc, Wait};

/// A connection's place at a pool.
#[derive(Drop)]
pub struct Desk<S: Service> {
    /// For the thread that puts jobs.
    pub putter: Putter<S>,
    /// For the thread that takes posts.
    pub taker: Taker<S>,
}

/// Puts jobs into the queue, for posts to its desk. Contracts see its pass, and the mailbox that
/// the posts come to.
#[derive(Drop)]
pub struct Putter<S: Service> {
    queue: Arc<Queue<S>, Global>,
    pass: QueuePass<S>,
    mail: Arc<Mailbox<S>, Global>,
}

impl<S: Service> Model for Putter<S> {
    ghost use Rattle.std.specs.Prelude.{◌≡◌};
    ghost use Rattle.std.specs.Arc.{arc_value};
    ghost use Rattle.mac_queue.specs.Putting.{Putting, putting_code, putting_of};

    ghost Value = { Putting S.Job };

    ghost coded = { putting_code S.Job.code };

    ghost view = { λ p. putting_of p.pass (arc_value p.mail) };

    ghost invariant = { λ p. p.pass.queue ≡ (arc_value p.queue).tickets };
}

impl<S: Service> Desk<S> {
    /// A desk at this queue, with a fresh mailbox. Takes all the memory that the desk ever takes;
    /// where it is refused, the pass comes back.
    pub fn new(
        alloc: Global,
        queue: Arc<Queue<S>, Global>,
        pass: QueuePass<S>,
    ) -> Result<Desk<S>, QueuePass<S>>
        requires { pass.queue ≡ (arc_value queue).tickets }
        ensures desk { IfOk result (λ desk. desk.putter ≡ putting_of pass desk.putter.mail) }
        ensures fresh { IfOk result (λ desk. desk.taker ≡ fresh_taking desk.putter.mail) }
        ensures back { IfErr result (λ back. back ≡ pass) }
    {
        let Ok((taker, mail)) = Taker::new(alloc) else {
            return Err(pass);
        };
        let putter = Putter { queue, pass, mail };
        Ok(Desk { putter, taker })
    }

    /// The pass of the desk, which ends with it: its mailbox is closed, so that no worker waits for
    /// room there.
    pub fn into_pass(self) -> QueuePass<S>
        ensures { result ≡ pass_of self.putter }
    {
        let Desk { putter, taker: _ } = self;
        let Putter {
            queue: _,
            pass,
            mail,
        } = putter;
        mail.close();
        pass
    }
}

impl<S: Service> Putter<S> {
    /// Puts the job at its place into the queue. It takes no memory but one more handle on the
    /// mailbox.
    pub fn put<R: Wait>(
        &mut self,
        rt: &R,
        place: u64,
        job: S::Job,
    ) -> Result<(), (PutFault, S::Job)>
        ensures put { OnOk result (self.new ≡ with_put self.old (place, job)) }
        ensures same { OnErr result (self.new ≡ self.old) }
        ensures back { IfErr result (λ e. e.1 ≡ job) }
        ensures spent { IfErr result (λ e. e.0 ≡ PutFault.Spent
            → length self.old.put ≡ PUTS_MAX) }
    {
        let Ok(mail) = Arc::try_clone(&self.mail) else {
            return Err((PutFault::NoMemory, job));
        };
        let ticket = Ticket { place, job, mail };
        match self.queue.put(rt, &mut self.pass, ticket) {
            Ok(_) => Ok(()),
            Err((fault, ticket)) => Err((fault, ticket.job)),
        }
    }

    /// How many posts have come to this desk in all, for jobs that were put. No contract speaks of
    /// them.
    pub fn answered(&self) -> u64 {
        self.mail.came()
    }

    /// Announces a wait until so many posts have come. Look once more after it, and then sleep, or
    /// withdraw where that is done.
    pub fn announce(&self, count: u64) -> AnnouncedWait {
        self.mail.announce_answers(count)
    }

    /// Sleeps until these posts may have come, or the taker rings.
    pub fn sleep<R: Wait>(&self, rt: &R, notice: AnnouncedWait) {
        self.mail.sleep_answers(rt, notice);
    }

    /// Ends a wait for posts that have come.
    pub fn withdraw(&self, notice: AnnouncedWait) {
        self.mail.withdraw_answers(notice);
    }

    /// Wakes who waits for posts at this desk, to look at something else.
    pub fn ring(&self) {
        self.mail.ring();
    }
}
