//! A taker: the one who takes a mailbox's posts, and sleeps while there is none.

ghost use Rattle.std.specs.Prelude.{◌≡◌, IfOk, IfSome, IfNone};
ghost use Rattle.std.specs.Arc.{arc_value};
ghost use Rattle.mac_queue.specs.Post.{entry_of};
ghost use Rattle.mac_queue.specs.Taking.{fresh_taking, with_taken};

use crate::bell::AnnouncedWait;
use crate::mailbox::{MailPass, Mailbox};
use crate::post::Post;
use mac_order::{NoMemory, Service};
use mio::Waker;
use std::alloc::Global;
use std::marker::Model;
use std::sync::{Arc, Wait};

/// Takes the posts of a mailbox. Contracts see which mailbox that is, and the posts that it has
/// taken, each as its place with its answer's job, or with none.
#[derive(Drop)]
pub struct Taker<S: Service> {
    mail: Arc<Mailbox<S>, Global>,
    pass: MailPass<S>,
}

impl<S: Service> Model for Taker<S> {
    ghost use Rattle.std.specs.Prelude.{◌≡◌, []};
    ghost use Rattle.std.specs.Arc.{arc_value};
    ghost use Rattle.crossbeam_queue.specs.Passes.{view as what};
    ghost use Rattle.mac_queue.specs.Taking.{Taking, taking_code};

    ghost Value = { Taking S.Job };

    ghost coded = { taking_code S.Job.code };

    ghost view = { λ t. record { mail = arc_value t.mail; taken = (what t.pass).taken } };

    ghost invariant = { λ t. (t.pass.table_id ≡ (arc_value t.mail).posts) × (t.pass.me.1 ≡ []) };
}

impl<S: Service> Taker<S> {
    /// A taker that has taken nothing, with its mailbox, open and empty. Takes all the memory that
    /// they ever take.
    pub fn new(alloc: Global) -> Result<(Taker<S>, Arc<Mailbox<S>, Global>), NoMemory>
        ensures { IfOk result (λ t. t.0 ≡ fresh_taking (arc_value t.1)) }
    {
        let (mail, pass) = Mailbox::new(alloc)?;
        let mail = Arc::new(alloc, mail)?;
        let theirs = Arc::try_clone(&mail)?;
        Ok((Taker { mail, pass }, theirs))
    }

    /// Has this end the wait of a thread that waits by a poll, where a post has come. What is set
    /// first stays.
    pub fn wake_by(&self, waker: Waker) {
        let _ = self.mail.waker.try_set(waker);
    }

    /// Takes the oldest post, if there is one.
    pub fn take<R: Wait>(&mut self, rt: &R) -> Option<Post<S>>
        ensures taken { IfSome result (λ post. self.new ≡ with_taken self.old (entry_of post)) }
        ensures same { IfNone result (self.new ≡ self.old) }
    {
        self.mail.take_as(rt, &mut self.pass)
    }

    /// Takes the oldest post, and sleeps while there is none. `None` once the mailbox is closed and
    /// empty. Who waits for something else too announces its wait, looks and sleeps by itself.
    pub fn wait<R: Wait>(&mut self, rt: &R) -> Option<Post<S>>
        ensures taken { IfSome result (λ post. self.new ≡ with_taken self.old (entry_of post)) }
        ensures same { IfNone result (self.new ≡ self.old) }
    {
        for _ in rt.forever() {
            if let Some(post) = self.take(rt) {
                return Some(post);
            }
            let notice = self.announce();
            let is_closed = self.mail.closing.look().is_err();
            match self.take(rt) {
                None if !is_closed => self.sleep(rt, notice),
                post => {
                    self.withdraw(notice);
                    return post;
                }
            }
        }
        unreachable!()
    }

    /// Announces a wait for a post or a ring. Look after it at everything that is waited for, and
    /// then sleep, or withdraw where something was found.
    pub fn announce(&self) -> AnnouncedWait {
        self.mail.announce(u64::MAX)
    }

    /// Announces a wait for the post at this place, for one before it, or for a ring. A worker that
    /// posts at a later place wakes nobody. Look after it as after [`Taker::announce`].
    pub fn announce_due(&self, place: u64) -> AnnouncedWait {
        self.mail.announce(place)
    }

    /// Sleeps until a post or a ring after the announcement. It may return for no reason: look
    /// again.
    pub fn sleep<R: Wait>(&self, rt: &R, notice: AnnouncedWait) {
        self.mail.posts.sleep(rt, notice);
    }

    /// Ends a wait that found something. Look again once that is dealt with.
    pub fn withdraw(&self, notice: AnnouncedWait) {
        self.mail.posts.withdraw(notice);
    }

    /// Wakes who puts jobs and waits for their posts, to look at something else.
    pub fn ring_putter(&self) {
        self.mail.ring_answers();
    }

    /// Closes the mailbox: further posts are dropped.
    pub fn close(&mut self)
        ensures { self.new ≡ self.old }
    {
        self.mail.close();
    }
}
