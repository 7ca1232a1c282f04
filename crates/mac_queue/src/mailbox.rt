//! A mailbox: posts wait here for the one who takes them.

ghost use Rattle.std.specs.Prelude.{◌≡◌, Option, [], ◌∷◌, ◌++◌, IfErr, IfOk, IfSome, IfNone};
ghost use Rattle.mac_queue.specs.Post.{entry_of, handled, IsDelivered};
ghost use Rattle.crossbeam_queue.specs.Passes.{view, IsSamePass};

use crate::bell::{AnnouncedWait, Bell};
use crate::closing::{Closed, Closing};
use crate::post::Post;
use crate::receipt::{Delivery, Receipt};
use crossbeam_queue::protocol::{Free, Lesson, Outcome, Protocol};
use crossbeam_queue::{Pass, RuledArrayQueue};
use crossbeam_utils::CachePadded;
use mac_order::{NoMemory, Service};
use mio::Waker;
use std::alloc::Global;
use std::collections::LinkedList;
use std::marker::Model;
use std::sync::atomic::AtomicU64;
use std::sync::atomic::Ordering::SeqCst;
use std::sync::{OnceLock, Wait};

/// The most posts that a mailbox holds.
pub const MAIL_MAX: usize = 128;

/// What a pass has put in and what it has taken, for contracts: places, each with its answer's job,
/// if any. No value is made.
pub struct Handled<J> {
    pub posted: LinkedList<(u64, Option<J>)>,
    pub taken: LinkedList<(u64, Option<J>)>,
}

/// Anybody may push and pop at any time; each is told to the pass that made it.
pub struct OpenToAll;

impl<S: Service> Protocol<Post<S>, Handled<S::Job>> for OpenToAll {
    ghost use Rattle.std.specs.Prelude.{⊤, []};

    ghost holds = { λ items views. ⊤ };

    ghost first = { handled [] [] };
}

pub struct Posting;

impl<S: Service> Outcome<Post<S>, Handled<S::Job>> for Posting {
    ghost then = { λ v post w. w ≡ handled (v.posted ++ entry_of post ∷ []) v.taken };
}

impl<S: Service> Lesson<Post<S>, Handled<S::Job>> for Posting {
    ghost use Rattle.std.specs.Prelude.{⊤};

    ghost fact = { λ v items. ⊤ };
}

pub struct Takes;

impl<S: Service> Outcome<Post<S>, Handled<S::Job>> for Takes {
    ghost then = { λ v post w. w ≡ handled v.posted (v.taken ++ entry_of post ∷ []) };
}

impl<S: Service> Lesson<Post<S>, Handled<S::Job>> for Takes {
    ghost use Rattle.std.specs.Prelude.{⊤};

    ghost fact = { λ v items. ⊤ };
}

pub(crate) type MailPass<S> = Pass<Post<S>, Handled<<S as Service>::Job>>;

/// Posts wait here, at most 128, for the one who takes them.
#[derive(Drop)]
pub struct Mailbox<S: Service> {
    queue: RuledArrayQueue<Post<S>, Handled<S::Job>, OpenToAll>,
    // Who waits for posts sleeps on it.
    pub(crate) posts: Bell,
    // Where who waits for posts waits by a poll, this ends its wait.
    pub(crate) waker: OnceLock<Waker>,
    // Who waits for posts waits for the one at this place, or for one before it.
    due: CachePadded<AtomicU64>,
    room: Bell,
    // How many posts have come in all.
    came: CachePadded<AtomicU64>,
    // Who puts jobs and waits for their posts waits until so many have come.
    awaited: CachePadded<AtomicU64>,
    answers: Bell,
    pub(crate) closing: Closing,
}

impl<S: Service> Model for Mailbox<S> {
    ghost use Rattle.mac_queue.specs.Mail.{Mail, mail_code};

    ghost Value = { Mail };

    ghost coded = { mail_code };

    ghost view = { λ m. record { posts = m.queue.table.shared.table_id; closing = m.closing } };
}

impl<S: Service> Mailbox<S> {
    /// An open, empty mailbox, with the pass of the one who takes from it.
    pub(crate) fn new(alloc: Global) -> Result<(Mailbox<S>, MailPass<S>), NoMemory>
        ensures { IfOk result (λ m. (m.1.table_id ≡ m.0.posts) × (m.1.me.1 ≡ [])
            × (view m.1 ≡ handled [] [])) }
    {
        let (queue, pass) = RuledArrayQueue::ruled(alloc, MAIL_MAX)?;
        let mail = Mailbox {
            queue,
            posts: Bell::new(),
            waker: OnceLock::new(),
            due: CachePadded::new(AtomicU64::new(u64::MAX)),
            room: Bell::new(),
            came: CachePadded::new(AtomicU64::new(0)),
            awaited: CachePadded::new(AtomicU64::new(0)),
            answers: Bell::new(),
            closing: Closing::new(alloc)?,
        };
        Ok((mail, pass))
    }

    /// Puts the post in, where there is room, and wakes nobody.
    fn put_in<R: Wait>(&self, rt: &R, post: Post<S>) -> Result<MailPass<S>, Post<S>>
        ensures posted { IfOk result (λ pass. (pass.table_id ≡ self.now.posts)
            × ((view pass).posted ≡ entry_of post ∷ [])) }
        ensures back { IfErr result (λ back. back ≡ post) }
    {
        let mut pass = self.queue.pass();
        self.queue.push_as::<Posting, R>(rt, &mut pass, post)?;
        self.tell_came();
        Ok(pass)
    }

    /// One more post has come: wakes who puts jobs, where that one waits for no more.
    fn tell_came(&self) {
        let before = self.came.fetch_add(1, SeqCst);
        if self.answers.is_awaited() && before >= self.awaited.load(SeqCst).saturating_sub(1) {
            self.answers.ring();
        }
    }

    /// How many posts have come in all. No contract speaks of them.
    pub fn came(&self) -> u64 {
        self.came.load(SeqCst)
    }

    /// Announces a wait until so many posts have come. Look once more after it.
    pub fn announce_answers(&self, count: u64) -> AnnouncedWait {
        self.awaited.store(count, SeqCst);
        self.answers.announce()
    }

    /// Sleeps until these posts may have come.
    pub fn sleep_answers<R: Wait>(&self, rt: &R, notice: AnnouncedWait) {
        self.answers.sleep(rt, notice);
    }

    /// Ends a wait for posts that have come.
    pub fn withdraw_answers(&self, notice: AnnouncedWait) {
        self.answers.withdraw(notice);
    }

    /// Wakes who puts jobs and waits for their posts, to look at something else.
    pub fn ring_answers(&self) {
        self.answers.ring_all();
    }

    /// Takes the oldest post, by this pass.
    pub(crate) fn take_as<R: Wait>(&self, rt: &R, pass: &mut MailPass<S>) -> Option<Post<S>>
        requires { (pass.old.table_id ≡ self.now.posts) × (pass.old.me.1 ≡ []) }
        ensures same { IsSamePass pass.old pass.new }
        ensures some { IfSome result (λ post.
            (view pass.new).taken ≡ (view pass.old).taken ++ entry_of post ∷ []) }
        ensures none { IfNone result ((view pass.new).taken ≡ (view pass.old).taken) }
    {
        let post = self.queue.pop_as::<Takes, R>(rt, pass);
        // A worker that waits for room is woken once half of the mailbox is free, and not for
        // each slot.
        if self.room.is_awaited() && self.queue.len_as::<Free, R>(rt, pass) <= MAIL_MAX / 2 {
            self.room.ring_all();
        }
        post
    }

    /// Puts the post in, and waits while there is no room. At a closed mailbox the post is
    /// dropped. It wakes who takes posts only where it waits: the caller rings later.
    pub fn deliver<R: Wait>(&self, rt: &R, mut post: Post<S>) -> Delivery<S>
        ensures { IsDelivered self.now post result }
    {
        for _ in rt.forever() {
            post = match self.try_deliver(rt, post) {
                Ok(delivery) => return delivery,
                Err(back) => back,
            };
            // Who takes the posts must not sleep while somebody waits for room.
            self.ring();
            let notice = self.room.announce();
            post = match self.try_deliver(rt, post) {
                Ok(delivery) => {
                    self.room.withdraw(notice);
                    return delivery;
                }
                Err(back) => back,
            };
            self.room.sleep(rt, notice);
        }
        unreachable!()
    }

    /// Puts the post in, or hands it back where there is no room. At a closed mailbox it is
    /// dropped. It wakes nobody.
    pub fn try_deliver<R: Wait>(&self, rt: &R, post: Post<S>) -> Result<Delivery<S>, Post<S>>
        ensures delivered { IfOk result (λ delivery. IsDelivered self.now post delivery) }
        ensures back { IfErr result (λ back. back ≡ post) }
    {
        let found = match self.closing.look() {
            Ok(found) => found,
            Err(closed) => return Ok(Delivery::Closed(closed)),
        };
        let pass = self.put_in(rt, post)?;
        Ok(Delivery::Posted(Receipt { pass, found }))
    }

    /// Wakes who waits for posts.
    pub fn ring(&self) {
        self.posts.ring();
        if let Some(waker) = self.waker.get() {
            let _ = waker.wake();
        }
    }

    /// Closes the mailbox to further posts, and wakes all who wait at it.
    pub fn close(&self) -> Closed
        ensures { result ≡ self.now.closing }
    {
        let closed = self.closing.close();
        self.posts.ring_all();
        self.room.ring_all();
        closed
    }

    /// Whether who waits for posts waits for that of this place. Asked after the post went in.
    pub fn is_due(&self, place: u64) -> bool {
        place <= self.due.load(SeqCst)
    }

    pub(crate) fn announce(&self, due: u64) -> AnnouncedWait {
        self.due.store(due, SeqCst);
        self.posts.announce()
    }
}
