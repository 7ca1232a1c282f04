//! Posts what a turn has answered, and rings the mailboxes.

ghost use Rattle.std.specs.Prelude.{◌≡◌, ◌+◌, ◌++◌, ◌≤◌, List, []};
ghost use Rattle.std.specs.VecDeque.{deque_len, deque_capacity};
ghost use Rattle.mac_queue.specs.Post.{IsDelivered};
ghost use Rattle.mac_queue.specs.Balance.{entry_of};
ghost use Rattle.mac_pool.specs.Parcel.{IsAnswered, IsSent, HasPosted};

use crate::work::{Mails, Parcel, Parcels};
use mac_order::Service;
use mac_queue::{Delivery, History, Mailbox, Post, Ticket};
use std::sync::Wait;

/// Posts that there was no memory for the ticket.
pub fn give_up<S: Service, R: Wait>(rt: &R, ticket: Ticket<S>) -> Delivery<S>
    ensures { IsAnswered (entry_of ticket) result }
{
    let Ticket {
        place,
        job: _,
        mail,
    } = ticket;
    let delivery = mail.deliver(rt, Post::Failed(place));
    mail.ring();
    delivery
}

/// Posts the parcels, in order, and wakes nobody: their mailboxes are owed a ring.
pub fn post_all<S: Service, R: Wait>(
    rt: &R,
    parcels: &mut Parcels<S>,
    owed: &mut Mails<S>,
    book: &mut History<Delivery<S>>,
)
    requires { deque_len owed.old + deque_len parcels.old ≤ deque_capacity owed.old }
    ensures posted { HasPosted parcels.old.items book.old book.new }
    ensures done { parcels.new.items ≡ [] }
    ensures capacity { (deque_capacity parcels.new ≡ deque_capacity parcels.old)
        × (deque_capacity owed.new ≡ deque_capacity owed.old) }
{
    while let Some(parcel) = parcels.pop_front() {
        book.add(&post_one(rt, parcel, owed));
    }
}

/// Posts the parcel.
fn post_one<S: Service, R: Wait>(rt: &R, parcel: Parcel<S>, owed: &mut Mails<S>) -> Delivery<S>
    requires { deque_len owed.old + 1 ≤ deque_capacity owed.old }
    ensures sent { IsSent parcel result }
    ensures owed { deque_len owed.new ≤ deque_len owed.old + 1 }
    ensures capacity { deque_capacity owed.new ≡ deque_capacity owed.old }
{
    let Parcel { post, mail } = parcel;
    let place = place_of(&post);
    let delivery = deliver(rt, &mail, post, owed);
    if mail.is_due(place) {
        owed.push_back_reserved(mail);
    }
    delivery
}

/// Delivers the post. Where it may have to wait for room, those that are owed a ring get it first.
fn deliver<S: Service, R: Wait>(
    rt: &R,
    mail: &Mailbox<S>,
    post: Post<S>,
    owed: &mut Mails<S>,
) -> Delivery<S>
    ensures delivered { IsDelivered mail.now post result }
    ensures owed { deque_len owed.new ≤ deque_len owed.old }
    ensures capacity { deque_capacity owed.new ≡ deque_capacity owed.old }
{
    match mail.try_deliver(rt, post) {
        Ok(delivery) => delivery,
        Err(back) => {
            ring_all(owed);
            mail.deliver(rt, back)
        }
    }
}

fn place_of<S: Service>(post: &Post<S>) -> u64 {
    match post {
        Post::Answered(place, _) | Post::Failed(place) => *place,
    }
}

/// Rings the mailboxes. A second ring of one that has not been answered costs a load or two.
pub fn ring_all<S: Service>(owed: &mut Mails<S>)
    ensures done { owed.new.items ≡ [] }
    ensures capacity { deque_capacity owed.new ≡ deque_capacity owed.old }
{
    while let Some(mail) = owed.pop_front() {
        mail.ring();
    }
}
