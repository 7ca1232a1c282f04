//! Laws about the definitions that the contracts cite: each is the contract of a function that does
//! nothing.

ghost use Rattle.std.specs.Prelude.{◌≡◌, ◌≢◌, ◌<◌, ◌≤◌, ◌+◌, ℕ, true, false, ◌↔◌, List, ◌∷◌, length, map, slice_get, take};
ghost use Rattle.std.specs.FinMap.{get};
ghost use Rattle.std.specs.List.{range_with_len, enumerate_from};
ghost use Rattle.mac_order.specs.declared.event.Event as event;
ghost use Rattle.mac_order.specs.Buffer.{Buffer, next_of, sent_off};
ghost use Rattle.mac_order.specs.State.{Connection, State, HasClaimed};
ghost use Rattle.mac_order.specs.Step.{step, is_change};
ghost use Rattle.mac_order.specs.History.{Events, IsBeginningOf, Reaches, KeepsLists, Spares, reached, outcomes, Happens, sent_places, admitted, IsReached};

use crate::event::{Event, Outcome};
use crate::next::Next;
use crate::outlet::OPEN_SLIPS_MAX;
use crate::reorder::SLOTS;
use crate::ring::RING_SLIPS_MAX;
use crate::service::Service;

/// A reorder buffer has 128 slots.
pub fn slots_are_128()
    ensures { SLOTS ≡ 128 }
{}

/// A ring holds 64 slips, and an outlet has at most 64 open.
pub fn slips_are_64()
    ensures ring { RING_SLIPS_MAX ≡ 64 }
    ensures open { OPEN_SLIPS_MAX ≡ 64 }
{}

/// Jobs compare as equal exactly where they hold the same.
pub fn equal_jobs_hold_the_same<S: Service>()
    ensures { (a b : S.Job) → (S.Job.eq a b ≡ true) ↔ (a ≡ b) }
{}

/// An answer to the very job that is open at the next place is sent: it is never taken for a
/// stranger's.
pub fn honest_answers_go_out<S: Service>()
    ensures { (buffer : Buffer S.Job) (job : S.Job) (others : List S.Job) →
        buffer.closed ≡ false → buffer.slips ≡ job ∷ others →
        get buffer.answers buffer.next ≡ Some job →
        next_of {Which = S} S.Job.eq S.reply_to buffer
        ≡ (Next.Reply buffer.next (S.reply_to job), sent_off buffer others) }
{}

/// What was sent on a connection is a beginning of the replies to what arrived on it.
pub fn sent_is_a_beginning<S: Service>()
    ensures { (connections workers number : ℕ) (events : Events S S.Job S.Reply)
        (link : Connection S.Job S.Reply) →
        Reaches S.reply_to connections workers events number link →
        IsBeginningOf link.sent (map S.reply_to link.arrived) }
{}

/// Where as many were sent as arrived, the replies are exactly those to what arrived.
pub fn all_sent_is_all_answered<S: Service>()
    ensures { (connections workers number : ℕ) (events : Events S S.Job S.Reply)
        (link : Connection S.Job S.Reply) →
        Reaches S.reply_to connections workers events number link →
        length link.sent ≡ length link.arrived → link.sent ≡ map S.reply_to link.arrived }
{}

/// What arrived on a connection are the jobs that were admitted on it, in order, at the places 0,
/// 1, 2 and so on.
pub fn arrived_is_what_was_admitted<S: Service>()
    ensures { (connections workers number : ℕ) (events : Events S S.Job S.Reply)
        (link : Connection S.Job S.Reply) →
        Reaches S.reply_to connections workers events number link →
        admitted number events (outcomes S.reply_to connections workers events)
        ≡ enumerate_from 0 link.arrived }
{}

/// An event that comes to a refusal leaves the whole state as it was, from any state on.
pub fn a_refusal_changes_nothing<S: Service>()
    ensures { (state : State S.Job S.Reply) (refused : event.Event S S.Job S.Reply) →
        is_change (step S.reply_to state refused).1 ≡ false →
        (step S.reply_to state refused).0 ≡ state }
{}

/// After a close, and on a connection that is closed, neither list changes, whatever comes, from
/// any state on.
pub fn nothing_after_a_close<S: Service>()
    ensures close { (state : State S.Job S.Reply) (number : ℕ) (events : Events S S.Job S.Reply)
        (link : Connection S.Job S.Reply) →
        slice_get state.connections number ≡ Some link →
        KeepsLists S.reply_to state (Event.Close number ∷ events) number link }
    ensures closed { (state : State S.Job S.Reply) (number : ℕ) (events : Events S S.Job S.Reply)
        (link : Connection S.Job S.Reply) →
        slice_get state.connections number ≡ Some link → link.closed ≡ true →
        KeepsLists S.reply_to state events number link }
{}

/// No place is claimed twice: two claims of one place that succeed are one and the same event.
pub fn no_place_is_claimed_twice<S: Service>()
    ensures { (connections workers one other number place first second : ℕ)
        (events : Events S S.Job S.Reply) →
        Happens S.reply_to connections workers events
        first (Event.Claim one number place) Outcome.Claimed →
        Happens S.reply_to connections workers events
        second (Event.Claim other number place) Outcome.Claimed →
        first ≡ second }
{}

/// The places that a connection sends are 0, 1, 2 and so on, in order, one for each reply that was
/// sent.
pub fn places_are_sent_in_order<S: Service>()
    ensures { (connections workers number : ℕ) (events : Events S S.Job S.Reply)
        (link : Connection S.Job S.Reply) →
        Reaches S.reply_to connections workers events number link →
        sent_places number events (outcomes S.reply_to connections workers events)
        ≡ range_with_len 0 (length link.sent) }
{}

/// A place is sent only after it was finished, by a worker that had claimed just this place.
pub fn a_finish_comes_before_its_send<S: Service>()
    ensures { (connections workers number place index : ℕ) (events : Events S S.Job S.Reply) →
        Happens S.reply_to connections workers events
        index (Event.Send number) (Outcome.Sent place) →
        (earlier worker : ℕ) × (earlier < index)
        × Happens S.reply_to connections workers events
        earlier (Event.Finish worker) Outcome.Finished
        × HasClaimed (reached S.reply_to connections workers (take earlier events))
        worker number place }
{}

/// An arrive, a send or a close on one connection leaves every other connection as it was.
pub fn connections_are_apart<S: Service>()
    ensures arrive { (state : State S.Job S.Reply) (number other : ℕ) (job : S.Job) →
        other ≢ number → Spares S S.reply_to state (Event.Arrive number job) other }
    ensures send { (state : State S.Job S.Reply) (number other : ℕ) →
        other ≢ number → Spares S S.reply_to state (Event.Send number) other }
    ensures close { (state : State S.Job S.Reply) (number other : ℕ) →
        other ≢ number → Spares S S.reply_to state (Event.Close number) other }
{}

/// Any jobs, with the replies to a beginning of them that leaves at most 128 unsent, are the lists
/// of a state that some events reach, with one connection and one worker.
pub fn lists_within_the_window_are_reached<S: Service>()
    ensures { (jobs : List S.Job) (sent : ℕ) →
        sent ≤ length jobs → length jobs ≤ sent + SLOTS →
        IsReached S S.reply_to jobs (map S.reply_to (take sent jobs)) }
{}
