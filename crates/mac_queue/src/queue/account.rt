//! The queue's rule: what each pass has put and claimed, and what each step adds. These types are
//! for the proofs alone.

ghost use Rattle.std.specs.Prelude.{◌≡◌, ◌+◌, ◌-◌, ◌<◌, ◌^◌, [], ◌∷◌, ◌++◌, length};
ghost use Rattle.mac_queue.specs.Balance.{account, entry_of};

use crate::mailbox::Mailbox;
use crate::ticket::Ticket;
use crossbeam_queue::protocol::{Join, Lesson, Outcome, Protocol, Split};
use mac_order::Service;
use std::collections::LinkedList;

/// What a pass has put and claimed, each with the mailbox for its answer, and its parts of the
/// right to know the whole. No value is made.
pub struct Account<J, M> {
    pub parts: u64,
    pub put: LinkedList<(M, (u64, J))>,
    pub claimed: LinkedList<(M, (u64, J))>,
}

/// What the passes of a service's queue know.
pub type Books<S> = Account<<S as Service>::Job, Mailbox<S>>;

pub struct Balance;

impl<S: Service> Protocol<Ticket<S>, Books<S>> for Balance {
    ghost use Rattle.std.specs.Prelude.{[]};
    ghost use Rattle.mac_queue.specs.Balance.{account, IsBalanced};
    ghost use Rattle.mac_queue.specs.declared.queue.TheConstants.{PASSES};

    ghost holds = { IsBalanced };

    ghost first = { account PASSES [] [] };
}

/// A fresh pass is cut off.
pub struct CutOff;

impl<J, M> Split<Account<J, M>> for CutOff {
    ghost left = { λ a. account (a.parts - 1) [] [] };

    ghost right = { λ a. account 1 [] [] };
}

/// A pass takes in what another has put and claimed.
pub struct Sum;

impl<J, M> Join<Account<J, M>> for Sum {
    ghost both = { λ a b. account (a.parts + b.parts) (a.put ++ b.put) (a.claimed ++ b.claimed) };

    ghost spent = { account 0 [] [] };
}

pub struct Puts;

impl<S: Service> Outcome<Ticket<S>, Books<S>> for Puts {
    ghost then = { λ a ticket b. b ≡ account a.parts (a.put ++ entry_of ticket ∷ []) a.claimed };
}

impl<S: Service> Lesson<Ticket<S>, Books<S>> for Puts {
    ghost use Rattle.std.specs.Prelude.{⊤};

    ghost fact = { λ a tickets. ⊤ };
}

/// A pop adds to what was claimed, which is at most what all passes may put.
pub struct Claims;

impl<S: Service> Outcome<Ticket<S>, Books<S>> for Claims {
    ghost then = { λ a ticket b.
        (b ≡ account a.parts a.put (a.claimed ++ entry_of ticket ∷ []))
        × (length b.claimed < 2 ^ 62) };
}

impl<S: Service> Lesson<Ticket<S>, Books<S>> for Claims {
    ghost use Rattle.std.specs.Prelude.{⊤};

    ghost fact = { λ a tickets. ⊤ };
}

/// What a pass that has every part knows.
pub struct Total;

impl<S: Service> Lesson<Ticket<S>, Books<S>> for Total {
    ghost use Rattle.mac_queue.specs.Balance.{IsAll};

    ghost fact = { IsAll };
}
