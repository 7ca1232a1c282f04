//! The clients of a turn, out of their slots.

ghost use Rattle.std.specs.Prelude.{◌≡◌, ◌+◌, ◌++◌, ◌∷◌, [], All, IfNone, IfOk, IfSome, IsTrue};
ghost use Rattle.std.specs.Prelude.{OnErr, OnOk, OnSome, map, sum_by};
ghost use Rattle.mac_loop.specs.Alive.{IsAlive};
ghost use Rattle.mac_loop.specs.Batch.{rights_lent, rights_of};
ghost use Rattle.mac_loop.specs.Backlog.{rounded};
ghost use Rattle.mac_loop.specs.Unsent.{unsent_on};

use crate::backlog::Backlog;
use crate::lent::Lent;
use crate::members::Member;
use crate::port::SocketPort;
use crate::register::Origin;
use mac_board::Outlook;
use mac_plain::{Client, Round, RoundTerms};
use std::alloc::{AllocError, Global};
use std::thread::Threads;

/// The clients of a turn, each with the slot that it is out of.
#[derive(Drop)]
pub struct Batch<O: Origin> {
    clients: Vec<Client<SocketPort>>,
    lent: Vec<Lent<O>>,
    ghost alive: { All IsAlive clients.items },
    ghost called: { map rights_of clients.items ≡ map rights_lent lent.items },
}

impl<O: Origin> Batch<O> {
    ghost use Rattle.mac_loop.specs.Roll.{count_batch, slots_of, unsent_batch};

    /// None, with room for so many.
    pub fn with_capacity(alloc: Global, count: usize) -> Result<Batch<O>, AllocError>
        ensures { IfOk result (λ batch. count_batch batch ≡ 0) }
    {
        Ok(Batch {
            clients: Vec::with_capacity(alloc, count)?,
            lent: Vec::with_capacity(alloc, count)?,
        })
    }

    /// Whether there are none.
    pub fn is_empty(&self) -> bool
        ensures { IsTrue result → count_batch self.now ≡ 0 }
    {
        self.clients.is_empty()
    }

    /// How many bytes are unsent on them.
    pub fn unsent(&self) -> Backlog
        ensures { result.bytes ≡ rounded (unsent_batch self.now) }
    {
        unsent_on_all(self.clients.as_slice())
    }

    /// One more, out of this slot. Without memory it comes back.
    pub fn push(&mut self, slot: usize, member: Member<O>) -> Result<(), Member<O>>
        ensures pushed { OnOk result (count_batch self.new ≡ count_batch self.old + 1) }
        ensures same { OnErr result (count_batch self.new ≡ count_batch self.old) }
        ensures slot { OnOk result (slots_of self.new ≡ slots_of self.old ++ slot ∷ []) }
        ensures slots { OnErr result (slots_of self.new ≡ slots_of self.old) }
    {
        let Member {
            client,
            note,
            presence,
        } = member;
        let lent = Lent {
            slot,
            note,
            presence,
        };
        if let Err(refused) = self.lent.push(lent) {
            return Err(refused.value.with(client));
        }
        match self.clients.push(client) {
            Ok(()) => Ok(()),
            Err(refused) => {
                let Some(lent) = self.lent.pop() else {
                    unreachable!()
                };
                Err(lent.with(refused.value))
            }
        }
    }

    /// The last one, and the slot that it is out of.
    pub fn pop(&mut self) -> Option<(usize, Member<O>)>
        ensures none { IfNone result (count_batch self.new ≡ count_batch self.old) }
        ensures one { OnSome result (count_batch self.new + 1 ≡ count_batch self.old) }
        ensures slot { IfSome result (λ last.
            slots_of self.old ≡ slots_of self.new ++ last.0 ∷ []) }
    {
        let lent = self.lent.pop()?;
        let client = self.clients.pop()?;
        Some((lent.slot, lent.with(client)))
    }

    /// Serves each once.
    pub fn serve<R: Threads + Sync, K: Outlook>(
        &mut self,
        rt: &R,
        round: &mut Round,
        terms: RoundTerms,
        outlook: &mut K,
    )
        ensures count { count_batch self.new ≡ count_batch self.old }
        ensures slots { slots_of self.new ≡ slots_of self.old }
    {
        let clients = self.clients.as_mut_slice();
        round.serve(rt, terms, outlook, clients);
    }
}

/// How many bytes are unsent on these clients.
fn unsent_on_all(clients: &[Client<SocketPort>]) -> Backlog
    ensures { result.bytes ≡ rounded (sum_by unsent_on clients.now) }
{
    let mut all = Backlog::none();
    for client in clients {
        all.add(client.unsent());
    }
    all
}
