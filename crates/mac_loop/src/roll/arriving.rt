//! Connections that were handed to a loop, until they have a slot or go on elsewhere.

use crate::ended::Leaver;
use crate::inbox::Loops;
use crate::register::Origin;
use crate::roll::{Roll, give_way, put_in};
use crate::watch::{PlainFault, Watch};
use mac_board::Outlook;
use std::sync::Wait;
use std::time::Clock;

impl<O: Origin> Roll<O> {
    ghost use Rattle.mac_loop.specs.Roll.{OthersStay};

    /// Has the client of a slot give way to the newcomer, where one is named. Whether there is room
    /// for it: else it is turned away.
    pub fn displace<R: Wait + Clock, W: Watch>(
        &mut self,
        rt: &R,
        watch: &W,
        gives_way: Option<usize>,
    ) -> bool {
        let Some(mut client) = self.newcomer.take() else {
            return false;
        };
        let gone = match gives_way {
            Some(slot) => give_way(&mut self.connections.slots, &mut self.backlog, watch, slot),
            None => None,
        };
        match self.leavers.displace(rt, watch, gone, client.badge) {
            Some(badge) => {
                client.badge = badge;
                client.displaces = None;
                self.newcomer = Some(client);
                true
            }
            None => {
                self.leavers.refuse(client);
                false
            }
        }
    }

    /// Gives the newcomer a slot, behind so many looks at how busy loops are. It is answered under
    /// no older table than before: first the loop comes as far as whoever answered it last. It
    /// stays a newcomer where there is no such table, or no memory.
    pub fn take_in<K: Outlook>(&mut self, outlook: &mut K, looks: u64) -> Option<usize> {
        let client = self.newcomer.take()?;
        let place = client.place;
        let taken = if outlook.reach(place) {
            put_in(
                &mut self.connections,
                &mut self.backlog,
                client,
                outlook,
                looks,
            )
        } else {
            Err(client)
        };
        match taken {
            Ok(slot) => Some(slot),
            Err(client) => {
                self.newcomer = Some(client);
                None
            }
        }
    }

    /// Ends the newcomer by a fault.
    pub fn end_newcomer<R: Wait + Clock, W: Watch>(
        &mut self,
        rt: &R,
        watch: &W,
        fault: PlainFault,
    ) {
        if let Some(client) = self.newcomer.take() {
            let leaver = Leaver::on_the_way(client, fault);
            self.leavers.end(rt, watch, leaver);
        }
    }

    /// Hands the client of a slot on to the loop of a number, where it may move. Without memory it
    /// is a newcomer here.
    pub fn hand_on<R: Wait, K: Outlook>(
        &mut self,
        rt: &R,
        loops: &Loops<O>,
        number: usize,
        slot: usize,
        outlook: &K,
    )
        ensures { OthersStay slot self.old.connections.slots self.new.connections.slots }
    {
        if self.newcomer.is_some() {
            return;
        }
        let Some(member) = self.connections.slots.take(slot) else {
            return;
        };
        if !member.client.may_move() {
            let _ = self.connections.slots.put(slot, member);
            return;
        }
        let _ = self.connections.slots.release(slot);
        self.backlog.subtract(member.client.unsent());
        let client = member.part(outlook);
        let _ = client.port.stream().leave(self.connections.registry());
        match loops.hand(rt, number, client) {
            Ok(enqueued) => self.handed.add(enqueued.badge()),
            Err(client) => self.newcomer = Some(client),
        }
    }
}
