//! The half of a connection that sends replies.

ghost use Rattle.std.specs.Prelude.{◌≡◌, ◌<◌, [], Ok};

use crate::signals::HalfSignals;
use mac_decide::{Macaroons, laws};
use mac_order::laws::equal_jobs_hold_the_same;
use mac_order::{Next, Outlet};
use mac_queue::{Post, Taker};
use mac_wire::{GATHERED, Sink, Unsent, Version, append_reply, send_all, whole_frames};
use std::alloc::Global;
use std::sync::Wait;

/// Why no more replies are sent.
#[derive(Clone, Copy, Debug, PartialEq, Eq)]
pub enum OutboundFault {
    /// The sink failed.
    Write,
    /// Memory was refused, here or to a worker.
    NoMemory,
    /// An answer came that was not due.
    Stranger,
    /// The bytes written, the places or the sink's failures can't be counted any more.
    Exhausted,
}

/// What came of asking for the next reply.
enum Due {
    /// A reply was gathered.
    Gathered,
    /// The next reply isn't there yet.
    Waiting,
    /// An answer was there to another job.
    Stranger,
    /// Memory ran out for the reply's frame.
    NoMemory,
    /// The reply's place can't be told any more.
    Exhausted,
}

/// The half of a connection that sends replies: its end of the ring, and the mailbox of its
/// answers. Replies are gathered and written many at a time.
#[derive(Drop)]
pub struct Outbound {
    pub ring: Outlet<Macaroons>,
    pub taker: Taker<Macaroons>,
    pub version: Version,
    /// The place of the first reply, which came first through the ring.
    pub base: u64,
    pub gathered: Vec<u8>,
    pub sent: u64,
    pub written: u64,
}

impl Outbound {
    ghost use Rattle.mac_order.specs.Ring.{received};
    ghost use Rattle.mac_order.specs.Buffer.{fresh_buffer};
    ghost use Rattle.mac_serve.specs.Sending.{Stands, StepsAlone, Releases, Flushes, SendsAll, SendsUnsent, SendsBoth};

    /// A half that has sent nothing, for a stream of this version, from this place on.
    pub fn new(
        alloc: Global,
        ring: Outlet<Macaroons>,
        taker: Taker<Macaroons>,
        version: Version,
        base: u64,
    ) -> Outbound
        requires fresh { ring.buffer ≡ fresh_buffer }
        requires empty { received ring ≡ [] }
        ensures ring { result.ring ≡ ring }
        ensures version { result.version ≡ version }
        ensures base { result.base ≡ base }
        ensures stands { Stands taker result }
        ensures none { result.written ≡ 0 }
    {
        Outbound {
            ring,
            taker,
            version,
            base,
            gathered: Vec::new(alloc),
            sent: 0,
            written: 0,
        }
    }

    /// Opens every slip that it may. Whether there was one.
    fn look(&mut self) -> bool
        ensures { StepsAlone (Ok result) self.old self.new }
    {
        let mut found = false;
        while self.ring.look() {
            found = true;
        }
        found
    }

    /// Takes one post, and settles its answer. Whether there was one.
    fn settle_next<R: Wait>(&mut self, rt: &R) -> Result<bool, OutboundFault>
        ensures { StepsAlone result self.old self.new }
    {
        let Some(post) = self.taker.take(rt) else {
            return Ok(false);
        };
        match post {
            Post::Failed(_) => Err(OutboundFault::NoMemory),
            Post::Answered(place, answer) => match self.ring.settle(place, answer) {
                Ok(()) => Ok(true),
                Err(_) => Err(OutboundFault::Stranger),
            },
        }
    }

    /// Takes every post that is there, and settles their answers. Whether there was one.
    fn settle_all<R: Wait>(&mut self, rt: &R) -> Result<bool, OutboundFault>
        ensures { StepsAlone result self.old self.new }
    {
        let mut found = false;
        for _ in rt.forever() {
            if !self.settle_next(rt)? {
                return Ok(found);
            }
            found = true;
        }
        unreachable!()
    }

    /// Gathers the reply of the next place, where it is due.
    fn release_next(&mut self) -> Due
        ensures { Releases result self.old self.new }
    {
        laws::replies_can_be_sent();
        equal_jobs_hold_the_same::<Macaroons>();
        let Some(place) = self.base.checked_add(self.ring.next_place()) else {
            return Due::Exhausted;
        };
        match self.ring.release() {
            Next::Reply(_, reply) => {
                match append_reply(&mut self.gathered, &reply, self.version, place) {
                    Ok(()) => Due::Gathered,
                    Err(_) => Due::NoMemory,
                }
            }
            Next::Stranger(_) => Due::Stranger,
            Next::Waiting => Due::Waiting,
            Next::Closed => Due::Waiting,
        }
    }

    /// Writes what is gathered.
    fn flush<W: Sink>(&mut self, sink: &mut W) -> Result<(), OutboundFault>
        requires { W.faults sink.old < u64.MAX }
        ensures { Flushes W.tells (W.written sink.old) (W.written sink.new)
            (W.faults sink.old) (W.faults sink.new) result self.old self.new }
    {
        laws::replies_can_be_sent();
        let due = self.ring.next_place();
        let Some(written) = self.written.checked_add(self.gathered.len() as u64) else {
            return Err(OutboundFault::Exhausted);
        };
        match send_all(sink, self.gathered.as_slice()) {
            Ok(()) => {
                self.written = written;
                self.sent = due;
                self.gathered.clear();
                Ok(())
            }
            Err((_, count)) => {
                self.written += count as u64;
                self.sent = self
                    .sent
                    .saturating_add(whole_frames(&self.gathered[..count]));
                Err(OutboundFault::Write)
            }
        }
    }

    /// Sends every reply that is due.
    fn release_all<R: Wait, W: Sink>(&mut self, rt: &R, sink: &mut W) -> Result<(), OutboundFault>
        requires { W.faults sink.old < u64.MAX }
        ensures { SendsAll W.tells (W.written sink.old) (W.written sink.new)
            (W.faults sink.old) (W.faults sink.new) result self.old self.new }
    {
        for _ in rt.forever() {
            match self.release_next() {
                Due::Gathered if self.gathered.len() < GATHERED => {}
                Due::Gathered => self.flush(sink)?,
                Due::Waiting => return self.flush(sink),
                Due::Stranger => {
                    self.flush(sink)?;
                    return Err(OutboundFault::Stranger);
                }
                Due::NoMemory => return Err(OutboundFault::NoMemory),
                Due::Exhausted => return Err(OutboundFault::Exhausted),
            }
        }
        unreachable!()
    }

    /// Opens the slips and settles the answers that are there, and sends every reply that is due.
    /// Whether anything was there.
    fn turn<R: Wait, W: Sink>(&mut self, rt: &R, sink: &mut W) -> Result<bool, OutboundFault>
        requires { W.faults sink.old < u64.MAX }
        ensures { SendsAll W.tells (W.written sink.old) (W.written sink.new)
            (W.faults sink.old) (W.faults sink.new) result self.old self.new }
    {
        let has_looked = self.look();
        let has_settled = self.settle_all(rt)?;
        self.release_all(rt, sink)?;
        Ok(has_looked | has_settled)
    }

    /// Sends replies until the inbound half has ended and no slip is left that an answer will come
    /// for, or until a fault.
    fn send_until_done<R: Wait, W: Sink>(
        &mut self,
        rt: &R,
        sink: &mut W,
        signals: &HalfSignals,
    ) -> Result<(), OutboundFault>
        requires { W.faults sink.old < u64.MAX }
        ensures { SendsAll W.tells (W.written sink.old) (W.written sink.new)
            (W.faults sink.old) (W.faults sink.new) result self.old self.new }
    {
        for _ in rt.forever() {
            if self.turn(rt, sink)? {
                signals.make_room(self.sent);
                continue;
            }
            let notice = self.taker.announce_due(self.ring.next_place());
            let has_ended = signals.has_inbound_ended();
            match self.turn(rt, sink) {
                Ok(true) => self.taker.withdraw(notice),
                Ok(false) if !has_ended || self.awaits_answers(signals) => {
                    signals.make_room(self.sent);
                    self.taker.sleep(rt, notice);
                }
                Ok(false) => {
                    self.taker.withdraw(notice);
                    return Ok(());
                }
                Err(fault) => {
                    self.taker.withdraw(notice);
                    return Err(fault);
                }
            }
        }
        unreachable!()
    }

    /// Whether answers will come for the slips that are open.
    fn awaits_answers(&self, signals: &HalfSignals) -> bool {
        self.ring.open_slips() > 0 && !signals.has_inbound_failed()
    }

    /// Sends what is unsent from before.
    fn send_unsent<W: Sink>(sink: &mut W, unsent: &mut Unsent) -> Result<(), OutboundFault>
        requires { W.faults sink.old < u64.MAX }
        ensures { SendsUnsent W.tells unsent.old unsent.new (W.written sink.old)
            (W.written sink.new) (W.faults sink.old) (W.faults sink.new) result }
    {
        match send_all(sink, unsent.as_slice()) {
            Ok(()) => {
                unsent.remove(unsent.len());
                Ok(())
            }
            Err((_, count)) => {
                unsent.remove(count);
                Err(OutboundFault::Write)
            }
        }
    }

    /// Sends where the failures of the sink can be counted.
    fn send_if_counted<R: Wait, W: Sink>(
        &mut self,
        rt: &R,
        sink: &mut W,
        unsent: &mut Unsent,
        signals: &HalfSignals,
    ) -> Result<(), OutboundFault>
        ensures { SendsBoth W.tells unsent.old unsent.new (W.written sink.old)
            (W.written sink.new) (W.faults sink.old) (W.faults sink.new) result self.old self.new }
    {
        if sink.faults() == u64::MAX {
            return Err(OutboundFault::Exhausted);
        }
        Outbound::send_unsent(sink, unsent)?;
        self.send_until_done(rt, sink, signals)
    }

    /// Sends what is unsent from before, and then replies until the inbound half has ended and
    /// nothing more is due, or until a fault, which the sink hears of. The inbound half hears of
    /// the end.
    pub fn run<R: Wait, W: Sink>(
        &mut self,
        rt: &R,
        sink: &mut W,
        unsent: &mut Unsent,
        signals: &HalfSignals,
    ) -> Result<(), OutboundFault>
        ensures { SendsBoth W.tells unsent.old unsent.new (W.written sink.old)
            (W.written sink.new) (W.faults sink.old) (W.faults sink.new) result self.old self.new }
    {
        signals.begin_outbound();
        let ended = self.send_if_counted(rt, sink, unsent, signals);
        if ended.is_err() {
            self.taker.close();
            sink.give_up();
        }
        signals.end_outbound();
        self.taker.ring_putter();
        ended
    }
}
