//! Both ends of a ring, in one thread again.

ghost use Rattle.std.specs.Prelude.{◌≡◌, ◌≤◌, ◌+◌, ◌++◌, length, map, take};
ghost use Rattle.mac_order.specs.History.{IsReached};
ghost use Rattle.mac_order.specs.Ring.{IsRing, admitted, free_slips, received, waiting, released, Knows, Looks, IsKept};

use crate::intake::Intake;
use crate::laws;
use crate::outlet::Outlet;
use crate::ring::RING_SLIPS_MAX;
use crate::service::Service;

/// What a ring has done so far.
#[derive(Clone, Copy, Debug, PartialEq, Eq)]
pub struct Totals {
    /// How many jobs were admitted.
    pub admitted: u64,
    /// How many replies were released.
    pub released: u64,
}

/// Lets the two ends of a ring learn of one another, and tells what the ring has done so far.
pub fn meet<S: Service>(intake: &mut Intake<S>, outlet: &mut Outlet<S>) -> Totals
    requires ring { IsRing intake.old outlet.old }
    ensures intake { Knows intake.old intake.new }
    ensures outlet { Looks outlet.old outlet.new }
    ensures rest { received outlet.new ++ waiting outlet.new ≡ admitted intake.new }
    ensures free { RING_SLIPS_MAX ≤ free_slips intake.new + length (waiting outlet.new) }
    ensures totals { result ≡ record {
      admitted = length (admitted intake.new);
      released = length (released S.reply_to outlet.new);
    } }
    ensures released { released S.reply_to outlet.new ≡
        map S.reply_to (take result.released (admitted intake.new)) }
    ensures kept { IsKept outlet.new }
    ensures state { IsReached S S.reply_to (admitted intake.new) (released S.reply_to outlet.new) }
{
    laws::lists_within_the_window_are_reached::<S>();
    intake.producer.slots_beside(&mut outlet.consumer);
    outlet.consumer.slots_beside(&mut intake.producer);
    Totals {
        admitted: intake.place,
        released: outlet.buffer.next_place(),
    }
}
