//! The ring between the two ends of a ring.

ghost use Rattle.std.specs.Prelude.{◌≡◌, ◌<◌, ◌-◌, ◌^◌, [], length, IfOk};
ghost use Rattle.mac_order.specs.Buffer.{fresh_buffer};
ghost use Rattle.mac_order.specs.Ring.{IsRing, admitted, free_slips, received, waiting};

use crate::intake::Intake;
use crate::numbered::Numbered;
use crate::outlet::Outlet;
use crate::reorder::Reorder;
use crate::service::{NoMemory, Service};
use rtrb::RingBuffer;
use std::alloc::Global;

/// The most slips that a ring holds.
pub const RING_SLIPS_MAX: usize = 64;

/// A ring with nothing in it. Takes all the memory that the ring ever takes.
pub fn make_ring<S: Service>(alloc: Global) -> Result<(Intake<S>, Outlet<S>), NoMemory>
    ensures ring { IfOk result (λ ends. IsRing ends.0 ends.1) }
    ensures intake { IfOk result (λ ends.
        (admitted ends.0 ≡ []) × (free_slips ends.0 ≡ RING_SLIPS_MAX)) }
    ensures outlet { IfOk result (λ ends. (received ends.1 ≡ []) ×
        (waiting ends.1 ≡ []) × (ends.1.buffer ≡ fresh_buffer)) }
{
    let (producer, consumer) = RingBuffer::with_protocol::<Global, Numbered>(
        alloc,
        RING_SLIPS_MAX,
    )?;
    Ok((
        Intake::new(producer),
        Outlet::new(consumer, Reorder::new(alloc)?),
    ))
}
