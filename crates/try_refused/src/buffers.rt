//! Calls of `mac_order` on the buffer and the ring.

use crate::outcome::{Outcome, once_more};
use mac_decide::Macaroons;
use mac_order::{Reorder, make_ring};
use std::alloc::Global;

pub(crate) fn makes_buffers(alloc: Global) -> Outcome {
    once_more(is_buffer(alloc), is_buffer(alloc))
}

fn is_buffer(alloc: Global) -> Option<bool> {
    let buffer = Reorder::<Macaroons>::new(alloc).ok()?;
    Some(buffer.open_slips() == 0 && buffer.next_place() == 0 && !buffer.is_closed())
}

pub(crate) fn makes_rings(alloc: Global) -> Outcome {
    once_more(is_ring(alloc), is_ring(alloc))
}

fn is_ring(alloc: Global) -> Option<bool> {
    let (intake, outlet) = make_ring::<Macaroons>(alloc).ok()?;
    Some(intake.free_slips() == 64 && outlet.open_slips() == 0)
}
