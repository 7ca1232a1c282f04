//! The queue's books, once all passes are home.

ghost use Rattle.std.specs.Prelude.{◌≡◌, All, length};
ghost use Rattle.mac_queue.specs.Tally.{IsTally};

use super::account::{Sum, Total};
use super::{PASSES, Queue, QueuePass};
use mac_order::Service;
use std::sync::Wait;

/// How many tickets were put, how many of them were claimed, and how many are left in the queue.
#[derive(Clone, Copy)]
pub struct Tally {
    /// The tickets that all passes put.
    pub put: u64,
    /// The tickets that all passes claimed.
    pub claimed: u64,
    /// The tickets that the queue holds.
    pub left: u64,
}

impl<S: Service> Queue<S> {
    /// What the passes of the queue did, all of which are asked for.
    pub fn tally<R: Wait>(&self, rt: &R, passes: Vec<QueuePass<S>>) -> Tally
        requires count { length passes.items ≡ PASSES }
        requires queue { All (λ pass. pass.queue ≡ self.now.tickets) passes.items }
        ensures { IsTally passes.items result }
    {
        let mut passes = passes.into_iter();
        let Some(first) = passes.next() else {
            unreachable!()
        };
        let QueuePass {
            seat: mut whole,
            number: _,
            puts: mut put,
        } = first;
        for pass in passes {
            let QueuePass {
                seat,
                number: _,
                puts,
            } = pass;
            put += puts;
            self.cells.absorb::<Sum>(&mut whole, seat);
        }
        let left = self.cells.len_as::<Total, R>(rt, &mut whole) as u64;
        Tally {
            put,
            claimed: put - left,
            left,
        }
    }
}
