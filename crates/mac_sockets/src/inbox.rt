//! What is handed to a thread that waits by a poll.

ghost use Rattle.std.specs.Prelude.{◌≡◌, IfErr};

use crossbeam_queue::SegQueue;
use mio::Waker;
use std::alloc::{AllocError, Global};
use std::sync::Wait;

/// A queue for one thread, which any thread puts values into, and what wakes the one that takes
/// them.
#[derive(Drop)]
pub struct Inbox<T> {
    queue: SegQueue<T>,
    waker: Waker,
}

impl<T: Drop> Inbox<T> {
    /// An empty one, whose thread is woken so.
    pub fn new(alloc: Global, waker: Waker) -> Result<Inbox<T>, AllocError> {
        Ok(Inbox {
            queue: SegQueue::new(alloc)?,
            waker,
        })
    }

    /// Puts a value in, and wakes the thread. Without memory the value comes back.
    pub fn push<R: Wait>(&self, rt: &R, value: T) -> Result<(), T>
        ensures { IfErr result (λ back. back ≡ value) }
    {
        self.queue.push(rt, value)?;
        self.wake();
        Ok(())
    }

    /// The value that has waited longest, if there is one.
    pub fn pop<R: Wait>(&self, rt: &R) -> Option<T> {
        self.queue.pop(rt)
    }

    /// Wakes the thread, whatever there is for it.
    pub fn wake(&self) {
        let _ = self.waker.wake();
    }
}
