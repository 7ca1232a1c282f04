//! The number of the last table, as a publisher tells it.

ghost use Rattle.std.specs.Prelude.{◌≡◌, IfOk};

use std::alloc::{AllocError, Global};
use std::snapshot::Snapshot;
use std::sync::Arc;
use std::sync::atomic::AtomicU64;
use std::sync::atomic::Ordering::SeqCst;

/// Where the number of a board's last table is told, for followers to look at. Its publisher alone
/// tells one, so it knows which was told last.
#[derive(Drop)]
pub struct LastNumber {
    word: Arc<AtomicU64, Global>,
    pub told: Snapshot<u64>,
}

impl LastNumber {
    /// That of a board's first table.
    pub fn new(alloc: Global) -> Result<LastNumber, AllocError>
        ensures { IfOk result (λ last. last.told.value ≡ 0) }
    {
        Ok(LastNumber {
            word: Arc::new(alloc, AtomicU64::new(0))?,
            told: Snapshot::of(&0),
        })
    }

    /// Tells a number.
    pub fn tell(&mut self, number: u64)
        ensures { self.new.told.value ≡ number }
    {
        self.word.store(number, SeqCst);
        self.told = Snapshot::of(&number);
    }

    /// Where a follower looks.
    pub fn share(&self) -> Result<Arc<AtomicU64, Global>, AllocError> {
        Arc::try_clone(&self.word)
    }
}
