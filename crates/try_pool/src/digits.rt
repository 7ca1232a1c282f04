//! A service whose work is nothing.

ghost use Rattle.std.specs.Int.{to_be_bytes, w64};
ghost use Rattle.std.proofs.Common.{rules};

use mac_order::{NoMemory, Service};
use std::alloc::{AllocError, Global};

/// Jobs are numbers, and the reply to a number is its eight bytes, the greatest first. For one job
/// there is never memory.
pub(crate) struct Digits;

/// The job whose work meets want of memory.
pub(crate) const REFUSED: u64 = u64::MAX;

impl Service for Digits {
    type Job = u64;

    type Reply = [u8; 8];

    ghost reply_to = { to_be_bytes w64 };

    fn work(_alloc: Global, job: &u64) -> Result<[u8; 8], NoMemory> {
        if *job == REFUSED {
            return Err(AllocError);
        }
        Ok(job.to_be_bytes())
    }

    fn copy(_alloc: Global, job: &u64) -> Result<u64, NoMemory> {
        Ok(*job)
    }

    ghost equal_jobs = { Prim.search rules };
}
