//! A small service.

ghost use Rattle.std.specs.Int.{to_be_bytes, w64};
ghost use Rattle.std.proofs.Common.{rules};

use mac_order::{NoMemory, Service};
use std::alloc::Global;

/// Jobs are numbers, and the reply to a number is its eight bytes, the greatest first.
pub(crate) struct Digits;

impl Service for Digits {
    type Job = u64;

    type Reply = [u8; 8];

    ghost reply_to = { to_be_bytes w64 };

    fn work(_alloc: Global, job: &u64) -> Result<[u8; 8], NoMemory> {
        Ok(job.to_be_bytes())
    }

    fn copy(_alloc: Global, job: &u64) -> Result<u64, NoMemory> {
        Ok(*job)
    }

    ghost equal_jobs = { Prim.search rules };
}
