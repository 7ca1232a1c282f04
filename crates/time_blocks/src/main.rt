//! `time_blocks COUNT`: the SHA-256 digest of COUNT blocks of zeros, in hexadecimal. What a block
//! costs is seen by timing a run.
#![tactic(auto)]

ghost use Rattle.std.specs.Prelude.{◌≡◌, ◌*◌, replicate};
ghost use Rattle.sha2.specs.Sha256.{sha256};

use sha2::{Digest, Sha256};
use sha256x8::BLOCK;
use std::{env, io};

/// The digest of so many blocks of zeros.
fn digest_of_zeros(blocks: u64) -> [u8; 32]
    ensures { result ≡ sha256 (replicate (64 * blocks) 0) }
{
    let mut hasher = Sha256::new();
    for fed in 0..blocks {
        hasher.update(&[0u8; BLOCK]);
    }
    hasher.finalize()
}

fn main(rt: HostRuntime) -> io::Result<()> {
    let count = env::args(&rt)?.nth(1);
    let blocks = count.and_then(|word| word.parse().ok()).unwrap_or(0);
    let digits = hex::encode(rt.alloc(), digest_of_zeros(blocks))?;
    rt.println(digits)
}
