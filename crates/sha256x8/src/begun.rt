//! Digests of messages whose first blocks were hashed before.
ghost use Rattle.std.specs.Prelude.{◌≡◌, ℕ, ◌<◌, List, ◌++◌, [], slice_index, slice_index_or};
ghost use Rattle.sha2.specs.Sha256.{compress, final_hash, initial_hash_256, sha256};
ghost use Rattle.sha256x8.specs.Begun.{IsBegun, listed};
ghost use Rattle.sha256x8.specs.Lanes.{lane_state, text_at};

use crate::block::compress_one;
use crate::constants::INITIAL_HASH;
use crate::digests::{close_each, finish_each};
use crate::padding::{block_count, padded_block};
use crate::state::digest;

/// The hash value after the first block of a message.
pub fn begin(block: &[u8; 64]) -> [u32; 8]
    ensures { IsBegun result block.now }
{
    compress_one(&INITIAL_HASH, block)
}

/// The hash value of a message, from that after its first block and the text after it.
fn finish(mut hash: [u32; 8], text: &[u8]) -> [u32; 8]
    ensures { (block : List ℕ) → IsBegun hash block
        → result ≡ final_hash initial_hash_256 (block ++ text.now) }
{
    'taking: for index in 0..block_count(text) {
        hash = compress_one(&hash, &padded_block(text, index));
    }
    hash
}

/// The digest of a message, an outer block and the digest of an inner block and a text after it, of
/// any length, from the hash values after the two blocks. It costs the blocks of the text and one.
pub fn nested_digest_from(outer: &[u32; 8], inner: &[u32; 8], text: &[u8]) -> [u8; 32]
    ensures { (outer_block inner_block : List ℕ)
        → IsBegun outer.now outer_block → IsBegun inner.now inner_block
        → result ≡ sha256 (outer_block ++ sha256 (inner_block ++ text.now)) }
{
    let inner_digest = digest(&finish(*inner, text));
    digest(&finish(*outer, &inner_digest))
}

/// The word at a place of each hash value.
#[inline(always)]
fn row_of(hashes: &[[u32; 8]; 8], place: usize) -> [u32; 8]
    requires { place < 8 }
    ensures { (j : ℕ) → j < 8
        → slice_index result j ≡ slice_index (slice_index_or hashes.now j []) place }
{
    [
        hashes[0][place],
        hashes[1][place],
        hashes[2][place],
        hashes[3][place],
        hashes[4][place],
        hashes[5][place],
        hashes[6][place],
        hashes[7][place],
    ]
}

/// These hash values, with a lane for each.
#[inline(always)]
fn lanes_of(hashes: &[[u32; 8]; 8]) -> [[u32; 8]; 8]
    ensures { (j : ℕ) → j < 8 → lane_state j result ≡ listed (slice_index_or hashes.now j []) }
{
    [
        row_of(hashes, 0),
        row_of(hashes, 1),
        row_of(hashes, 2),
        row_of(hashes, 3),
        row_of(hashes, 4),
        row_of(hashes, 5),
        row_of(hashes, 6),
        row_of(hashes, 7),
    ]
}

/// The digests of eight messages, each an outer block and the digest of an inner block and a text
/// after it, of any length, from the hash values after each block. It costs a block more than those
/// of the longest text.
pub fn nested_digest_from_each(
    outer: &[[u32; 8]; 8],
    inner: &[[u32; 8]; 8],
    texts: &[&[u8]; 8],
) -> [[u8; 32]; 8]
    ensures { (j : ℕ) → j < 8 → (outer_block inner_block : List ℕ)
        → IsBegun (slice_index_or outer.now j []) outer_block
        → IsBegun (slice_index_or inner.now j []) inner_block
        → slice_index_or result j []
        ≡ sha256 (outer_block ++ sha256 (inner_block ++ text_at texts.now j)) }
{
    let inner = finish_each(lanes_of(inner), texts);
    close_each(lanes_of(outer), &inner)
}
