//! The digests of eight messages that begin with a block each.
ghost use Rattle.std.specs.Prelude.{◌≡◌, ℕ, ◌+◌, ◌<◌, List, ◌++◌, [], length, slice_index, slice_index_or};
ghost use Rattle.sha2.specs.Sha256.{compress, final_hash, initial_hash_256, sha256};
ghost use Rattle.sha256x8.specs.Lanes.{lane_state, text_at};
ghost use Rattle.sha256x8.specs.Padded.{after_block};

use crate::block::{compress, words_of};
use crate::padding::{greatest_count, have_block, padded_blocks};
use crate::state::{chosen, digest_words, digests_of, initial_state, picked};

/// Takes block `index` after the first one into the hash values of the messages that have so many.
#[inline(always)]
fn take_block(state: &mut [[u32; 8]; 8], texts: &[&[u8]; 8], index: usize)
    ensures { (j : ℕ) → j < 8 → lane_state j state.new ≡ after_block (lane_state j state.old)
        (text_at texts.now j) index }
{
    let mut next = *state;
    compress(&mut next, &words_of(&padded_blocks(texts, index)));
    *state = chosen(have_block(texts, index), next, *state);
}

/// What the type says of a block, for proofs.
#[inline(always)]
fn is_whole(_block: &[u8; 64])
    ensures { length _block.now ≡ 64 }
{}

/// The same of eight blocks.
#[inline(always)]
fn are_whole(blocks: &[[u8; 64]; 8])
    ensures { (j : ℕ) → j < 8 → length (slice_index_or blocks.now j []) ≡ 64 }
{
    for block in blocks {
        is_whole(block);
    }
}

/// The hash values after the first block of each of eight messages.
#[inline(always)]
fn begin_each(blocks: &[[u8; 64]; 8]) -> [[u32; 8]; 8]
    ensures { (j : ℕ) → j < 8
        → lane_state j result ≡ compress initial_hash_256 (slice_index_or blocks.now j []) }
{
    let mut state = initial_state();
    compress(&mut state, &words_of(blocks));
    state
}

/// The hash values of eight messages, from those after the first block of each and the text after
/// it.
#[inline(always)]
pub(crate) fn finish_each(mut state: [[u32; 8]; 8], texts: &[&[u8]; 8]) -> [[u32; 8]; 8]
    ensures { (j : ℕ) → j < 8 → (block : List ℕ) → length block ≡ 64
        → lane_state j state ≡ compress initial_hash_256 block
        → lane_state j result ≡ final_hash initial_hash_256 (block ++ text_at texts.now j) }
{
    'blocks: for index in 0..greatest_count(texts) {
        take_block(&mut state, texts, index);
    }
    state
}

/// The digests of eight messages, each a block and a digest: from the hash values after the blocks,
/// and those of the digests.
#[inline(always)]
pub(crate) fn close_each(mut state: [[u32; 8]; 8], inner: &[[u32; 8]; 8]) -> [[u8; 32]; 8]
    ensures { (j : ℕ) → j < 8 → (block message : List ℕ) → length block ≡ 64
        → lane_state j state ≡ compress initial_hash_256 block
        → lane_state j inner.now ≡ final_hash initial_hash_256 message
        → slice_index_or result j [] ≡ sha256 (block ++ sha256 message) }
{
    compress(&mut state, &digest_words(inner));
    digests_of(&state)
}

/// The digests of eight messages, each a block and the digest of an inner block and a text after
/// it, of any length (FIPS 180-4, section 6.2). It costs the blocks of the longest inner message,
/// and two more.
pub fn nested_digest_each(
    outer_blocks: &[[u8; 64]; 8],
    inner_blocks: &[[u8; 64]; 8],
    texts: &[&[u8]; 8],
) -> [[u8; 32]; 8]
    ensures { (j : ℕ) → j < 8 → slice_index_or result j []
        ≡ sha256 (slice_index_or outer_blocks.now j []
        ++ sha256 (slice_index_or inner_blocks.now j [] ++ text_at texts.now j)) }
{
    are_whole(outer_blocks);
    are_whole(inner_blocks);
    let inner = finish_each(begin_each(inner_blocks), texts);
    close_each(begin_each(outer_blocks), &inner)
}

/// The digests of eight messages, each an outer block and the digest of an inner block and a text
/// after it, of any length, where each message has one of four pairs of such blocks: message `j`
/// that at place `pairs[j]`. It costs a block less than `nested_digest_each`.
pub fn paired_digest_each(
    outer_blocks: &[[u8; 64]; 4],
    inner_blocks: &[[u8; 64]; 4],
    pairs: &[usize; 8],
    texts: &[&[u8]; 8],
) -> [[u8; 32]; 8]
    requires { (j : ℕ) → j < 8 → slice_index pairs.now j < 4 }
    ensures { (j : ℕ) → j < 8 → slice_index_or result j []
        ≡ sha256 (slice_index_or outer_blocks.now (slice_index pairs.now j) []
        ++ sha256 (slice_index_or inner_blocks.now (slice_index pairs.now j) []
        ++ text_at texts.now j)) }
{
    let blocks = [
        outer_blocks[0],
        outer_blocks[1],
        outer_blocks[2],
        outer_blocks[3],
        inner_blocks[0],
        inner_blocks[1],
        inner_blocks[2],
        inner_blocks[3],
    ];
    are_whole(&blocks);
    let begun = begin_each(&blocks);
    let inner = finish_each(picked(&begun, &inner_lanes(pairs)), texts);
    close_each(picked(&begun, pairs), &inner)
}

/// The lanes of the inner blocks of these pairs, behind the four outer ones.
#[inline(always)]
fn inner_lanes(pairs: &[usize; 8]) -> [usize; 8]
    requires { (j : ℕ) → j < 8 → slice_index pairs.now j < 4 }
    ensures { (j : ℕ) → j < 8 → slice_index result j ≡ 4 + slice_index pairs.now j }
{
    [
        4 + pairs[0],
        4 + pairs[1],
        4 + pairs[2],
        4 + pairs[3],
        4 + pairs[4],
        4 + pairs[5],
        4 + pairs[6],
        4 + pairs[7],
    ]
}
