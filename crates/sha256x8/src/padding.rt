//! The blocks of a padded message (FIPS 180-4, section 5.1.1) that follow its first block.
ghost use Rattle.std.specs.Prelude.{◌≡◌, ℕ, ◌-◌, ◌*◌, ◌<◌, ◌≤◌, ◌∷◌, ◌++◌, [], if◌then◌else◌, length, nat_lt, replicate, slice_index, slice_index_or, take};
ghost use Rattle.sha256x8.specs.Lanes.{text_at};
ghost use Rattle.std.specs.Int.{to_be_bytes, w64};
ghost use Rattle.sha256x8.specs.Padded.{IsBlock, padded_text};

use std::simd::u32x8;

/// The length of a block in bytes (FIPS 180-4, section 1).
pub const BLOCK: usize = 64;

/// Where the message's length in bits stands in its last block.
const BIT_COUNT: usize = 56;

/// How many blocks follow the first one of a message, where `text` does.
#[inline(always)]
pub(crate) fn block_count(text: &[u8]) -> usize
    ensures { 64 * result ≡ length (padded_text text.now) }
{
    (text.len() + 8) / BLOCK + 1
}

/// These bytes, and zeros.
#[inline(always)]
fn filled(bytes: &[u8]) -> [u8; 64]
    requires { length bytes.now ≤ 64 }
    ensures { result ≡ bytes.now ++ replicate (64 - length bytes.now) 0 }
{
    let mut block = [0; BLOCK];
    block[..bytes.len()].copy_from_slice(bytes);
    block
}

/// These bytes, a bit 1, and zeros.
#[inline(always)]
fn ended(bytes: &[u8]) -> [u8; 64]
    requires { length bytes.now < 64 }
    ensures { result ≡ bytes.now ++ 0x80 ∷ replicate (63 - length bytes.now) 0 }
{
    let mut block = filled(bytes);
    block[bytes.len()] = 0x80;
    block
}

/// The block with a message's length in bits at its end.
#[inline(always)]
fn with_bit_count(mut block: [u8; 64], bit_count: u64) -> [u8; 64]
    ensures { result ≡ take 56 block ++ to_be_bytes w64 bit_count }
{
    block[BIT_COUNT..].copy_from_slice(&bit_count.to_be_bytes());
    block
}

/// Block `index` of those that follow the first one of a message, where `text` does; zeros where
/// there are not so many.
#[inline(always)]
pub(crate) fn padded_block(text: &[u8], index: usize) -> [u8; 64]
    ensures { IsBlock text.now index result }
{
    if index >= block_count(text) {
        return [0; BLOCK];
    }
    let start = BLOCK * index;
    if start + BLOCK <= text.len() {
        return filled(&text[start..start + BLOCK]);
    }
    let bit_count = (text.len() as u64 + 64).wrapping_mul(8);
    if start > text.len() {
        return with_bit_count([0; BLOCK], bit_count);
    }
    let block = ended(&text[start..]);
    if text.len() - start < BIT_COUNT {
        with_bit_count(block, bit_count)
    } else {
        block
    }
}

/// Block `index` of what follows the first block of each message.
#[inline(always)]
pub(crate) fn padded_blocks(texts: &[&[u8]; 8], index: usize) -> [[u8; 64]; 8]
    ensures { (j : ℕ) → j < 8
        → IsBlock (text_at texts.now j) index (slice_index_or result j []) }
{
    [
        padded_block(texts[0], index),
        padded_block(texts[1], index),
        padded_block(texts[2], index),
        padded_block(texts[3], index),
        padded_block(texts[4], index),
        padded_block(texts[5], index),
        padded_block(texts[6], index),
        padded_block(texts[7], index),
    ]
}

/// 1 where `text` has a block `index` after the first one of its message, and else 0.
#[inline(always)]
fn has_block(text: &[u8], index: usize) -> u32
    ensures { result ≡ (if nat_lt (64 * index) (length (padded_text text.now)) then 1 else 0) }
{
    u32::from(index < block_count(text))
}

/// For each text, 1 where it has a block `index` after the first one of its message, and else 0.
#[inline(always)]
pub(crate) fn have_block(texts: &[&[u8]; 8], index: usize) -> u32x8
    ensures { (j : ℕ) → j < 8 → slice_index result j
        ≡ (if nat_lt (64 * index) (length (padded_text (text_at texts.now j))) then 1 else 0) }
{
    u32x8::from_array([
        has_block(texts[0], index),
        has_block(texts[1], index),
        has_block(texts[2], index),
        has_block(texts[3], index),
        has_block(texts[4], index),
        has_block(texts[5], index),
        has_block(texts[6], index),
        has_block(texts[7], index),
    ])
}

/// The greatest number of blocks after the first one of a message.
#[inline(always)]
pub(crate) fn greatest_count(texts: &[&[u8]; 8]) -> usize
    ensures { (j : ℕ) → j < 8
        → length (padded_text (text_at texts.now j)) ≤ 64 * result }
{
    let mut greatest = 0;
    for text in texts {
        greatest = greatest.max(block_count(text));
    }
    greatest
}
