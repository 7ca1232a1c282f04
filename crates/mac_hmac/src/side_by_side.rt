//! Eight HMACs side by side.
ghost use Rattle.std.specs.Prelude.{◌≡◌, ◌<◌, ◌≤◌, ◌∷◌, ℕ, [], IfSome, slice_index, slice_index_or};
ghost use Rattle.sha256x8.specs.Lanes.{text_at};
ghost use Rattle.mac_hmac.specs.Chain.{chain, extended};
ghost use Rattle.sha256x8.specs.Begun.{IsBegun};
ghost use Rattle.mac_hmac.specs.Hmac.{block_key, hmac, inner_block, outer_block, xor_pad};

use crate::hmac_state::{INNER_PAD, OUTER_PAD, padded_key};
use crate::key::RootKey;
use crate::signature::Sig;
use sha256x8::{nested_digest_each, nested_digest_from_each, paired_digest_each};

/// The block of each key: zero bytes appended, and each byte XORed with the pad's.
#[inline(always)]
fn padded_each(keys: &[[u8; 32]; 8], pad: u8) -> [[u8; 64]; 8]
    ensures { (j : ℕ) → j < 8 → slice_index_or result j []
        ≡ xor_pad (block_key (slice_index_or keys.now j [])) pad }
{
    [
        padded_key(&keys[0], pad),
        padded_key(&keys[1], pad),
        padded_key(&keys[2], pad),
        padded_key(&keys[3], pad),
        padded_key(&keys[4], pad),
        padded_key(&keys[5], pad),
        padded_key(&keys[6], pad),
        padded_key(&keys[7], pad),
    ]
}

/// How many keys are told apart.
const FEW: usize = 4;

/// A few keys, and which of them each of eight is.
#[derive(Drop)]
struct ToldApart {
    few: [[u8; 32]; FEW],
    which: [usize; 8],
}

/// Where the key stands among the first so many, or their number.
fn place_among(few: &[[u8; 32]; FEW], count: usize, key: &[u8; 32]) -> usize
    requires { count ≤ FEW }
    ensures most { result ≤ count }
    ensures found { result < count → slice_index_or few.now result [] ≡ key.now }
{
    for place in 0..count {
        if few[place] == *key {
            return place;
        }
    }
    count
}

/// The keys, told apart where they are few.
fn told_apart(keys: &[[u8; 32]; 8]) -> Option<ToldApart>
    ensures { IfSome result (λ told. (j : ℕ) → j < 8 → slice_index told.which j < FEW
        × (slice_index_or told.few (slice_index told.which j) [] ≡ slice_index_or keys.now j [])) }
{
    let mut few = [[0; 32]; FEW];
    let mut which = [0; 8];
    let mut count = 0;
    for j in 0..8 {
        let place = place_among(&few, count, &keys[j]);
        if place == FEW {
            return None;
        }
        if place == count {
            few[place] = keys[j];
            count += 1;
        }
        which[j] = place;
    }
    Some(ToldApart { few, which })
}

/// The block of each of a few keys.
#[inline(always)]
fn padded_few(keys: &[[u8; 32]; FEW], pad: u8) -> [[u8; 64]; FEW]
    ensures { (k : ℕ) → k < 4 → slice_index_or result k []
        ≡ xor_pad (block_key (slice_index_or keys.now k [])) pad }
{
    [
        padded_key(&keys[0], pad),
        padded_key(&keys[1], pad),
        padded_key(&keys[2], pad),
        padded_key(&keys[3], pad),
    ]
}

/// The HMAC of each text under its key of a few, whose blocks are hashed together.
fn hmac_each_of_few(told: &ToldApart, texts: &[&[u8]; 8]) -> [[u8; 32]; 8]
    requires { (j : ℕ) → j < 8 → slice_index told.now.which j < FEW }
    ensures { (j : ℕ) → j < 8 → slice_index_or result j []
        ≡ hmac (slice_index_or told.now.few (slice_index told.now.which j) [])
        (text_at texts.now j) }
{
    paired_digest_each(
        &padded_few(&told.few, OUTER_PAD),
        &padded_few(&told.few, INNER_PAD),
        &told.which,
        texts,
    )
}

/// The HMAC of each text under the key of its place (RFC 2104, section 2), for eight of both. It
/// costs a quarter less where at most four keys differ and the texts are short.
pub fn hmac_each(keys: &[[u8; 32]; 8], texts: &[&[u8]; 8]) -> [[u8; 32]; 8]
    ensures { (j : ℕ) → j < 8 → slice_index_or result j []
        ≡ hmac (slice_index_or keys.now j []) (text_at texts.now j) }
{
    match told_apart(keys) {
        Some(told) => hmac_each_of_few(&told, texts),
        None => nested_digest_each(
            &padded_each(keys, OUTER_PAD),
            &padded_each(keys, INNER_PAD),
            texts,
        ),
    }
}

/// These digests as signatures.
#[inline(always)]
fn signatures_of(digests: [[u8; 32]; 8]) -> [Sig; 8]
    ensures { (j : ℕ) → j < 8 → slice_index_or result j [] ≡ slice_index_or digests j [] }
{
    [
        Sig::from_bytes(digests[0]),
        Sig::from_bytes(digests[1]),
        Sig::from_bytes(digests[2]),
        Sig::from_bytes(digests[3]),
        Sig::from_bytes(digests[4]),
        Sig::from_bytes(digests[5]),
        Sig::from_bytes(digests[6]),
        Sig::from_bytes(digests[7]),
    ]
}

/// The hash values after the inner pads of these keys.
#[inline(always)]
fn inner_each(keys: &[RootKey; 8]) -> [[u32; 8]; 8]
    ensures { (j : ℕ) → j < 8 → IsBegun (slice_index_or result j [])
        (inner_block (slice_index_or keys.now j [])) }
{
    [
        keys[0].inner(),
        keys[1].inner(),
        keys[2].inner(),
        keys[3].inner(),
        keys[4].inner(),
        keys[5].inner(),
        keys[6].inner(),
        keys[7].inner(),
    ]
}

/// The hash values after the outer pads of these keys.
#[inline(always)]
fn outer_each(keys: &[RootKey; 8]) -> [[u32; 8]; 8]
    ensures { (j : ℕ) → j < 8 → IsBegun (slice_index_or result j [])
        (outer_block (slice_index_or keys.now j [])) }
{
    [
        keys[0].outer(),
        keys[1].outer(),
        keys[2].outer(),
        keys[3].outer(),
        keys[4].outer(),
        keys[5].outer(),
        keys[6].outer(),
        keys[7].outer(),
    ]
}

/// The signatures of eight macaroons with these identifiers and no caveat. It costs half of what
/// `extend_each` does, whatever the keys.
pub fn start_each(keys: &[RootKey; 8], identifiers: &[&[u8]; 8]) -> [Sig; 8]
    ensures { (j : ℕ) → j < 8 → slice_index_or result j []
        ≡ chain (slice_index_or keys.now j []) (text_at identifiers.now j) [] }
{
    signatures_of(nested_digest_from_each(&outer_each(keys), &inner_each(keys), identifiers))
}

/// The signatures of eight macaroons after one more first-party caveat on each.
pub fn extend_each(signatures: &[Sig; 8], caveats: &[&[u8]; 8]) -> [Sig; 8]
    ensures { (j : ℕ) → j < 8 → slice_index_or result j []
        ≡ extended (slice_index_or signatures.now j []) (text_at caveats.now j ∷ []) }
{
    let keys = [
        signatures[0].bytes(),
        signatures[1].bytes(),
        signatures[2].bytes(),
        signatures[3].bytes(),
        signatures[4].bytes(),
        signatures[5].bytes(),
        signatures[6].bytes(),
        signatures[7].bytes(),
    ];
    signatures_of(hmac_each(&keys, caveats))
}
