//! HMAC (RFC 2104) with SHA-256, over a text at once or in pieces.
ghost use Rattle.std.specs.Prelude.{◌≡◌, ◌≤◌, ◌-◌, ◌++◌, ℕ, List, [], length, replicate};
ghost use Rattle.sha2.specs.Hashers.{Holds256};
ghost use Rattle.mac_hmac.specs.Hmac.{block_key, hmac, xor_pad};
ghost use Rattle.mac_hmac.specs.HmacState.{Holds};

use sha2::{Digest, Sha256};
use sha256x8::BLOCK;

/// The byte that the inner pad repeats (RFC 2104, section 2).
pub(crate) const INNER_PAD: u8 = 0x36;

/// The byte that the outer pad repeats (RFC 2104, section 2).
pub(crate) const OUTER_PAD: u8 = 0x5c;

/// The block of a key that fits one: zero bytes appended, and each byte XORed with the pad's.
pub(crate) fn padded(key: &[u8], pad: u8) -> [u8; BLOCK]
    requires { length key.now ≤ 64 }
    ensures { result ≡ xor_pad (key.now ++ replicate (64 - length key.now) 0) pad }
{
    let mut block = [pad; BLOCK];
    for (i, byte) in key.iter().enumerate() {
        block[i] = *byte ^ pad;
    }
    block
}

/// The block of a key: zero bytes appended, and each byte XORed with the pad's.
#[inline(always)]
pub(crate) fn padded_key(key: &[u8; 32], pad: u8) -> [u8; 64]
    ensures { result ≡ xor_pad (block_key key.now) pad }
{
    padded(key, pad)
}

/// A hasher that has absorbed one block of the key, XORed with the pad.
fn hasher(key: &[u8], pad: u8) -> Sha256
    requires { length key.now ≤ 64 }
    ensures { Holds256 result (xor_pad (key.now ++ replicate (64 - length key.now) 0) pad) }
{
    let block = padded(key, pad);
    let mut hasher = Sha256::new();
    hasher.update(&block);
    hasher
}

/// HMAC of a text that is fed in pieces: however the text is cut, the answer is the same.
#[derive(Drop)]
pub struct HmacState {
    inner: Sha256,
    outer: Sha256,
}

impl HmacState {
    /// The state of the empty text under `key`, of any length. It absorbs both pads: two blocks of
    /// SHA-256, and those of the key where it is longer than a block.
    pub fn new(key: &[u8]) -> HmacState
        ensures { Holds result key.now [] }
    {
        if key.len() <= BLOCK {
            HmacState::of_fitted(key)
        } else {
            let digest = Sha256::digest(key);
            HmacState::of_fitted(&digest)
        }
    }

    /// The state under a key that fits a block.
    fn of_fitted(key: &[u8]) -> HmacState
        requires { length key.now ≤ 64 }
        ensures inner { Holds256 result.inner
            (xor_pad (key.now ++ replicate (64 - length key.now) 0) 0x36) }
        ensures outer { Holds256 result.outer
            (xor_pad (key.now ++ replicate (64 - length key.now) 0) 0x5c) }
    {
        HmacState {
            inner: hasher(key, INNER_PAD),
            outer: hasher(key, OUTER_PAD),
        }
    }

    /// Appends a piece to the text.
    pub fn update(&mut self, piece: &[u8])
        ensures { (key text : List ℕ)
            → Holds self.old key text → Holds self.new key (text ++ piece.now) }
    {
        self.inner.update(piece);
    }

    /// HMAC of the whole text.
    pub fn finish(mut self) -> [u8; 32]
        ensures { (key text : List ℕ) → Holds self key text → result ≡ hmac key text }
    {
        let digest = self.inner.finalize();
        self.outer.update(&digest);
        self.outer.finalize()
    }
}

/// HMAC of `text` under `key`, both of any length (RFC 2104, section 2). Where the key fits a block
/// and the text has at most 55 bytes it costs four blocks of SHA-256.
pub fn hmac(key: &[u8], text: &[u8]) -> [u8; 32]
    ensures { result ≡ hmac key.now text.now }
{
    let mut state = HmacState::new(key);
    state.update(text);
    state.finish()
}
