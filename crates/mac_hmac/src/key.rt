//! Root keys: what signs a macaroon's identifier.
ghost use Rattle.std.specs.Prelude.{◌≡◌};
ghost use Rattle.sha256x8.specs.Begun.{IsBegun};
ghost use Rattle.mac_hmac.specs.Chain.{root_of};
ghost use Rattle.mac_hmac.specs.Hmac.{hmac, inner_block, outer_block};

use crate::hmac_state::{INNER_PAD, OUTER_PAD, hmac, padded_key};
use sha256x8::{begin, nested_digest_from};
use std::marker::Model;

/// libmacaroons' key generator: its 23 letters, filled with zero bytes to 32.
const KEY_GENERATOR: [u8; 32] = *b"macaroons-key-generator\0\0\0\0\0\0\0\0\0";

/// The key that signs a macaroon's identifier, derived from a secret. It keeps the hash values
/// after its two pads' blocks, so that each HMAC under it costs two blocks less.
#[derive(Clone, Copy)]
pub struct RootKey {
    bytes: [u8; 32],
    inner: [u32; 8],
    outer: [u32; 8],
}

impl Model for RootKey {
    ghost use Rattle.std.specs.Prelude.{◌≡◌, List, ℕ};
    ghost use Rattle.mac_hmac.specs.Begun.{begun_inner, begun_outer};

    ghost Value = { List ℕ };

    ghost view = { λ key. key.bytes };

    ghost invariant = { λ key. (begun_inner key.bytes ≡ key.inner)
        × (begun_outer key.bytes ≡ key.outer) };

    ghost inverse = { λ bytes. record {
      bytes = bytes;
      inner = begun_inner bytes;
      outer = begun_outer bytes;
    } };

    ghost inverse_ok = { λ key begun i. record {
      bytes = key.bytes;
      inner = begun.0 i;
      outer = begun.1 i;
    } };
}

impl PartialEq for RootKey {
    ghost use Rattle.std.specs.Prelude.{bytes_eq};
    ghost use Rattle.std.specs.Cmp.{partial_equiv_from_equiv};
    ghost use Rattle.std.specs.Cmp.Lexicographic.{nat_list_eq_equiv};

    ghost eq = { bytes_eq };

    ghost laws = { partial_equiv_from_equiv nat_list_eq_equiv };

    fn eq(&self, other: &RootKey) -> bool {
        self.bytes == other.bytes
    }
}

impl Eq for RootKey {
    ghost use Rattle.std.specs.Cmp.Lexicographic.{nat_list_eq_equiv};

    ghost laws = { nat_list_eq_equiv };
}

impl RootKey {
    /// The key of these bytes. It costs two blocks of SHA-256.
    pub fn from_bytes(bytes: [u8; 32]) -> RootKey
        ensures { result ≡ bytes }
    {
        RootKey {
            bytes,
            inner: begin(&padded_key(&bytes, INNER_PAD)),
            outer: begin(&padded_key(&bytes, OUTER_PAD)),
        }
    }

    /// The bytes of the key.
    pub fn bytes(&self) -> [u8; 32]
        ensures { result ≡ self.now }
    {
        self.bytes
    }

    /// HMAC of the text under the key.
    pub(crate) fn hmac_of(&self, text: &[u8]) -> [u8; 32]
        ensures { result ≡ hmac self.now text.now }
    {
        nested_digest_from(&self.outer, &self.inner, text)
    }

    /// The hash value after the inner pad's block.
    #[inline(always)]
    pub(crate) fn inner(&self) -> [u32; 8]
        ensures { IsBegun result (inner_block self.now) }
    {
        self.inner
    }

    /// The hash value after the outer pad's block.
    #[inline(always)]
    pub(crate) fn outer(&self) -> [u32; 8]
        ensures { IsBegun result (outer_block self.now) }
    {
        self.outer
    }
}

/// The root key that libmacaroons derives from a secret of any length.
pub fn root_key(secret: &[u8]) -> RootKey
    ensures { result ≡ root_of secret.now }
{
    RootKey::from_bytes(hmac(&KEY_GENERATOR, secret))
}
