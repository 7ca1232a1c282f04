//! Signatures: the chain of HMACs that a macaroon carries.
ghost use Rattle.std.specs.Prelude.{◌≡◌, ◌↔◌, ◌∷◌, [], IsTrue};
ghost use Rattle.mac_hmac.specs.Chain.{chain, extended};

use crate::hmac_state::hmac;
use crate::key::RootKey;
use std::marker::Model;

/// The signature of a macaroon: the HMAC at the end of its chain.
#[derive(Clone, Copy, PartialEq, Eq)]
pub struct Sig {
    bytes: [u8; 32],
}

impl Model for Sig {
    ghost use Rattle.std.specs.Prelude.{List, ℕ};

    ghost Value = { List ℕ };

    ghost view = { λ signature. signature.bytes };

    ghost inverse = { λ bytes. record { bytes = bytes } };
}

impl Sig {
    /// The signature of these bytes.
    pub fn from_bytes(bytes: [u8; 32]) -> Sig
        ensures { result ≡ bytes }
    {
        Sig { bytes }
    }

    /// The bytes of the signature.
    pub fn bytes(&self) -> [u8; 32]
        ensures { result ≡ self.now }
    {
        self.bytes
    }
}

/// The signature of a macaroon with this identifier and no caveat.
pub fn start(key: &RootKey, identifier: &[u8]) -> Sig
    ensures { result ≡ chain key.now identifier.now [] }
{
    Sig {
        bytes: key.hmac_of(identifier),
    }
}

/// The signature after one more first-party caveat.
pub fn extend(signature: Sig, caveat: &[u8]) -> Sig
    ensures { result ≡ extended signature (caveat.now ∷ []) }
{
    Sig {
        bytes: hmac(&signature.bytes, caveat),
    }
}

/// Whether all 32 bytes agree. It is a function of its own in the program, so that its machine code
/// can be read: it has no branch, and so one course for all bytes. No proof speaks of time.
#[inline(never)]
pub fn same(a: &Sig, b: &Sig) -> bool
    ensures { IsTrue result ↔ (a.now ≡ b.now) }
{
    let mut agree = true;
    for i in 0..32 {
        agree &= a.bytes[i] == b.bytes[i];
    }
    agree
}
