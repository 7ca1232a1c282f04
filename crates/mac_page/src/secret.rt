//! Secrets that are told as text.

ghost use Rattle.std.specs.Prelude.{◌≡◌, bytes_eq};

use mac_hmac::{Sig, same};
use std::marker::Model;

/// A secret of 128 bits, as its 32 digits.
#[derive(Clone, Copy)]
pub struct Secret {
    digits: Sig,
}

impl Model for Secret {
    ghost use Rattle.std.specs.Prelude.{List, ℕ};

    ghost Value = { List ℕ };

    ghost view = { λ secret. secret.digits };

    ghost inverse = { λ digits. record { digits = digits } };
}

impl Secret {
    /// The secret of these digits.
    pub fn new(digits: [u8; 32]) -> Secret
        ensures { result ≡ digits }
    {
        Secret {
            digits: Sig::from_bytes(digits),
        }
    }

    /// The digits, for who may know them.
    pub(crate) fn digits(&self) -> [u8; 32]
        ensures { result ≡ self.now }
    {
        self.digits.bytes()
    }

    /// Whether a text tells the secret. It is compared as a signature is.
    #[tactic(auto, using(crate::proofs::SecretLemmas::other_length, crate::proofs::SecretLemmas::compared))]
    pub(crate) fn is_told_by(&self, text: &[u8]) -> bool
        ensures { result ≡ bytes_eq text.now self.now }
    {
        // A text of another length is none: the secret has 32 digits.
        let _own = self.digits.bytes();
        match <[u8; 32]>::try_from(text) {
            Ok(digits) => same(&Sig::from_bytes(digits), &self.digits),
            Err(_) => false,
        }
    }
}

/// What the page of a site and the site know alone.
#[derive(Clone, Copy)]
pub struct Secrets {
    /// What the page tells with each call.
    pub of_page: Secret,
    /// What the page is told, so that it knows who answers.
    pub of_site: Secret,
}
