//! Laws of the definitions, as functions whose contracts state them.
ghost use Rattle.std.specs.Prelude.{◌≡◌, ◌<◌, List, ℕ, [], ◌∷◌, ◌++◌, length, slice_index};
ghost use Rattle.mac_hmac.specs.Hmac.{hmac};
ghost use Rattle.mac_hmac.specs.Chain.{chain, extended};

/// A caveat appended to a chain replaces its signature s by HMAC(s, caveat).
pub fn chain_of_one_more()
    ensures { (key identifier caveat : List ℕ) (caveats : List (List ℕ)) →
        chain key identifier (caveats ++ caveat ∷ []) ≡ hmac (chain key identifier caveats) caveat }
{}

/// Caveats folded on in two runs are those folded on in one.
pub fn extended_in_two_runs()
    ensures { (signature : List ℕ) (first second : List (List ℕ)) →
        extended signature (first ++ second) ≡ extended (extended signature first) second }
{}

/// HMAC is 32 bytes, whatever its key and its text.
pub fn hmac_is_32_bytes()
    ensures length { (key text : List ℕ) → length (hmac key text) ≡ 32 }
    ensures bytes { (key text : List ℕ) (place : ℕ) → slice_index (hmac key text) place < 256 }
{}
