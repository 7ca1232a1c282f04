//! Laws of the definitions, as functions whose contracts state them.

ghost use Rattle.std.specs.Prelude.{◌≡◌, ℕ, List, Ok, Some, take};
ghost use Rattle.mac_decide.specs.Answer.{answer_of, keys_of};
ghost use Rattle.mac_decide.specs.Minted.{Minted};
ghost use Rattle.mac_decide.specs.Terms.{Terms};
ghost use Rattle.mac_host.specs.declared.exchange.TheConstants.{IDENTIFIER_NOTED};
ghost use Rattle.mac_keys.specs.Keys.{listed};
ghost use Rattle.mac_keys.specs.declared.keys.Keys.{Keys};
ghost use Rattle.mac_token.specs.RawToken.{TokenParts};
ghost use Rattle.mac_token.specs.Read.{read_of};
ghost use Rattle.mac_wire.specs.Reply.{kind_of};
ghost use Rattle.mac_wire.specs.Request.{Asked, Asks, verify, verify_now};
ghost use Rattle.mac_wire.specs.declared.arrival.Arrival.{Arrival as PlainArrival};
ghost use Rattle.mac_wire.specs.declared.request.Grant.{Grant};
ghost use Rattle.mac_loop.specs.Verified.{IsSigned, identifier_verified, verified_by};

use mac_wire::Arrival;

/// Of a token that a request asks to verify the identifier is told only where a key of its name
/// gives the token's signature, and then it is that token's.
pub fn told_identifiers_are_signed()
    ensures { (terms : Terms) (payload identifier : List ℕ) (request : Asked)
        → Asks payload request → verified_by (identifier_verified payload)
        (kind_of (answer_of terms (Arrival.Payload payload))) ≡ Some identifier
        → IsSigned terms request identifier }
{}

/// The identifier of such a token is told wherever a key of its name gives the signature, whether
/// its caveats hold or not, and whether it was taken back or not; of a verify at the clock, where
/// that told a moment.
pub fn signed_identifiers_are_told()
    ensures then { (terms : Terms) (payload name bytes : List ℕ) (moment : ℕ)
        (facts : List (List ℕ)) (keys : Keys) (token : TokenParts)
        → Asks payload (verify name bytes moment facts) → keys_of terms name ≡ Some keys
        → read_of bytes ≡ Ok token → Minted (listed keys) token
        → verified_by (identifier_verified payload)
        (kind_of (answer_of terms (Arrival.Payload payload)))
        ≡ Some (take IDENTIFIER_NOTED token.identifier) }
    ensures now { (terms : Terms) (payload name bytes : List ℕ) (grant : Grant) (moment : ℕ)
        (facts : List (List ℕ)) (keys : Keys) (token : TokenParts)
        → Asks payload (verify_now grant name bytes facts) → terms.moment ≡ Some moment
        → keys_of terms name ≡ Some keys → read_of bytes ≡ Ok token → Minted (listed keys) token
        → verified_by (identifier_verified payload)
        (kind_of (answer_of terms (Arrival.Payload payload)))
        ≡ Some (take IDENTIFIER_NOTED token.identifier) }
{}
