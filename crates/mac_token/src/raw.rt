//! A token as its bytes spell it, before it is known to be one that this project handles.

use std::marker::Model;

/// A caveat as it is spelled. Contracts see it as a `CaveatParts`.
#[derive(Drop)]
pub struct RawCaveat {
    /// The caveat's bytes.
    pub id: Vec<u8>,
    /// The verifier's id, where the caveat is third-party; it may be empty.
    pub vid: Option<Vec<u8>>,
    /// The location, where there is one that isn't empty.
    pub location: Option<String>,
}

impl Model for RawCaveat {
    ghost use Rattle.mac_token.specs.RawToken.{CaveatParts, bytes_of, text_of};

    ghost Value = { CaveatParts };

    ghost view = { λ c.
        record { id = c.id.items; vid = bytes_of c.vid; location = text_of c.location } };
}

/// A token as it is spelled. Contracts see it as a `RawParts`.
#[derive(Drop)]
pub struct RawToken {
    /// The location; a token without one has the empty one.
    pub location: String,
    /// The identifier's bytes.
    pub identifier: Vec<u8>,
    /// The caveats, in order.
    pub caveats: Vec<RawCaveat>,
    /// The signature.
    pub sig: [u8; 32],
}

impl Model for RawToken {
    ghost use Rattle.std.specs.Prelude.{string_bytes};
    ghost use Rattle.mac_token.specs.RawToken.{RawParts};

    ghost Value = { RawParts };

    ghost view = { λ t. record {
      location = string_bytes t.location;
      identifier = t.identifier.items;
      caveats = t.caveats.items;
      sig = t.sig;
    } };
}
