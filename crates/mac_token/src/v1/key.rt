//! The keys of packets.

ghost use Rattle.std.specs.Prelude.{◌≡◌, ◌++◌, ◌∷◌, [], ◌≤◌, length};
ghost use Rattle.mac_token.specs.V1.{key_name};

/// What a packet holds.
#[derive(Clone, Copy)]
pub enum PacketKey {
    /// The token's location.
    Location,
    /// The token's identifier.
    Identifier,
    /// A caveat's bytes.
    Cid,
    /// The verifier's id of a third-party caveat.
    Vid,
    /// A caveat's location.
    Cl,
    /// The signature.
    Signature,
}

impl PacketKey {
    /// The key's name with the space behind it.
    pub(crate) fn name_and_space(self) -> &'static [u8]
        ensures { result.now ≡ key_name self ++ 32 ∷ [] }
    {
        match self {
            PacketKey::Location => b"location ",
            PacketKey::Identifier => b"identifier ",
            PacketKey::Cid => b"cid ",
            PacketKey::Vid => b"vid ",
            PacketKey::Cl => b"cl ",
            PacketKey::Signature => b"signature ",
        }
    }
}
