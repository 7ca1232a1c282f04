//! Packets written.

ghost use Rattle.std.specs.Prelude.{◌≡◌, ◌++◌, ◌≤◌, ◌<◌, ◌^◌, ◌%◌, ◌+◌, ◌*◌, ℕ, length, IfOk, OnOk, Some, slice_index, map};
ghost use Rattle.std.specs.List.{flat_map};
ghost use Rattle.mac_token.specs.Draft.{v1_head, v1_end};
ghost use Rattle.mac_token.specs.Limits.{AreShort};
ghost use Rattle.mac_token.specs.RawToken.{byte_lists};
ghost use Rattle.mac_token.specs.V1.{Field, packet, packet_length, hex_digit, hex_digits, v1_bytes, caveat_field};

use super::key::PacketKey;
use crate::fault::NoMemory;
use crate::limits::{CAVEAT_MAX, CAVEATS_MAX};
use crate::token::Token;
use std::alloc::Global;

/// How many bytes a caveat's packet has beside the caveat: four digits, `cid `, a line feed.
pub(crate) const BESIDE_CAVEAT: usize = 9;

/// How many bytes a token has beside its parts, the signature counted: the packets of the location
/// (14), of the identifier (16) and of the signature (47).
pub(crate) const BESIDE_PARTS: usize = 77;

const DIGITS: [u8; 16] = *b"0123456789abcdef";

/// The lowest hexadecimal digit of a number.
fn hex_digit(value: usize) -> u8
    ensures { result ≡ hex_digit (value % 16) }
{
    DIGITS[value % 16]
}

/// How many bytes a packet has.
fn packet_len(key: PacketKey, value: &[u8]) -> usize
    ensures { result ≡ packet_length (record { key = key; value = value.now }) }
{
    4 + key.name_and_space().len() + value.len() + 1
}

/// Appends a packet.
#[tactic(auto, unfolding(crate::specs::V1::packet))]
fn put_packet(out: &mut Vec<u8>, key: PacketKey, value: &[u8]) -> Result<(), NoMemory>
    ensures { OnOk result (out.new.items
        ≡ out.old.items ++ packet (record { key = key; value = value.now })) }
{
    let len = packet_len(key, value);
    let digits = [
        hex_digit(len / 4096),
        hex_digit(len / 256),
        hex_digit(len / 16),
        hex_digit(len),
    ];
    out.extend_from_slice(&digits)?;
    out.extend_from_slice(key.name_and_space())?;
    out.extend_from_slice(value)?;
    out.extend_from_slice(b"\n")?;
    Ok(())
}

/// How many bytes the caveats' packets have.
fn caveats_len(caveats: &[Vec<u8>]) -> usize
    requires count { length caveats.now ≤ CAVEATS_MAX }
    requires each { AreShort (byte_lists caveats.now) }
    ensures value { result ≡ length (flat_map packet (map caveat_field (byte_lists caveats.now))) }
    ensures bound { result ≤ CAVEATS_MAX * (CAVEAT_MAX + 9) }
{
    let mut len = 0;
    for caveat in caveats {
        len += packet_len(PacketKey::Cid, caveat);
    }
    len
}

/// How many bytes the token's packets have; linear in the number of its caveats.
#[tactic(auto, using(crate::proofs::Packets::v1_lengths))]
pub(crate) fn written_len(token: &Token) -> usize
    ensures value { result ≡ length (v1_bytes token.now) }
    ensures bound { result < 2 ^ 32 }
{
    let caveats = caveats_len(token.caveat_list());
    packet_len(PacketKey::Location, token.location().as_bytes())
        + packet_len(PacketKey::Identifier, token.identifier())
        + caveats
        + packet_len(PacketKey::Signature, &token.sig())
}

/// Appends a token's first two packets.
pub(crate) fn put_head(
    out: &mut Vec<u8>,
    location: &[u8],
    identifier: &[u8],
) -> Result<(), NoMemory>
    ensures { OnOk result (out.new.items ≡ out.old.items ++ v1_head location.now identifier.now) }
{
    put_packet(out, PacketKey::Location, location)?;
    put_packet(out, PacketKey::Identifier, identifier)
}

/// Appends a caveat's packet.
pub(crate) fn put_caveat(out: &mut Vec<u8>, caveat: &[u8]) -> Result<(), NoMemory>
    ensures { OnOk result (out.new.items ≡ out.old.items ++ packet (caveat_field caveat.now)) }
{
    put_packet(out, PacketKey::Cid, caveat)
}

/// Appends the signature's packet.
pub(crate) fn put_signature(out: &mut Vec<u8>, sig: &[u8]) -> Result<(), NoMemory>
    ensures { OnOk result (out.new.items ≡ out.old.items ++ v1_end sig.now) }
{
    put_packet(out, PacketKey::Signature, sig)
}
