//! What follows from the definitions alone. Each law is the contract of a function that does
//! nothing.

ghost use Rattle.std.specs.Prelude.{◌≡◌, ◌≢◌, ◌↔◌, ◌≤◌, ◌<◌, ◌^◌, ℕ, List, [], ◌∷◌, ◌++◌, length, take, Some, true, All, slice_get};
ghost use Rattle.std.specs.Int.{w32, to_be_bytes};
ghost use Rattle.std.specs.Option.{option_map};
ghost use Rattle.mac_wire.specs.declared.arrival.Arrival.{Arrival};
ghost use Rattle.mac_wire.specs.declared.reply.Reply.{Reply};
ghost use Rattle.mac_wire.specs.declared.frame.FrameReader.{FrameReader};
ghost use Rattle.mac_wire.specs.declared.session.Session.{Session};
ghost use Rattle.mac_wire.specs.Cut.{IsFront};
ghost use Rattle.mac_wire.specs.Session.{Fronts, Stands};
ghost use Rattle.mac_wire.specs.Frame.{frame, frames_of, followed_by, Arrive};
ghost use Rattle.mac_wire.specs.Stream.{arrivals_of, in_version};
ghost use Rattle.mac_wire.specs.FrameReader.{HasRead, HasEnded};
ghost use Rattle.mac_wire.specs.KeyName.{HasName};
ghost use Rattle.mac_wire.specs.Request.{Asked, IsBytes, Asks, key_of, kind_of};
ghost use Rattle.mac_wire.specs.Reading.{request_of, key_name_of, request_kind_of, reply_kind_of};
ghost use Rattle.mac_wire.specs.Reply as replies;
ghost use Rattle.mac_wire.specs.Reply.{IsReply, reply_payload, placed_payload, reply_payloads, reply_text, reply_arrivals};
ghost use Rattle.mac_wire.specs.declared.version.Version.{Version};

use crate::arrival::{Arrival, Ending, FRAME_MAX};
use crate::reply::REPLY_TOKEN_MAX;
use crate::request::FACTS_MAX;
use crate::version::{HELLO, Version};

/// The limits are 65,536 bytes of a frame, 32,768 of a reply's token and 128 facts, and the hello
/// is the byte 2.
pub fn limits_are_these()
    ensures frame { FRAME_MAX ≡ 65536 }
    ensures reply_token { REPLY_TOKEN_MAX ≡ 32768 }
    ensures facts { FACTS_MAX ≡ 128 }
    ensures hello { HELLO ≡ 2 }
{}

/// What is read as a request is asked by the payload.
pub fn what_is_read_is_asked()
    ensures { (payload : List ℕ) (request : Asked) → IsBytes payload
        → request_of payload ≡ Some request → Asks payload request }
{}

/// What a payload asks is read.
pub fn what_is_asked_is_read()
    ensures { (payload : List ℕ) (request : Asked)
        → Asks payload request → request_of payload ≡ Some request }
{}

/// A payload asks one request at most.
pub fn one_request()
    ensures { (payload : List ℕ) (a b : Asked) → Asks payload a → Asks payload b → a ≡ b }
{}

/// The name in the front of a payload that asks a request is that of the request's key.
pub fn key_name_is_the_key()
    ensures { (payload : List ℕ) (request : Asked)
        → Asks payload request → key_name_of payload ≡ key_of request }
{}

/// A payload that asks a request tells by its first byte what kind of request that is.
pub fn request_tells_its_kind()
    ensures { (payload : List ℕ) (request : Asked)
        → Asks payload request → request_kind_of payload ≡ Some (kind_of request) }
{}

/// The payload of a reply's frame tells what kind of reply that is, in either version.
pub fn reply_tells_its_kind()
    ensures { (version : Version) (place : ℕ) (reply : Reply)
        → reply_kind_of version (placed_payload version place reply)
        ≡ Some (replies.kind_of reply) }
{}

/// The name in the front of any payload, whether it asks a request or not, is what stands behind a
/// mint's number and one byte, or behind a verify's number.
pub fn key_name_stands_in_front()
    ensures { (payload name : List ℕ) → (key_name_of payload ≡ Some name) ↔ HasName payload name }
{}

/// A payload is that of one reply at most.
pub fn one_reply()
    ensures { (a b : Reply) → IsReply a → IsReply b → reply_payload a ≡ reply_payload b → a ≡ b }
{}

/// In version two a payload tells one place and one reply at most.
pub fn one_reply_and_its_place()
    ensures { (m n : ℕ) (a b : Reply) → m < 2 ^ 64 → n < 2 ^ 64 → IsReply a → IsReply b
        → placed_payload Version.Two m a ≡ placed_payload Version.Two n b → (m ≡ n) × (a ≡ b) }
{}

/// The n-th of the replies to a stream is framed with place n.
pub fn each_reply_has_its_place()
    ensures { (version : Version) (replies : List Reply) (n : ℕ)
        → slice_get (reply_payloads version replies) n
        ≡ option_map (placed_payload version n) (slice_get replies n) }
{}

/// The frames of replies are read again: each payload is an arrival, in order, and the end is
/// Clean.
pub fn replies_arrive()
    ensures { (version : Version) (replies : List Reply) → All IsReply replies
        → frames_of (reply_text version replies)
        ≡ record { arrived = reply_arrivals version replies; ending = Ending.Clean } }
{}

/// A stream that begins with the hello is of version two, and the frames are what follows.
pub fn hello_is_version_two()
    ensures { (rest : List ℕ)
        → arrivals_of (HELLO ∷ rest) ≡ in_version Version.Two (frames_of rest) }
{}

/// A stream that begins otherwise is of version one, and all of it is frames.
pub fn others_are_version_one()
    ensures { (first : ℕ) (rest : List ℕ) → first ≢ HELLO
        → arrivals_of (first ∷ rest) ≡ in_version Version.One (frames_of (first ∷ rest)) }
{}

/// What follows a stream's first byte doesn't change the version.
pub fn first_byte_tells_the_version()
    ensures { (first : ℕ) (rest more : List ℕ) → (arrivals_of (first ∷ rest)).version
        ≡ (arrivals_of (first ∷ more)).version }
{}

/// A frame that is allowed is no hello, so that frames alone are of version one.
pub fn no_frame_is_a_hello()
    ensures { (payload rest : List ℕ) → length payload ≤ FRAME_MAX
        → arrivals_of (frame payload ++ rest)
        ≡ in_version Version.One (frames_of (frame payload ++ rest)) }
{}

/// Nothing is a stream of version one, and Clean.
pub fn nothing_is_clean()
    ensures frames { frames_of [] ≡ record { arrived = []; ending = Ending.Clean } }
    ensures stream { arrivals_of [] ≡ in_version Version.One (frames_of []) }
{}

/// A whole frame is the arrival of its payload, before those of what follows it.
pub fn frame_arrives()
    ensures { (payload rest : List ℕ) → length payload ≤ FRAME_MAX
        → frames_of (frame payload ++ rest)
        ≡ followed_by (Arrival.Payload payload ∷ []) (frames_of rest) }
{}

/// A part of a frame is Torn, and takes no place.
pub fn cut_frame_is_torn()
    ensures { (payload : List ℕ) (n : ℕ) → length payload ≤ FRAME_MAX
        → 0 < n → n < length (frame payload)
        → frames_of (take n (frame payload)) ≡ record { arrived = []; ending = Ending.Torn } }
{}

/// A length that is cut, after any one to three bytes, is Torn, whatever its bytes.
pub fn cut_length_is_torn()
    ensures { (bytes : List ℕ) → 0 < length bytes → length bytes < 4
        → frames_of bytes ≡ record { arrived = []; ending = Ending.Torn } }
{}

/// A length above the greatest is one Oversize, whatever follows.
pub fn long_frame_is_oversize()
    ensures { (n : ℕ) (rest : List ℕ) → FRAME_MAX < n → n < 2 ^ 32
        → frames_of (to_be_bytes w32 n ++ rest)
        ≡ record { arrived = Arrival.Oversize ∷ []; ending = Ending.Oversize } }
{}

/// A reader withholds nothing that is whole: what it has handed out is what has arrived of the
/// stream so far.
pub fn all_that_arrived_is_handed_out()
    ensures { (reader : FrameReader) (stream : List ℕ) (handed : List Arrival)
        → HasRead reader stream handed → (arrivals_of stream).arrived ≡ handed }
{}

/// After an Oversize each feed answers Ended.
pub fn oversize_ends()
    ensures { (reader : FrameReader) (stream : List ℕ) (handed : List Arrival)
        → HasRead reader stream handed
        → (arrivals_of stream).ending ≡ Ending.Oversize → HasEnded reader }
{}

/// Frames that compare as equal are equal.
pub fn equal_arrivals()
    ensures { (a b : Arrival) → ⟦<Arrival as PartialEq>⟧.eq a b ≡ true → a ≡ b }
{}

/// A frame that is cut off arrives, and then what is behind it.
pub fn cut_frames_arrive()
    ensures { (most : ℕ) (bytes payload rest : List ℕ) → most ≤ FRAME_MAX
        → IsFront most bytes payload rest
        → Arrive bytes (Arrival.Payload payload ∷ []) rest }
{}

/// Where a session stands, what arrived before what is carried is answered: what was written is a
/// beginning of the replies' frames.
pub fn what_stands_has_arrived()
    ensures { (session : Session) (read written : List ℕ) (arrived : List Arrival)
        (replies : List Reply) → Stands session read written arrived replies
        → Fronts session.version read arrived }
{}
