//! Cases of `mac_wire`: streams, replies and faults.

ghost use Rattle.std.specs.Prelude.{IfSome};
ghost use Rattle.mac_wire.specs.Reply.{IsReply};

use crate::case::{Case, CaseFault};
use mac_wire::{
    Arrival, Bytes, DeviceFault, Ending, FeedFault, FrameReader, REPLY_TOKEN_MAX, Refusal, Reply,
    Version, append_reply, whole_frames,
};
use std::alloc::Global;

/// Tells what a case comes to, if it is one of these kinds.
pub(crate) fn tells(case: &mut Case<'_>, kind: &str) -> bool {
    match kind {
        "frames" => frames(case),
        "feeds" => feeds(case),
        "replies" => replies(case, Version::One, 0),
        "placed" => {
            let first = case.number();
            replies(case, Version::Two, first);
        }
        "whole" => whole(case),
        "faults" => fault_texts(case),
        _ => return false,
    }
    true
}

/// The arrivals of a stream that is fed byte by byte, and its ending. Where the stream in two
/// pieces gives anything else, how long the first such first piece is, and what comes of it.
fn frames(case: &mut Case<'_>) {
    let stream = case.bytes();
    let mut reader = FrameReader::new(case.alloc);
    for byte in stream.iter() {
        let _ = feed(case, &mut reader, &[*byte]);
    }
    say_end(case, reader);
    for cut in 0..stream.len() {
        let halves = in_two(case.alloc, &stream, cut);
        if !case.is_like(&halves) {
            return say_cut(case, cut, halves);
        }
    }
}

/// The case that the arrivals of a stream in two pieces, and its ending, are.
fn in_two(alloc: Global, stream: &[u8], cut: usize) -> Case<'static> {
    let mut case = Case::of(alloc, "");
    let mut reader = FrameReader::new(alloc);
    let (first, second) = stream.split_at_checked(cut).unwrap_or((stream, &[]));
    let _ = feed(&mut case, &mut reader, first);
    let _ = feed(&mut case, &mut reader, second);
    say_end(&mut case, reader);
    case
}

/// Appends where a stream was cut, and what came of it.
fn say_cut(case: &mut Case<'_>, cut: usize, halves: Case<'_>) {
    case.say(", cut at ");
    case.say_number(cut as u64);
    match halves.outcome() {
        Ok(text) => {
            case.say(": ");
            case.say(text.as_str());
        }
        Err(fault) => case.fail(fault),
    }
}

/// What each piece of a stream gives, a bar behind each, and the ending.
fn feeds(case: &mut Case<'_>) {
    let pieces = case.lists();
    let mut reader = FrameReader::new(case.alloc);
    for piece in pieces.iter() {
        if !feed(case, &mut reader, piece) {
            case.say("ended, ");
        }
        case.say("| ");
    }
    say_end(case, reader);
}

/// Feeds a piece and appends its arrivals. Whether the reader took it.
fn feed(case: &mut Case<'_>, reader: &mut FrameReader, piece: &[u8]) -> bool {
    match reader.feed(piece) {
        Ok(arrivals) => {
            say_arrivals(case, &arrivals);
            true
        }
        Err(FeedFault::Ended) => false,
        Err(FeedFault::NoMemory) => {
            case.fail(CaseFault::Memory);
            false
        }
    }
}

fn say_arrivals(case: &mut Case<'_>, arrivals: &[Arrival]) {
    for arrival in arrivals.iter() {
        match arrival {
            Arrival::Payload(payload) => case.shown(payload.as_slice()),
            Arrival::Oversize => case.say("oversize"),
        }
        case.say(", ");
    }
}

/// Appends how a stream ended, and that it was of version two where it was.
fn say_end(case: &mut Case<'_>, reader: FrameReader) {
    let version = reader.version();
    case.say(ending_word(reader.finish()));
    if version == Some(Version::Two) {
        case.say(" in version two");
    }
}

fn ending_word(ending: Ending) -> &'static str {
    match ending {
        Ending::Clean => "clean",
        Ending::Torn => "torn",
        Ending::Oversize => "ended oversize",
        Ending::Broken => "broken",
    }
}

/// The frames of replies, appended to one another, from a first place on.
fn replies(case: &mut Case<'_>, version: Version, first: u64) {
    let mut frames = Vec::new(case.alloc);
    let mut place = first;
    for word in case.word().split(',') {
        append_named(case, word, version, place, &mut frames);
        place = place.wrapping_add(1);
    }
    case.shown(&frames);
}

/// Appends the frame of the reply that a word names, at its place.
fn append_named(
    case: &mut Case<'_>,
    word: &str,
    version: Version,
    place: u64,
    frames: &mut Vec<u8>,
) {
    let Some(reply) = reply_of(case, word) else {
        return case.fail(CaseFault::NoCase);
    };
    if append_reply(frames, &reply, version, place).is_err() {
        case.fail(CaseFault::Memory);
    }
}

/// The reply that a word names, if any.
fn reply_of(case: &mut Case<'_>, word: &str) -> Option<Reply>
    ensures { IfSome result IsReply }
{
    let (name, value) = word.split_once('=').unwrap_or((word, "-"));
    match name {
        "granted" => Some(Reply::Granted),
        "granted-to" => owner_reply(case, value),
        "token" => token_reply(case.spelled(value)),
        "refused" => refusal_reply(value),
        "index" => match value.parse::<u16>() {
            Ok(index) => Some(Reply::Unsatisfied(index)),
            Err(_) => None,
        },
        _ => None,
    }
}

/// The reply with a token, if it isn't too long for one.
fn token_reply(token: Vec<u8>) -> Option<Reply>
    ensures { IfSome result IsReply }
{
    if token.len() > REPLY_TOKEN_MAX {
        return None;
    }
    Some(Reply::Token(Bytes::new(token)))
}

/// The reply with an identifier and a location, a colon between them, if they aren't too long.
fn owner_reply(case: &mut Case<'_>, value: &str) -> Option<Reply>
    ensures { IfSome result IsReply }
{
    let (identifier, location) = value.split_once(':')?;
    let identifier = case.spelled(identifier);
    let location = case.spelled(location);
    if identifier.len() > REPLY_TOKEN_MAX || location.len() > REPLY_TOKEN_MAX - identifier.len() {
        return None;
    }
    Some(Reply::GrantedTo {
        identifier: Bytes::new(identifier),
        location: Bytes::new(location),
    })
}

/// The reply with the refusal of a name.
fn refusal_reply(name: &str) -> Option<Reply>
    ensures { IfSome result IsReply }
{
    for (word, refusal) in [
        ("bad-request", Refusal::BadRequest),
        ("frame-too-long", Refusal::FrameTooLong),
        ("unknown-key", Refusal::UnknownKey),
        ("transport", Refusal::Transport),
        ("malformed", Refusal::Malformed),
        ("third-party", Refusal::ThirdParty),
        ("limit", Refusal::Limit),
        ("bad-signature", Refusal::BadSignature),
        ("caveat-location", Refusal::CaveatLocation),
        ("not-allowed", Refusal::NotAllowed),
        ("no-clock", Refusal::NoClock),
        ("revoked", Refusal::Revoked),
    ] {
        if name == word {
            return Some(Reply::Refused(refusal));
        }
    }
    None
}

/// How many whole frames stand in the front of some bytes.
fn whole(case: &mut Case<'_>) {
    let bytes = case.bytes();
    case.say_number(whole_frames(&bytes) as u64);
}

/// The text of each fault.
fn fault_texts(case: &mut Case<'_>) {
    for fault in [FeedFault::NoMemory, FeedFault::Ended] {
        case.tell(format!(in case.alloc; "{fault}; "));
    }
    case.tell(format!(in case.alloc; "{DeviceFault}"));
}
