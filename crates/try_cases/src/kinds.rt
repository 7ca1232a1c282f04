//! The kinds of cases, and what answers each. Each crate's cases stand in a file of its name.

use crate::case::{Case, CaseFault};
use crate::{asked, decide, devices, hmac, keys, lane, token, wire};
use std::alloc::{AllocError, Global};

/// What a line's case comes to, or that it is none.
pub(crate) fn outcome(alloc: Global, line: &str) -> Result<String, AllocError> {
    let (kind, rest) = line.split_once(' ').unwrap_or((line, ""));
    if kind == "#" {
        return String::from_str(alloc, line);
    }
    let mut case = Case::of(alloc, rest);
    answer(&mut case, kind);
    match case.outcome() {
        Ok(text) => Ok(text),
        Err(CaseFault::NoCase) => String::from_str(alloc, "the line is no case"),
        Err(CaseFault::Memory) => Err(AllocError),
    }
}

/// The kinds, by their first word. Bytes are written in hexadecimal, `-` where there are none;
/// `+` joins parts, and a part `HEX*N` stands N times. A list of them stands between commas, `none`
/// where it is empty.
///
/// ```text
/// # ..: the line itself
/// hmac KEY TEXT: HMAC-SHA-256 of the text, however it is cut
/// root SECRET: the root key
/// start ROOT_KEY IDENTIFIER: the signature of a token without caveats
/// chain SECRET IDENTIFIER CAVEAT,..: the signature of such a token
/// same SIGNATURE SIGNATURE: `same` or `another`
/// keys FILE: the number of names, or the fault
/// key FILE NAME: the root keys of the name
/// frames STREAM: the arrivals and the ending, however it is cut in two
/// feeds PIECE,..: what each piece gives, and the ending
/// replies REPLY,..: the frames of replies
/// whole BYTES: the number of whole frames in front
/// faults: the number and the text of each fault of the wire
/// request PAYLOAD: what it asks, or the refusal
/// name PAYLOAD: the key name in its front, or `none`
/// fronts PAYLOAD: how many of its front parts ask something
/// reads PIECE FAILS BYTES: eight reads of a source over memory
/// reader BYTES: eight reads of a source over a reader
/// sends ROOM PIECE FAILS BYTES: what a sink over memory is sent
/// writes ROOM BYTES,..: what a sink over a writer takes
/// read TOKEN: its parts, or the refusal
/// raw TOKEN: its parts as they are spelled, or the refusal
/// code TOKEN: `taken`, or the refusal
/// rewrite FORM TOKEN: the token in another form, or the refusal
/// push TOKEN CAVEAT,..: the token with more caveats, or the refusal and the token
/// texts: the number and the text of each fault of a token
/// cuts TOKEN: the refusal of each front part, in runs
/// time CAVEAT: the second of a time limit or, behind `from`, of a lower bound, or `none`
/// satisfied CAVEAT MOMENT FACT,..: `satisfied` or `unsatisfied`
/// lack CAVEAT MOMENT FACT,..: why a caveat fails, and how many bytes the nearest fact shares
/// doubt CAVEAT MOMENT REPEATED: why the caveat can hardly hold, or `none`; REPEATED is 0 or 1
/// add FORM TOKEN CAVEAT,..: the token with caveats, or the refusal
/// token FORM SECRET LOCATION IDENTIFIER CAVEAT,.. TOKEN: how a token agrees with its parts
/// length FORM LOCATION IDENTIFIER CAVEAT,..: how many bytes a token of these has, or the refusal
/// answer FILE PAYLOAD: the reply's frame
/// buffer CALL..: what calls come to, the next place, the open slips
/// buffer_texts: the text of each fault of a buffer
///
/// a call: open JOB, settle PLACE JOB, next or close
/// ```
fn answer(case: &mut Case<'_>, kind: &str) {
    let is_known = hmac::tells(case, kind)
        || keys::tells(case, kind)
        || wire::tells(case, kind)
        || asked::tells(case, kind)
        || devices::tells(case, kind)
        || token::tells(case, kind)
        || decide::tells(case, kind)
        || lane::tells(case, kind);
    if !is_known {
        case.fail(CaseFault::NoCase);
    }
}
