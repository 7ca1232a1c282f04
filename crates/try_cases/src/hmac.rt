//! Cases of `mac_hmac`.

use crate::case::Case;
use mac_hmac::{
    HmacState, RootKey, Sig, extend, extend_each, hmac, root_key, same, start, start_each,
};

/// Tells what a case comes to, if it is one of these kinds.
pub(crate) fn tells(case: &mut Case<'_>, kind: &str) -> bool {
    match kind {
        "hmac" => keyed(case),
        "root" => root(case),
        "start" => started(case),
        "chain" => chained(case),
        "same" => compared(case),
        _ => return false,
    }
    true
}

/// HMAC of a text, which is to be the same however the text is cut.
fn keyed(case: &mut Case<'_>) {
    let key = case.bytes();
    let text = case.bytes();
    let whole = hmac(&key, &text);
    if fed(&key, &text, 1) == whole
        && fed(&key, &text, 7) == whole
        && fed(&key, &text, 64) == whole
    {
        case.digits(&whole);
    } else {
        case.say("it depends on the pieces");
    }
}

/// HMAC of a text that is fed in pieces of this many bytes.
fn fed(key: &[u8], text: &[u8], size: usize) -> [u8; 32] {
    let mut state = HmacState::new(key);
    for piece in text.chunks(size.max(1)) {
        state.update(piece);
    }
    state.finish()
}

/// The root key of a secret.
fn root(case: &mut Case<'_>) {
    let secret = case.bytes();
    case.digits(&root_key(&secret).bytes());
}

/// The signature of an identifier under a root key, which is to be the same in each of eight lanes,
/// whether the others have the same key or another.
fn started(case: &mut Case<'_>) {
    let key = RootKey::from_bytes(case.digest());
    let identifier = case.bytes();
    let alone = start(&key, &identifier);
    let zeros = RootKey::from_bytes([0; 32]);
    if is_in_each_lane(&key, &identifier, &key, &[0; 200], &alone)
        && is_in_each_lane(&key, &identifier, &zeros, &[], &alone)
        && is_in_each_lane(&key, &identifier, &zeros, &[0; 200], &alone)
    {
        case.digits(&alone.bytes());
    } else {
        case.say("it depends on the lane");
    }
}

/// Whether each of eight lanes gives this signature, while the others are given another key and
/// text.
fn is_in_each_lane<'a>(
    key: &RootKey,
    identifier: &'a [u8],
    other_key: &RootKey,
    other: &'a [u8],
    alone: &Sig,
) -> bool {
    let mut agree = true;
    for place in 0..8 {
        let mut keys = [*other_key; 8];
        keys[place] = *key;
        let mut identifiers = [other; 8];
        identifiers[place] = identifier;
        let signature = start_each(&keys, &identifiers)[place];
        agree &= same(&signature, alone);
    }
    agree
}

/// Whether two signatures are the same.
fn compared(case: &mut Case<'_>) {
    let first = Sig::from_bytes(case.digest());
    let second = Sig::from_bytes(case.digest());
    case.say(if same(&first, &second) {
        "same"
    } else {
        "another"
    });
}

/// The signature of a token with these parts, which is to be the same side by side.
fn chained(case: &mut Case<'_>) {
    let key = root_key(&case.bytes());
    let identifier = case.bytes();
    let caveats = case.lists();
    let mut signature = start(&key, &identifier);
    let mut signatures = [signature; 8];
    for caveat in caveats.iter() {
        signature = extend(signature, caveat);
        let text = caveat.as_slice();
        let texts = [text; 8];
        signatures = extend_each(&signatures, &texts);
    }
    let [first, .., last] = signatures;
    if same(&first, &signature) && same(&last, &signature) {
        case.digits(&signature.bytes());
    } else {
        case.say("it depends on the lane");
    }
}
