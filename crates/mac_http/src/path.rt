//! Paths that facts are told of.
//!
//! A path is told of only where every server reads it alike. One with an empty segment, a dot
//! segment, a backslash or an escape of a dot, a slash or a backslash may name another thing to the
//! server behind the gateway than it does here.

ghost use Rattle.std.specs.Prelude.{◌≡◌, ◌<◌, ◌≤◌, length};
ghost use Rattle.std.specs.List.{count_by};
ghost use Rattle.mac_http.specs.Path.{begins_dot_segment, begins_escape, begins_in_any_case, begins_misread, begins_unsafe, begins_with_dots, has_unsafe, is_plain, is_step};
ghost use Rattle.mac_http.specs.Path.{begins_ending, begins_odd, begins_overlong, begins_overlong_escape};
ghost use Rattle.mac_http.specs.Target.{is_slash};

use crate::target::segment_length;

/// The greatest number of bytes in a path that facts are told of.
pub const PATH_MAX: usize = 4_096;

/// The greatest number of slashes in a path that facts are told of.
pub const SEGMENTS_MAX: usize = 64;

/// The segments that stand for this place and the one above it.
const DOT: &[u8] = b".";

const DOTS: &[u8] = b"..";

/// Whether facts are told of a path, by strict rules or by the usual ones.
pub(crate) fn is_plain(strict: bool, path: &[u8]) -> bool
    ensures { result ≡ is_plain strict path.now }
{
    path.starts_with(b"/")
        && path.len() <= PATH_MAX
        && slashes(path) <= SEGMENTS_MAX
        && !has_unsafe(strict, path)
}

/// How many slashes a path has.
fn slashes(path: &[u8]) -> usize
    ensures { result ≡ count_by is_slash path.now }
{
    let mut slashes = 0;
    for byte in path {
        if *byte == b'/' {
            slashes += 1;
        }
    }
    slashes
}

/// Whether something in the path may be read as another path.
fn has_unsafe(strict: bool, path: &[u8]) -> bool
    ensures { result ≡ has_unsafe strict path.now }
{
    for start in 0..path.len() {
        if begins_unsafe(strict, &path[start..]) {
            return true;
        }
    }
    false
}

fn begins_unsafe(strict: bool, text: &[u8]) -> bool
    ensures { result ≡ begins_unsafe strict text.now }
{
    begins_misread(text) || strict && begins_odd(text)
}

fn begins_misread(text: &[u8]) -> bool
    ensures { result ≡ begins_misread text.now }
{
    text.starts_with(b"//")
        || text.starts_with(b"\\")
        || begins_escape(text)
        || begins_dot_segment(text)
}

/// Whether the text begins with an escaped dot, slash or backslash.
fn begins_escape(text: &[u8]) -> bool
    ensures { result ≡ begins_escape text.now }
{
    begins_in_any_case(text, b"%2e")
        || begins_in_any_case(text, b"%2f")
        || begins_in_any_case(text, b"%5c")
}

/// Whether the text begins with what a strict reader refuses besides.
fn begins_odd(text: &[u8]) -> bool
    ensures { result ≡ begins_odd text.now }
{
    begins_ending(text) || begins_overlong_escape(text) || begins_overlong(text)
}

/// Whether the text begins with what some servers end a segment at, or drop.
fn begins_ending(text: &[u8]) -> bool
    ensures { result ≡ begins_ending text.now }
{
    text.starts_with(b";")
        || begins_in_any_case(text, b"%3b")
        || text.starts_with(b"%00")
        || text.starts_with(b"%09")
        || begins_in_any_case(text, b"%u")
}

/// Whether the text begins with an escape of a character in more bytes than it needs.
fn begins_overlong_escape(text: &[u8]) -> bool
    ensures { result ≡ begins_overlong_escape text.now }
{
    begins_in_any_case(text, b"%c0")
        || begins_in_any_case(text, b"%c1")
        || begins_in_any_case(text, b"%e0%8")
        || begins_in_any_case(text, b"%e0%9")
        || begins_in_any_case(text, b"%f0%8")
}

/// Whether the text begins with a character in more bytes than it needs.
fn begins_overlong(text: &[u8]) -> bool
    ensures { result ≡ begins_overlong text.now }
{
    match text {
        [] => false,
        [first] => *first == 0xC0 || *first == 0xC1,
        [first, next, ..] => {
            *first == 0xC0
                || *first == 0xC1
                || *first == 0xE0 && 0x80 <= *next && *next <= 0x9F
                || *first == 0xF0 && 0x80 <= *next && *next <= 0x8F
        }
    }
}

/// Whether the text begins with the front, in any case of its letters.
fn begins_in_any_case(text: &[u8], front: &[u8]) -> bool
    ensures { result ≡ begins_in_any_case front.now text.now }
{
    if text.len() < front.len() {
        return false;
    }
    let (begin, _) = text.split_at(front.len());
    begin.eq_ignore_ascii_case(front)
}

/// Whether the text begins with a slash and a segment of one dot or two.
fn begins_dot_segment(text: &[u8]) -> bool
    ensures { result ≡ begins_dot_segment text.now }
{
    match text {
        [b'/', rest @ ..] => begins_with_dots(rest),
        _ => false,
    }
}

/// Whether what stands before the first slash is one dot or two.
fn begins_with_dots(text: &[u8]) -> bool
    ensures { result ≡ begins_with_dots text.now }
{
    let segment = &text[..segment_length(text)];
    segment == DOT || segment == DOTS
}

/// Whether that many bytes of the path are one of its steps.
pub(crate) fn is_step(path: &[u8], count: usize) -> bool
    requires above { 0 < count }
    requires within { count ≤ length path.now }
    ensures { result ≡ is_step path.now count }
{
    count == 1 || path[count - 1] != b'/' && (count == path.len() || path[count] == b'/')
}
