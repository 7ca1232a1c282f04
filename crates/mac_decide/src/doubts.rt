//! Caveats that can hardly hold, and so are seldom meant.

ghost use Rattle.std.specs.Prelude.{◌≡◌};
ghost use Rattle.mac_decide.specs.Doubt.{begins_as_bound, begins_with_sign, doubt_of, doubt_words};
ghost use Rattle.mac_decide.specs.Doubt.{ends_in_slash, is_misspaced, is_misspaced_behind};
ghost use Rattle.mac_decide.specs.Doubt.{is_missigned, is_near_bound, is_no_bound};
ghost use Rattle.mac_decide.specs.Reading.{is_from, limit_of, since_of};

use crate::time::{time_limit, time_since};

/// Why a caveat can hardly hold. It is a caveat all the same.
#[derive(Clone, Copy, Debug, PartialEq, Eq)]
pub enum Doubt {
    /// It begins as a bound of time, and is none.
    NoBound,
    /// It is a time limit that the moment has reached.
    Passed,
    /// It asks for a path under one that ends in a slash.
    EndsInSlash,
    /// It names what gateways tell facts of, but not as they do.
    Misspaced,
    /// An earlier caveat equals it.
    Repeated,
}

impl Doubt {
    /// What is told of the caveat, behind the words `a caveat`.
    pub fn words(self) -> &'static str
        ensures { result.now ≡ doubt_words self }
    {
        match self {
            Doubt::NoBound => "is no bound of time, and holds only as a fact",
            Doubt::Passed => "is a time limit that has passed, and holds only as a fact",
            Doubt::EndsInSlash => "ends in a slash, and no path is under it",
            Doubt::Misspaced => "has not one space on each side of its equals sign",
            Doubt::Repeated => "stands there twice",
        }
    }
}

/// The first doubt about a caveat at a moment, in seconds since 1970-01-01T00:00:00Z; it is
/// repeated where an earlier one equals it. It costs a look at the caveat's first bytes and at its
/// last.
#[tactic(auto, unfolding(crate::specs::Doubt::doubt_of))]
pub fn find_doubt(caveat: &[u8], is_repeated: bool, moment: u64) -> Option<Doubt>
    ensures { result ≡ doubt_of caveat.now is_repeated moment }
{
    if is_near_bound(caveat) {
        Some(Doubt::NoBound)
    } else if has_passed(caveat, moment) {
        Some(Doubt::Passed)
    } else if ends_in_slash(caveat) {
        Some(Doubt::EndsInSlash)
    } else if is_misspaced(caveat) {
        Some(Doubt::Misspaced)
    } else if is_repeated {
        Some(Doubt::Repeated)
    } else {
        None
    }
}

/// Whether a caveat is no bound of time though it begins as one.
#[tactic(auto, unfolding(crate::specs::Doubt::is_near_bound))]
fn is_near_bound(caveat: &[u8]) -> bool
    ensures { result ≡ is_near_bound caveat.now }
{
    begins_as_bound(caveat) && is_no_bound(caveat)
}

/// Whether a caveat begins with the word `time` in any case, a space or none, and `<` or `>`.
pub fn begins_as_bound(caveat: &[u8]) -> bool
    ensures { result ≡ begins_as_bound caveat.now }
{
    if caveat.len() < 4 {
        return false;
    }
    let (word, rest) = caveat.split_at(4);
    word.eq_ignore_ascii_case(b"time") && begins_with_sign(rest)
}

/// Whether a text begins with a space or none, and `<` or `>`.
fn begins_with_sign(text: &[u8]) -> bool
    ensures { result ≡ begins_with_sign text.now }
{
    text.starts_with(b"<")
        || text.starts_with(b">")
        || text.starts_with(b" <")
        || text.starts_with(b" >")
}

/// Whether a caveat is no bound of time.
fn is_no_bound(caveat: &[u8]) -> bool
    ensures { result ≡ is_no_bound caveat.now }
{
    limit_in(caveat).is_none() && since_in(caveat).is_none()
}

/// Whether a caveat is a time limit that the moment has reached.
fn has_passed(caveat: &[u8], moment: u64) -> bool
    ensures { result ≡ is_from moment (limit_of caveat.now) }
{
    match limit_in(caveat) {
        Some(limit) => i128::from(limit) <= i128::from(moment),
        None => false,
    }
}

/// The second of the time limit that a caveat is.
pub(crate) fn limit_in(caveat: &[u8]) -> Option<i64>
    ensures { result ≡ limit_of caveat.now }
{
    time_limit(caveat)
}

/// The second of the lower bound of time that a caveat is.
pub(crate) fn since_in(caveat: &[u8]) -> Option<i64>
    ensures { result ≡ since_of caveat.now }
{
    time_since(caveat)
}

/// Whether a caveat asks for a path under one that ends in a slash, and isn't the root.
fn ends_in_slash(caveat: &[u8]) -> bool
    ensures { result ≡ ends_in_slash caveat.now }
{
    caveat.starts_with(b"path under /")
        && caveat.ends_with(b"/")
        && caveat != b"path under /".as_slice()
}

/// Whether an equals sign stands behind a name of which gateways tell facts, and not with one space
/// on each side.
fn is_misspaced(caveat: &[u8]) -> bool
    ensures { result ≡ is_misspaced caveat.now }
{
    is_misspaced_behind(caveat, b"method")
        || is_misspaced_behind(caveat, b"path")
        || is_misspaced_behind(caveat, b"host")
        || is_misspaced_behind(caveat, b"scheme")
        || is_misspaced_behind(caveat, b"ip")
}

/// The same behind this name.
fn is_misspaced_behind(caveat: &[u8], name: &[u8]) -> bool
    ensures { result ≡ is_misspaced_behind caveat.now name.now }
{
    caveat.starts_with(name) && is_missigned(&caveat[name.len()..])
}

/// Whether a text begins with an equals sign, or with one behind a space, but not between two.
fn is_missigned(text: &[u8]) -> bool
    ensures { result ≡ is_missigned text.now }
{
    (text.starts_with(b"=") || text.starts_with(b" =")) && !text.starts_with(b" = ")
}
