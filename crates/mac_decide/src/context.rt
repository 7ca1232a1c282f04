//! What a caveat is judged by.

ghost use Rattle.std.specs.Prelude.{◌≡◌, ◌↔◌, ◌⊎◌, IsTrue};
ghost use Rattle.std.specs.List.{list_any};
ghost use Rattle.std.specs.Str.{bytes_eq};
ghost use Rattle.mac_decide.specs.Verdict.{AreAmong, IsBefore, IsSince, Satisfied};

use crate::time::{time_limit, time_since};
use mac_wire::FieldList;

/// What the verifier knows: the moment, in seconds since 1970-01-01T00:00:00Z, and facts, where
/// they lie in a payload.
#[derive(Drop)]
pub struct Context<'a> {
    pub moment: u64,
    pub facts: FieldList<'a>,
}

/// Whether the moment is before the time limit that the caveat is.
fn is_before(moment: u64, caveat: &[u8]) -> bool
    ensures { IsTrue result ↔ IsBefore moment caveat.now }
{
    match time_limit(caveat) {
        Some(limit) => i128::from(moment) < i128::from(limit),
        None => false,
    }
}

/// Whether the moment has reached the lower bound of time that the caveat is.
fn is_since(moment: u64, caveat: &[u8]) -> bool
    ensures { IsTrue result ↔ IsSince moment caveat.now }
{
    match time_since(caveat) {
        Some(bound) => i128::from(bound) <= i128::from(moment),
        None => false,
    }
}

/// Whether the caveat is a bound of time that the moment keeps. Any other caveat costs a look at
/// its first bytes.
fn is_in_time(moment: u64, caveat: &[u8]) -> bool
    ensures { IsTrue result ↔ (IsBefore moment caveat.now ⊎ IsSince moment caveat.now) }
{
    caveat.starts_with(b"time ") && (is_before(moment, caveat) || is_since(moment, caveat))
}

/// Whether two texts are the same. Those of one length that differ mostly differ in their last
/// byte: what has to be compared with many is seldom compared to its end.
fn is_same(text: &[u8], other: &[u8]) -> bool
    ensures { result ≡ bytes_eq text.now other.now }
{
    text.len() == other.len() && text.last() == other.last() && text == other
}

/// Whether the caveat is one of the facts.
fn is_fact(caveat: &[u8], facts: &FieldList<'_>) -> bool
    ensures { result ≡ list_any (bytes_eq caveat.now) facts.now }
{
    facts.walk().any(|fact| is_same(caveat, fact))
}

/// Whether the caveat is satisfied: it is one of the facts, a time limit that the moment is below,
/// or a lower bound of time that it isn't below. It costs the facts times the first byte in which
/// one differs, and takes no memory.
pub fn satisfied(caveat: &[u8], context: &Context<'_>) -> bool
    ensures { IsTrue result ↔ Satisfied caveat.now context.now }
{
    is_in_time(context.moment, caveat) || is_fact(caveat, &context.facts)
}

/// Whether the caveat is satisfied; `ahead` are some of the facts, in order. Where caveats come in
/// the order of their facts, each costs a look at one fact, which is taken from those ahead.
pub(crate) fn satisfied_in_order(
    caveat: &[u8],
    context: &Context<'_>,
    ahead: &mut FieldList<'_>,
) -> bool
    requires { AreAmong ahead.old context.now.facts }
    ensures satisfied { IsTrue result ↔ Satisfied caveat.now context.now }
    ensures ahead { AreAmong ahead.new context.now.facts }
{
    let mut others = ahead.walk();
    match others.next() {
        Some(fact) if is_same(fact, caveat) => {
            *ahead = others;
            true
        }
        _ => satisfied(caveat, context),
    }
}
