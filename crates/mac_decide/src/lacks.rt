//! Why a caveat isn't satisfied, for who asks after a refusal.

ghost use Rattle.std.specs.Prelude.{◌≡◌, if◌then◌else◌, Some, None, [], option_map};
ghost use Rattle.std.specs.List.{list_any};
ghost use Rattle.mac_decide.specs.Doubt.{begins};
ghost use Rattle.mac_decide.specs.Lack.{fact_lack, is_pathless, lack_by, lack_of, nearer, nearest};
ghost use Rattle.mac_decide.specs.Lack.{shared, under};
ghost use Rattle.mac_decide.specs.Reading.{is_satisfied, limit_of, since_of};

use crate::context::{Context, satisfied};
use crate::doubts::{Doubt, find_doubt, limit_in, since_in};
use mac_wire::FieldList;

/// How a caveat begins that asks what the path is under.
const UNDER: &[u8] = b"path under ";

/// Why a caveat isn't satisfied.
#[derive(Clone, Copy, Debug, PartialEq, Eq)]
pub enum Lack {
    /// It is a time limit of this second, which the moment has reached.
    Ended(i64),
    /// It is a lower bound of time of this second, which the moment hasn't reached.
    Ahead(i64),
    /// It can hardly hold.
    Doubted(Doubt),
    /// It asks what the path is under, and no fact tells that.
    NoPath,
    /// No fact equals it.
    NoFact,
}

/// Why a caveat isn't satisfied, or nothing where it is. It costs what a verify of the caveat
/// costs, and as much again.
#[tactic(auto, unfolding(crate::specs::Lack::lack_of))]
pub fn find_lack(caveat: &[u8], context: &Context<'_>) -> Option<Lack>
    ensures { result ≡ lack_of caveat.now context.now }
{
    if is_satisfied(caveat, context) {
        None
    } else {
        Some(lack_by(limit_in(caveat), since_in(caveat), caveat, context))
    }
}

/// Whether a caveat is satisfied.
fn is_satisfied(caveat: &[u8], context: &Context<'_>) -> bool
    ensures { result ≡ is_satisfied caveat.now context.now }
{
    satisfied(caveat, context)
}

/// What a caveat lacks that is a time limit or a lower bound of these seconds, or none of both.
fn lack_by(limit: Option<i64>, since: Option<i64>, caveat: &[u8], context: &Context<'_>) -> Lack
    ensures { result ≡ lack_by limit since caveat.now context.now }
{
    match (limit, since) {
        (Some(second), _) => Lack::Ended(second),
        (None, Some(second)) => Lack::Ahead(second),
        (None, None) => {
            let doubt = find_doubt(caveat, false, context.moment);
            fact_lack(doubt, caveat, &context.facts)
        }
    }
}

/// What a caveat lacks that is no bound of time, by the doubt about it.
fn fact_lack(doubt: Option<Doubt>, caveat: &[u8], facts: &FieldList<'_>) -> Lack
    ensures { result ≡ fact_lack doubt caveat.now facts.now }
{
    match doubt {
        Some(doubt) => Lack::Doubted(doubt),
        None if is_pathless(caveat, facts) => Lack::NoPath,
        None => Lack::NoFact,
    }
}

/// Whether a caveat asks what the path is under, and no fact tells that.
fn is_pathless(caveat: &[u8], facts: &FieldList<'_>) -> bool
    ensures { result ≡ is_pathless caveat.now facts.now }
{
    caveat.starts_with(UNDER) && !tells_under(facts)
}

/// Whether a fact tells what the path is under.
fn tells_under(facts: &FieldList<'_>) -> bool
    ensures { result ≡ list_any (begins under) facts.now }
{
    facts.walk().any(|fact| fact.starts_with(UNDER))
}

/// The first of the facts that share the most first bytes with a caveat, or nothing where none has
/// its first byte.
pub fn nearest_fact<'a>(caveat: &[u8], facts: &FieldList<'a>) -> &'a [u8]
    ensures { result.now ≡ nearest caveat.now [] facts.now }
{
    let mut best: &'a [u8] = &[];
    let mut others = facts.walk();
    while let Some(fact) = others.next() {
        best = nearer(caveat, best, fact);
    }
    best
}

/// The fact, where it shares more first bytes with the caveat than the best so far.
fn nearer<'a>(caveat: &[u8], best: &'a [u8], fact: &'a [u8]) -> &'a [u8]
    ensures { result.now ≡ nearer caveat.now best.now fact.now }
{
    if shared(caveat, best) < shared(caveat, fact) {
        fact
    } else {
        best
    }
}

/// How many first bytes two texts share.
pub fn shared(one: &[u8], other: &[u8]) -> usize
    ensures { result ≡ shared one.now other.now }
{
    one.iter()
        .zip(other)
        .take_while(|pair| pair.0 == pair.1)
        .count()
}
