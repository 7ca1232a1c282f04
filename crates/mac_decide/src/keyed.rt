//! The root keys of a run whose next texts are identifiers.

ghost use Rattle.std.specs.Prelude.{◌≡◌, ◌<◌, ℕ, [], IfSome, Some, slice_get, slice_index, slice_index_or};
ghost use Rattle.mac_decide.specs.Prepared.{AreUnder, signature_of};
ghost use Rattle.mac_decide.specs.declared.prepared.Prepared.{Prepared};

use crate::choosing::LANES;
use crate::prepared::Prepared;
use mac_hmac::RootKey;

/// The key at a place of the run, where the next text there is folded under one; `other` where the
/// run has no such place.
fn key_at(run: &[Prepared<'_>], place: usize, other: RootKey) -> Option<RootKey>
    ensures { IfSome result (λ key. (prepared : Prepared)
        → slice_get run.now place ≡ Some prepared → key ≡ signature_of prepared) }
{
    match run.get(place) {
        Some(prepared) => prepared.key(),
        None => Some(other),
    }
}

/// The keys at these places, where the next text at each is folded under one.
pub(crate) fn keys_at(run: &[Prepared<'_>], places: &[usize; LANES]) -> Option<[RootKey; LANES]>
    ensures { IfSome result (λ keys. AreUnder run.now places.now keys) }
{
    let other = run.get(places[0])?.key()?;
    let mut keys = [other; LANES];
    for lane in 0..LANES {
        keys[lane] = key_at(run, places[lane], other)?;
    }
    Some(keys)
}
