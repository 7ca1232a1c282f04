//! Which identifiers are in no list, told by a look at one byte.
//!
//! Most tokens were never taken back. A filter has a byte at each of its places, and a hash of an
//! identifier says its place and its tag. There the byte is free, the tag of all that came there,
//! or says that several came. So an identifier that came is never told to be missing, and one that
//! didn't seldom needs a further look: fewer than one in thirty, where there are four places for
//! each that came.
ghost use Rattle.std.specs.Prelude.{◌≡◌, ℕ, true};
ghost use Rattle.mac_keys.specs.Filter.{admits, after_tag, hash_of, may_have, place_of, tag_of};

use std::alloc::{AllocError, Global};
use std::hash::{FoldHasher, Hasher};
use std::marker::Model;

/// How many places there are for each identifier that comes, and in all at least.
const PLACES_EACH: usize = 4;

const PLACES_LEAST: usize = 64;

/// What stands where nothing came, and where several with different tags came.
const FREE: u8 = 0;

const SEVERAL: u8 = 255;

/// A hash of an identifier, by which it is looked for. Its seed is fixed.
pub fn hash_identifier(identifier: &[u8]) -> u64
    ensures { result ≡ hash_of identifier.now }
{
    let mut hasher = FoldHasher::default();
    hasher.write(identifier);
    hasher.finish()
}

/// The place that a hash says, of so many: by its upper half.
fn place_of(places: usize, hash: u64) -> usize
    ensures { result ≡ place_of places hash }
{
    ((hash >> 32).wrapping_mul(places as u64) >> 32) as usize
}

/// The tag that a hash says: neither of the two other bytes.
fn tag_of(hash: u64) -> u8
    ensures { result ≡ tag_of hash }
{
    (hash % 128) as u8 + 1
}

/// The byte that is put in place of this one where a tag comes.
fn after_tag(byte: u8, tag: u8) -> u8
    ensures { result ≡ after_tag byte tag }
{
    if byte == FREE || byte == tag {
        tag
    } else {
        SEVERAL
    }
}

/// A byte at each place.
#[derive(Drop)]
pub(crate) struct Filter {
    bytes: Vec<u8>,
}

impl Model for Filter {
    ghost use Rattle.std.specs.Prelude.{ℕ, List};

    ghost Value = { List ℕ };

    ghost view = { λ filter. filter.bytes.items };
}

impl Filter {
    /// A filter for so many identifiers, none of which has come.
    pub(crate) fn new(alloc: Global, identifiers: usize) -> Result<Filter, AllocError> {
        let places = identifiers.saturating_mul(PLACES_EACH).max(PLACES_LEAST);
        Ok(Filter {
            bytes: vec![in alloc; FREE; places]?,
        })
    }

    /// Whether an identifier with this hash may have come.
    pub(crate) fn may_have(&self, hash: u64) -> bool
        ensures { result ≡ may_have self.now hash }
    {
        match self.bytes.get(place_of(self.bytes.len(), hash)) {
            Some(byte) => *byte == tag_of(hash) || *byte == SEVERAL,
            None => true,
        }
    }

    /// Notes that an identifier with this hash has come.
    pub(crate) fn add(&mut self, hash: u64)
        ensures this { may_have self.new hash ≡ true }
        ensures others { (other : ℕ) → may_have self.old other ≡ true
            → may_have self.new other ≡ true }
    {
        let place = place_of(self.bytes.len(), hash);
        if let Some(byte) = self.bytes.get_mut(place) {
            *byte = after_tag(*byte, tag_of(hash));
        }
    }
}
