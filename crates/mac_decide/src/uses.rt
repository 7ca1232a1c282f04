//! How the keys of each name are used: how many requests named it, what they were answered, and
//! which of its keys gave the signature.
//!
//! Threads count each in a lane of its own, as far as there are lanes, and wait for nobody. No
//! contract speaks of the counts.

ghost use Rattle.std.specs.Prelude.{◌≡◌, ◌<◌, slice_index};
ghost use Rattle.mac_decide.specs.Uses.{mint_use, signer_place, use_place, verify_use};

use mac_wire::{NoMemory, Reply};
use std::alloc::Global;
use std::array;
use std::collections::BTreeMap;
use std::sync::atomic::Ordering::SeqCst;
use std::sync::atomic::{AtomicU64, AtomicUsize};
use std::sync::{Arc, RwLock, Wait};

/// How many names are counted apart. What any further one is asked for is counted together.
const NAMES_MAX: usize = 1_000;

/// How many lanes there are.
const LANES: usize = 8;

/// How many counters lie between the begins of two lanes, so that no two share a line of memory.
const WIDTH: usize = 2 * USES;

/// How many uses are told apart.
pub const USES: usize = 9;

/// Which of a name's keys gave a signature.
#[derive(Clone, Copy, Debug, PartialEq, Eq)]
pub enum Signer {
    /// The key of the name's first line.
    First,
    /// The key of its second line.
    Second,
    /// One of the two: it wasn't looked at which.
    Either,
}

/// What a request is counted as at the name of its key.
#[derive(Clone, Copy, Debug, PartialEq, Eq)]
pub enum KeyUse {
    /// A token was minted, under the first key.
    Minted,
    /// No token was minted.
    NotMinted,
    /// A verify was granted.
    Granted(Signer),
    /// A caveat of its token wasn't satisfied.
    Unsatisfied(Signer),
    /// A verify was refused.
    Refused,
}

impl KeyUse {
    /// All of them, each at its place.
    pub const ALL: [KeyUse; USES] = [
        KeyUse::Minted,
        KeyUse::NotMinted,
        KeyUse::Granted(Signer::First),
        KeyUse::Granted(Signer::Second),
        KeyUse::Granted(Signer::Either),
        KeyUse::Unsatisfied(Signer::First),
        KeyUse::Unsatisfied(Signer::Second),
        KeyUse::Unsatisfied(Signer::Either),
        KeyUse::Refused,
    ];

    /// What a mint is counted as, whose reply this is.
    pub(crate) fn of_mint(reply: &Reply) -> KeyUse
        ensures { result ≡ mint_use reply.now }
    {
        match reply {
            Reply::Token(_) => KeyUse::Minted,
            _ => KeyUse::NotMinted,
        }
    }

    /// What a verify is counted as, whose reply this is, where this key gave the signature.
    pub(crate) fn of_verify(reply: &Reply, signer: Signer) -> KeyUse
        ensures { result ≡ verify_use reply.now signer }
    {
        match reply {
            Reply::Granted | Reply::GrantedTo { .. } => KeyUse::Granted(signer),
            Reply::Unsatisfied(_) => KeyUse::Unsatisfied(signer),
            Reply::Token(_) | Reply::Refused(_) => KeyUse::Refused,
        }
    }

    /// Its place among all.
    pub(crate) fn place(self) -> usize
        ensures place { result ≡ use_place self }
        ensures within { result < USES }
    {
        match self {
            KeyUse::Minted => 0,
            KeyUse::NotMinted => 1,
            KeyUse::Granted(signer) => 2 + signer.place(),
            KeyUse::Unsatisfied(signer) => 5 + signer.place(),
            KeyUse::Refused => 8,
        }
    }
}

impl Signer {
    /// Its place among all.
    fn place(self) -> usize
        ensures place { result ≡ signer_place self }
        ensures within { result < 3 }
    {
        match self {
            Signer::First => 0,
            Signer::Second => 1,
            Signer::Either => 2,
        }
    }
}

/// How often the keys of a name were used, each use at its place.
#[derive(Drop)]
pub struct NameCounts {
    /// The name; `*` for all names beyond those that are counted apart, which is no name.
    pub name: Vec<u8>,
    /// The counts.
    pub counts: [u64; USES],
}

impl NameCounts {
    /// How often they were used so.
    pub fn count(&self, used: KeyUse) -> u64
        ensures { result ≡ slice_index self.now.counts (use_place used) }
    {
        self.counts[used.place()]
    }
}

/// The counters of a name.
#[derive(Drop)]
pub(crate) struct NameUses {
    name: Vec<u8>,
    lanes: Vec<AtomicU64>,
}

impl NameUses {
    fn new(alloc: Global, name: &[u8]) -> Result<NameUses, NoMemory> {
        let mut lanes = Vec::with_capacity(alloc, LANES * WIDTH)?;
        for _ in 0..LANES * WIDTH {
            lanes.push(AtomicU64::new(0))?;
        }
        let name = Vec::from_slice(alloc, name)?;
        Ok(NameUses { name, lanes })
    }

    /// Whether these are those of this name.
    pub(crate) fn is_of(&self, name: &[u8]) -> bool {
        self.name.as_slice() == name
    }

    /// Counts a use, in a lane.
    pub(crate) fn count(&self, lane: usize, used: KeyUse) {
        if let Some(counter) = self.lanes.get((lane % LANES) * WIDTH + used.place()) {
            counter.fetch_add(1, SeqCst);
        }
    }

    /// What all lanes show.
    fn counts(&self) -> Result<NameCounts, NoMemory> {
        Ok(NameCounts {
            name: self.name.clone()?,
            counts: array::from_fn(|place| self.total(place)),
        })
    }

    /// How often the use at a place was counted, in all lanes.
    fn total(&self, place: usize) -> u64 {
        let mut total = 0u64;
        for lane in 0..LANES {
            if let Some(counter) = self.lanes.get((lane * WIDTH).saturating_add(place)) {
                total = total.wrapping_add(counter.load(SeqCst));
            }
        }
        total
    }
}

/// The counters of all names.
#[derive(Drop)]
pub(crate) struct KeyUses {
    names: RwLock<BTreeMap<Vec<u8>, Arc<NameUses, Global>>>,
    /// Those of all names beyond those that are counted apart, and of requests at whose moment
    /// another thread put a name in.
    rest: Arc<NameUses, Global>,
    /// How many lanes were given away.
    given: AtomicUsize,
}

impl KeyUses {
    pub(crate) fn new(alloc: Global) -> Result<KeyUses, NoMemory> {
        Ok(KeyUses {
            names: RwLock::new(BTreeMap::new(alloc)),
            rest: Arc::new(alloc, NameUses::new(alloc, b"*")?)?,
            given: AtomicUsize::new(0),
        })
    }

    /// A lane for a thread.
    pub(crate) fn next_lane(&self) -> usize {
        self.given.fetch_add(1, SeqCst)
    }

    /// The counters of a name. A name that is new is put among the others, as long as there is
    /// room.
    pub(crate) fn of(&self, alloc: Global, name: &[u8]) -> Result<Arc<NameUses, Global>, NoMemory> {
        match self.find(name) {
            Some(found) => found,
            None => self.put(alloc, name),
        }
    }

    /// The counters of a name that is among them.
    fn find(&self, name: &[u8]) -> Option<Result<Arc<NameUses, Global>, NoMemory>> {
        let guard = self.names.try_read()?;
        let names = &*guard;
        names.get(name).map(Arc::try_clone)
    }

    /// The counters of a name, which is put among them, if it isn't there and there is room.
    fn put(&self, alloc: Global, name: &[u8]) -> Result<Arc<NameUses, Global>, NoMemory> {
        let Some(mut guard) = self.names.try_write() else {
            return Arc::try_clone(&self.rest);
        };
        let names = &mut *guard;
        if let Some(uses) = names.get(name) {
            return Arc::try_clone(uses);
        }
        if names.len() >= NAMES_MAX {
            return Arc::try_clone(&self.rest);
        }
        let uses = Arc::new(alloc, NameUses::new(alloc, name)?)?;
        let further = Arc::try_clone(&uses)?;
        names.insert(Vec::from_slice(alloc, name)?, uses)?;
        Ok(further)
    }

    /// What they show, in the order of the names, and last that of the rest.
    pub(crate) fn counts<R: Wait>(
        &self,
        rt: &R,
        alloc: Global,
    ) -> Result<Vec<NameCounts>, NoMemory> {
        let mut counts = Vec::new(alloc);
        let guard = self.names.read(rt);
        let names = &*guard;
        for uses in names.values() {
            counts.push(uses.counts()?)?;
        }
        counts.push(self.rest.counts()?)?;
        Ok(counts)
    }
}
