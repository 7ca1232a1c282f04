//! Tokens that were found to be minted: whoever verifies one of them again computes no signature.
//!
//! A memory is shared by threads: any number of them find tokens in a part of it at a time, and one
//! alone changes it. No one waits for another: who finds a part taken does without. A memory knows
//! a token by all bytes of its text, and has it as it was read, so that one that comes again is not
//! read again. It finds texts by a hash of what the signature stands in, under a key that nobody is
//! told: a guess is compared with nothing that is kept. A token is kept once it comes again, so
//! that those that come once cost next to nothing and push out none.

ghost use Rattle.std.specs.Prelude.{◌≡◌, IfOk, IfSome, true};
ghost use Rattle.mac_keys.specs.Keys.{listed};
ghost use Rattle.mac_decide.specs.Reading.{is_minted, verdict_of};
ghost use Rattle.mac_decide.specs.Telling.{verdict_told, verify_told};
ghost use Rattle.mac_decide.specs.Uses.{IsMintedText};

use crate::context::Context;
use crate::part::{MintedText, Part, SeenToken};
use crate::reply::verdict_reply;
use crate::revocation::Telling;
use crate::uses::{KeyUse, KeyUses, NameCounts, NameUses};
use crate::verdict::{found_verdict, unsatisfied_of};
use mac_keys::Keys;
use mac_wire::{NoMemory, Reply};
use std::alloc::Global;
use std::hash::{BuildHasher, Hasher, RandomState};
use std::sync::atomic::AtomicU32;
use std::sync::atomic::Ordering::SeqCst;
use std::sync::{Arc, RwLock, RwLockReadGuard, RwLockWriteGuard, Wait};

/// The longest text of a token that is remembered, in bytes.
pub const SEEN_MAX: usize = 8_192;

/// How many parts a memory has. A thread takes one at a time.
const PARTS: usize = 64;

/// How many tokens that came once are noted.
const ONCE: usize = 65_536;

/// What the coin goes on by: 2^32 divided by the golden ratio, so that it falls in step with no
/// number of tokens that come in turn.
const COIN_STEP: u32 = 0x9e37_79b9;

/// How many bytes at the end of a text its mark is made of: all of a signature stands in them. It
/// has 32, and in base64, with what may follow it, 47 at most.
const END: usize = 48;

/// The same of a token in binary, which ends with its signature.
const BINARY_END: usize = 32;

/// What threads share of a memory.
#[derive(Drop)]
struct Shared {
    parts: Vec<RwLock<Part>>,
    /// Of tokens that came once, what the place leaves of the mark.
    once: Vec<AtomicU32>,
    /// A coin, by its highest bit, for each that came at whose place another one was noted.
    coin: AtomicU32,
    hashes: RandomState,
}

impl Shared {
    fn new(alloc: Global, hashes: RandomState, most: usize) -> Result<Shared, NoMemory> {
        let mut parts = Vec::with_capacity(alloc, PARTS)?;
        for _ in 0..PARTS {
            parts.push(RwLock::new(Part::new(alloc, most / PARTS)?))?;
        }
        let mut once = Vec::with_capacity(alloc, ONCE)?;
        for _ in 0..ONCE {
            once.push(AtomicU32::new(0))?;
        }
        Ok(Shared {
            parts,
            once,
            coin: AtomicU32::new(0),
            hashes,
        })
    }

    /// The mark of a text: a hash of what the signature stands in.
    fn mark(&self, text: &[u8]) -> u64 {
        let mut hasher = self.hashes.build_hasher();
        hasher.write(around_signature(text));
        hasher.finish()
    }

    /// The part for tokens of a mark.
    fn part(&self, mark: u64) -> Option<&RwLock<Part>> {
        self.parts.get((mark % PARTS as u64) as usize)
    }

    /// Whether a token of this mark came before. That it came is noted. Where another one is noted,
    /// one in two takes its place, so that of those that come in turn there each is found in time.
    /// Which one does is no matter of the order in which they come: some might come for ever and
    /// never be found.
    fn is_again(&self, mark: u64) -> bool {
        let rest = (mark >> 32) as u32;
        let Some(place) = self.once.get((mark % ONCE as u64) as usize) else {
            return false;
        };
        let noted = place.load(SeqCst);
        if noted == 0 || (noted != rest && self.tosses_head()) {
            place.store(rest, SeqCst);
        }
        noted == rest
    }

    /// Whether the coin shows its head, as it does one time in two.
    fn tosses_head(&self) -> bool {
        self.coin.fetch_add(COIN_STEP, SeqCst) >> 31 == 0
    }
}

/// The bytes of a text that tell its signature: its end, or all of JSON, or of its base64, where
/// the signature may stand anywhere.
fn around_signature(text: &[u8]) -> &[u8] {
    match text {
        [b'{' | b'e', ..] => text,
        [2, ..] => end_of(text, BINARY_END),
        _ => end_of(text, END),
    }
}

/// So many bytes at the end of a text, or all of it.
fn end_of(text: &[u8], count: usize) -> &[u8] {
    &text[text.len().saturating_sub(count)..]
}

/// The same once more, for another thread, where there is any.
fn share<T>(shared: &Option<Arc<T, Global>>) -> Result<Option<Arc<T, Global>>, NoMemory> {
    match shared {
        Some(shared) => Ok(Some(Arc::try_clone(shared)?)),
        None => Ok(None),
    }
}

/// The reply to a verify of a token that is minted under one of the keys.
fn reply_to(
    alloc: Global,
    keys: &Keys,
    seen: &SeenToken,
    telling: Telling<'_>,
    context: &Context<'_>,
) -> Result<Reply, NoMemory>
    requires { is_minted (listed keys.now) seen.now.token ≡ true }
    ensures { IfOk result (λ r. r ≡ verdict_told telling.entry seen.now.token
        (verdict_of (listed keys.now) seen.now.token context.now)) }
{
    let token = &seen.token;
    let verdict = found_verdict(unsatisfied_of(token, context));
    let identifier = token.identifier();
    let reply = verdict_reply(alloc, telling.grant, identifier, token.location(), verdict)?;
    Ok(telling.keep_hashed(reply, identifier, seen.hash))
}

/// A memory of tokens that were found to be minted, each with the keys under which it was; or none.
/// Beside it the uses of keys are counted, by all who share it.
#[derive(Drop)]
pub struct SeenTokens {
    shared: Option<Arc<Shared, Global>>,
    uses: Option<Arc<KeyUses, Global>>,
    /// The lane in which uses are counted here.
    lane: usize,
}

impl SeenTokens {
    /// No memory: nothing is remembered, and nothing counted.
    pub fn none() -> SeenTokens {
        SeenTokens {
            shared: None,
            uses: None,
            lane: 0,
        }
    }

    /// No memory, but uses are counted.
    pub fn without_memory(alloc: Global) -> Result<SeenTokens, NoMemory> {
        Ok(SeenTokens {
            shared: None,
            uses: Some(Arc::new(alloc, KeyUses::new(alloc)?)?),
            lane: 0,
        })
    }

    /// A memory of so many bytes at most for tokens, which it takes as it fills, and 256 KiB for
    /// what it notes of those that came once.
    pub fn new(alloc: Global, hashes: RandomState, most: usize) -> Result<SeenTokens, NoMemory> {
        let shared = Arc::new(alloc, Shared::new(alloc, hashes, most)?)?;
        let uses = Arc::new(alloc, KeyUses::new(alloc)?)?;
        Ok(SeenTokens {
            shared: Some(shared),
            uses: Some(uses),
            lane: 0,
        })
    }

    /// Whether there is no memory.
    pub fn is_none(&self) -> bool {
        self.shared.is_none()
    }

    /// The same memory, for another thread, which counts in a lane of its own as far as there are.
    pub fn share(&self) -> Result<SeenTokens, NoMemory> {
        let lane = self.uses.as_ref().map_or(0, |uses| uses.next_lane());
        Ok(SeenTokens {
            shared: share(&self.shared)?,
            uses: share(&self.uses)?,
            lane,
        })
    }

    /// How often the keys of each name were used, in the order of the names; and last of all names
    /// beyond those that are counted apart.
    pub fn uses<R: Wait>(&self, rt: &R, alloc: Global) -> Result<Vec<NameCounts>, NoMemory> {
        match &self.uses {
            Some(uses) => uses.counts(rt, alloc),
            None => Ok(Vec::new(alloc)),
        }
    }

    /// Whether nothing is remembered or counted.
    pub(crate) fn is_idle(&self) -> bool {
        self.shared.is_none() && self.uses.is_none()
    }

    /// The counters of a name, where uses are counted and there is memory for them.
    fn uses_of(&self, alloc: Global, name: &[u8]) -> Option<Arc<NameUses, Global>> {
        self.uses.as_ref()?.of(alloc, name).ok()
    }

    /// Counts a use of a name's keys.
    pub(crate) fn count(&self, alloc: Global, name: &[u8], used: KeyUse) {
        if let Some(uses) = self.uses_of(alloc, name) {
            uses.count(self.lane, used);
        }
    }

    /// Counts a verify of a token that is there.
    fn count_seen(&self, alloc: Global, name: &[u8], seen: &SeenToken, reply: &Reply) {
        let used = KeyUse::of_verify(reply, seen.signer);
        match &seen.uses {
            Some(uses) if uses.is_of(name) => uses.count(self.lane, used),
            _ => self.count(alloc, name, used),
        }
    }

    /// By what the memory knows the token of a text, where there is a memory. Long texts aren't
    /// remembered.
    fn mark(&self, text: &[u8]) -> Option<u64> {
        match &self.shared {
            Some(shared) if text.len() <= SEEN_MAX => Some(shared.mark(text)),
            _ => None,
        }
    }

    /// The part for tokens of this mark, to find one in; unless there is no memory, or another
    /// thread changes it.
    fn read_part(&self, mark: u64) -> Option<RwLockReadGuard<'_, Part>> {
        self.shared.as_ref()?.part(mark)?.try_read()
    }

    /// The same, to change it; unless there is no memory, or another thread has taken it.
    fn write_part(&self, mark: u64) -> Option<RwLockWriteGuard<'_, Part>> {
        self.shared.as_ref()?.part(mark)?.try_write()
    }

    /// The reply to a verify of a text that is there, found to be minted under one of these keys.
    /// It is counted.
    pub(crate) fn reply(
        &self,
        alloc: Global,
        keys: &Keys,
        text: &[u8],
        telling: Telling<'_>,
        context: &Context<'_>,
    ) -> Result<Option<Reply>, NoMemory>
        ensures { IfOk result (λ found. IfSome found (λ r.
            r ≡ verify_told telling.entry text.now context.now keys.now)) }
    {
        let Some(mark) = self.mark(text) else {
            return Ok(None);
        };
        let Some(guard) = self.read_part(mark) else {
            return Ok(None);
        };
        let part = &*guard;
        match part.find(mark, keys, text) {
            Some(seen) => {
                let reply = reply_to(alloc, keys, seen, telling, context)?;
                self.count_seen(alloc, telling.name, seen, &reply);
                Ok(Some(reply))
            }
            None => Ok(None),
        }
    }

    /// Notes that a text came which was found to be minted. Where it came before it is kept.
    pub(crate) fn note(&self, alloc: Global, found: &MintedText<'_>)
        requires { IsMintedText found.now }
    {
        if let Some(mark) = self.mark_again(found.text) {
            self.keep(alloc, mark, found);
        }
    }

    /// The mark of a text that is found to be minted, where it came before and may be kept. That it
    /// came is noted.
    pub(crate) fn mark_again(&self, text: &[u8]) -> Option<u64> {
        let mark = self.mark(text)?;
        let is_again = self.shared.as_ref()?.is_again(mark);
        is_again.then_some(mark)
    }

    /// Keeps the token of a text of this mark. It isn't kept where there is no memory for it or its
    /// part is taken; where others would have to give way, one in eight is.
    pub(crate) fn keep(&self, alloc: Global, mark: u64, found: &MintedText<'_>)
        requires { IsMintedText found.now }
    {
        if let Some(mut guard) = self.write_part(mark) {
            let part = &mut *guard;
            if part.admits(found.text) {
                let uses = self.uses_of(alloc, found.name);
                if let Ok(seen) = SeenToken::of(alloc, found, uses) {
                    part.keep(mark, seen);
                }
            }
        }
    }
}
