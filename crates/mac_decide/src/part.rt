//! A part of a memory of tokens, and the tokens in it.

ghost use Rattle.std.specs.Prelude.{◌≡◌, IfSome, IsTrue, Ok, true};
ghost use Rattle.mac_keys.specs.Filter.{hash_of};
ghost use Rattle.mac_keys.specs.Keys.{listed};
ghost use Rattle.mac_token.specs.Read.{read_of};
ghost use Rattle.mac_decide.specs.Reading.{is_minted};
ghost use Rattle.mac_decide.specs.Seen.{IsFound, keys_with};
ghost use Rattle.mac_decide.specs.Uses.{IsMintedText, signer_of};

use crate::uses::{NameUses, Signer};
use lru::LruCache;
use mac_keys::{Keys, hash_identifier};
use mac_token::{Token, TokenFault, read};
use mac_wire::NoMemory;
use std::alloc::Global;
use std::sync::Arc;
use std::sync::atomic::AtomicBool;
use std::sync::atomic::Ordering::SeqCst;

/// What a token takes beside its text and what that spells, about: its keys, its place among
/// others, and what an allocator adds.
const ASIDE: usize = 336;

/// What each of its caveats takes beside its bytes, about.
const CAVEAT_ASIDE: usize = 48;

/// Where others have to give way, one token in so many is kept: where more come again and again
/// than there is room for, keeping each would cost more than it saves.
const ONE_IN: u32 = 8;

/// A text that came under a name, and spells a token that one of the name's keys signed.
#[derive(Clone, Copy)]
pub(crate) struct MintedText<'a> {
    pub name: &'a [u8],
    pub keys: &'a Keys,
    pub text: &'a [u8],
    /// Which of the keys gives the signature.
    pub signer: Signer,
}

/// What tells the keys of a name from those of others. The hash values that they keep are left out:
/// what is looked at for each verify is short.
#[derive(Clone, Copy, PartialEq, Eq)]
pub struct KeyBytes {
    first: [u8; 32],
    second: Option<[u8; 32]>,
}

impl KeyBytes {
    fn of(keys: &Keys) -> KeyBytes
        ensures { keys_with result ≡ keys.now }
    {
        KeyBytes {
            first: keys.first.bytes(),
            second: match keys.second {
                Some(second) => Some(second.bytes()),
                None => None,
            },
        }
    }
}

/// A token that was found to be minted under one of these keys, as it was read from its text.
#[derive(Drop)]
pub(crate) struct SeenToken {
    keys: KeyBytes,
    text: Vec<u8>,
    pub(crate) token: Token,
    /// The hash of its identifier, by which a list is asked whether it was taken back.
    pub(crate) hash: u64,
    /// Which of the keys gives its signature.
    pub(crate) signer: Signer,
    /// The counters of the name that it came under first.
    pub(crate) uses: Option<Arc<NameUses, Global>>,
    /// Whether it was found since it last would have given way.
    is_used: AtomicBool,
    ghost spelled: { read_of text.items ≡ Ok token },
    ghost minted: { is_minted (listed (keys_with keys)) token ≡ true },
    ghost hashed: { hash ≡ hash_of token.identifier },
    ghost signed: { signer ≡ signer_of (keys_with keys) text.items },
}

impl SeenToken {
    /// The token that a text spells, beside the counters of its name.
    pub(crate) fn of(
        alloc: Global,
        found: &MintedText<'_>,
        uses: Option<Arc<NameUses, Global>>,
    ) -> Result<SeenToken, TokenFault>
        requires { IsMintedText found.now }
    {
        let token = read(alloc, found.text)?;
        let text = Vec::from_slice(alloc, found.text)?;
        let hash = hash_identifier(token.identifier());
        Ok(SeenToken {
            keys: KeyBytes::of(found.keys),
            text,
            token,
            hash,
            signer: found.signer,
            uses,
            is_used: AtomicBool::new(false),
        })
    }

    /// Whether it is the token of this text, found under these keys.
    fn is(&self, keys: &Keys, text: &[u8]) -> bool
        ensures { IsTrue result → IsFound keys.now text.now self.now.token }
    {
        self.keys == KeyBytes::of(keys) && self.text.as_slice() == text
    }

    /// Notes that it is used. Who finds that noted writes nothing: threads that use one token don't
    /// wait for one another's writes.
    fn note_use(&self) {
        if !self.is_used.load(SeqCst) {
            self.is_used.store(true, SeqCst);
        }
    }

    /// How many bytes it takes.
    fn size(&self) -> usize {
        let caveats = self.token.caveat_list().len();
        least_size(self.text.as_slice()).saturating_add(caveats.saturating_mul(CAVEAT_ASIDE))
    }
}

/// How many bytes the token of a text takes, if it has no caveat.
fn least_size(text: &[u8]) -> usize {
    text.len().saturating_mul(2).saturating_add(ASIDE)
}

/// A part of a memory: tokens by their marks. Those stand first that came last, or were used when
/// they would have given way.
#[derive(Drop)]
pub(crate) struct Part {
    tokens: LruCache<u64, SeenToken>,
    /// How many bytes they take.
    taken: usize,
    /// How many they may take.
    most: usize,
    /// How many came for which others would have had to give way.
    waited: u32,
}

impl Part {
    pub(crate) fn new(alloc: Global, most: usize) -> Result<Part, NoMemory> {
        Ok(Part {
            tokens: LruCache::unbounded(alloc)?,
            taken: 0,
            most,
            waited: 0,
        })
    }

    /// The token of this text, if it was found under these keys. Its use is noted.
    pub(crate) fn find(&self, mark: u64, keys: &Keys, text: &[u8]) -> Option<&SeenToken>
        ensures { IfSome result (λ seen. IsFound keys.now text.now seen.now.token) }
    {
        match self.tokens.peek(&mark) {
            Some(seen) if seen.is(keys, text) => {
                seen.note_use();
                Some(seen)
            }
            _ => None,
        }
    }

    /// Whether a further token is kept, whose text this is.
    pub(crate) fn admits(&mut self, text: &[u8]) -> bool {
        if self.taken.saturating_add(least_size(text)) <= self.most {
            return true;
        }
        self.waited = self.waited.wrapping_add(1);
        self.waited % ONE_IN == 0
    }

    /// Keeps a token. Those that came first and weren't used since give way to it.
    pub(crate) fn keep(&mut self, mark: u64, seen: SeenToken) {
        let size = seen.size();
        if size > self.most {
            return;
        }
        self.make_room(size);
        if let Ok(replaced) = self.tokens.push(mark, seen) {
            let freed = replaced.map_or(0, |(_, other)| other.size());
            self.taken = self.taken.saturating_add(size).saturating_sub(freed);
        }
    }

    /// Lets go of tokens until so many bytes are free. Each that was used is passed over once.
    fn make_room(&mut self, size: usize) {
        for _ in 0..self.tokens.len().saturating_mul(2) {
            if self.taken.saturating_add(size) <= self.most {
                return;
            }
            match self.last_used() {
                Some(mark) => {
                    self.tokens.promote(&mark);
                }
                None => self.let_go(),
            }
        }
    }

    /// The mark of the last token, if it was used. That it was is noted no more.
    fn last_used(&self) -> Option<u64> {
        match self.tokens.peek_lru() {
            Some((mark, seen)) if seen.is_used.swap(false, SeqCst) => Some(*mark),
            _ => None,
        }
    }

    /// Lets go of the last token.
    fn let_go(&mut self) {
        if let Some((_, other)) = self.tokens.pop_lru() {
            self.taken = self.taken.saturating_sub(other.size());
        }
    }
}
