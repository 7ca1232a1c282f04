//! What is known of a reply before its signature is computed.

ghost use Rattle.std.specs.Prelude.{◌≡◌, ◌⊎◌, ◌∷◌, ℕ, List, [], IfOk, IfSome, MatchOption, None, drop, length, get_or};
ghost use Rattle.mac_hmac.specs.Chain.{extended};
ghost use Rattle.mac_decide.specs.Folding.{end_of};
ghost use Rattle.mac_decide.specs.Prepared.{comes_to, ends_in, left_of, question_reply, reply_by, signature_of};

use crate::context::Context;
use crate::folding::Folding;
use crate::reply::{signed_reply, verdict_reply};
use crate::revocation::Telling;
use crate::verdict_view::verdict_by;
use mac_hmac::{RootKey, Sig, same};
use mac_token::{Draft, TokenView};
use mac_wire::{NoMemory, Reply};
use std::alloc::Global;

/// What a verify asks, but for the name's first key.
#[derive(Drop)]
pub struct Question<'a> {
    pub telling: Telling<'a>,
    pub second: Option<RootKey>,
    pub token: TokenView<'a>,
    pub context: Context<'a>,
}

impl<'a> Question<'a> {
    /// The texts that lead to the second key's signature, where this one isn't the token's. A key
    /// is asked once: the question is without it from then on.
    fn take_second(&mut self, signature: Sig) -> Option<Folding<'a>>
        ensures reply { MatchOption result (self.new ≡ self.old)
            (λ folding. question_reply self.new (end_of folding)
            ≡ question_reply self.old signature) }
        ensures asked { MatchOption result
            ((self.old.second ≡ None) ⊎ (self.old.token.sig ≡ signature))
            (λ _. self.new.second ≡ None) }
    {
        match self.second {
            Some(key) if !same(&Sig::from_bytes(self.token.sig()), &signature) => {
                self.second = None;
                Some(Folding::of_token(key, &self.token))
            }
            _ => None,
        }
    }

    /// The reply, by the signature that the first key gives the token.
    fn reply(self, alloc: Global, signature: Sig) -> Result<Reply, NoMemory>
        ensures { IfOk result (λ r. r ≡ question_reply self.entry signature) }
    {
        let token = &self.token;
        let verdict = verdict_by(signature, self.second, token, &self.context);
        let identifier = token.identifier();
        let grant = self.telling.grant;
        let reply = verdict_reply(alloc, grant, identifier, token.location(), verdict)?;
        Ok(self.telling.keep(reply, identifier))
    }
}

/// What a signature is computed for.
#[derive(Drop)]
pub enum Purpose<'a> {
    /// The verdict on a token, to which the name's first key gives the signature.
    Verdict(Question<'a>),
    /// The token that is to have the signature, as it is written up to it.
    Draft(Draft),
}

impl<'a> Purpose<'a> {
    /// The reply, once the signature is there.
    fn reply(self, alloc: Global, signature: Sig) -> Result<Reply, NoMemory>
        ensures { IfOk result (λ r. r ≡ reply_by self.entry signature) }
    {
        match self {
            Purpose::Verdict(question) => question.reply(alloc, signature),
            Purpose::Draft(draft) => signed_reply(alloc, draft, signature),
        }
    }
}

/// The texts that lead to a signature, and what that is for.
#[derive(Drop)]
pub struct Signing<'a> {
    pub folding: Folding<'a>,
    pub purpose: Purpose<'a>,
}

impl<'a> Signing<'a> {
    /// Takes the signature after the next text. After the last one under a first key that doesn't
    /// sign the token, the token's texts are left anew, for the second key.
    fn fold(&mut self, signature: Sig)
        requires { (text : List ℕ) (rest : List (List ℕ)) → self.old.folding.left ≡ text ∷ rest
            → signature ≡ extended self.old.folding.signature (text ∷ []) }
        ensures { ends_in self.new ≡ ends_in self.old }
    {
        self.folding.fold(signature);
        if self.folding.left() == 0 {
            self.turn_to_second();
        }
    }

    /// Where nothing is left, takes what the purpose has anew.
    fn turn_to_second(&mut self)
        requires { self.old.folding.left ≡ [] }
        ensures { ends_in self.new ≡ ends_in self.old }
    {
        if let Purpose::Verdict(question) = &mut self.purpose {
            if let Some(folding) = question.take_second(self.folding.signature()) {
                self.folding = folding;
            }
        }
    }
}

/// A reply, or what it waits for.
#[derive(Drop)]
pub enum Prepared<'a> {
    /// The reply.
    Told(Reply),
    /// The signature that it waits for.
    Pending(Signing<'a>),
}

/// A refusal: what stands in a place of a run that has no job.
impl Default for Prepared<'_> {
    fn default() -> Self {
        Prepared::Told(Reply::default())
    }
}

impl<'a> Prepared<'a> {
    /// How many texts are still to be folded on.
    pub fn left(&self) -> usize
        ensures { result ≡ length (left_of self.now) }
    {
        match self {
            Prepared::Told(_) => 0,
            Prepared::Pending(signing) => signing.folding.left(),
        }
    }

    /// The text that is to be folded on next; no bytes where none is left.
    pub fn text(&self) -> &'a [u8]
        ensures { result.now ≡ get_or (left_of self.now) 0 [] }
    {
        match self {
            Prepared::Told(_) => &[],
            Prepared::Pending(signing) => signing.folding.text(),
        }
    }

    /// The signature so far; zeros where there is none.
    pub fn signature(&self) -> Sig
        ensures { result ≡ signature_of self.now }
    {
        match self {
            Prepared::Told(_) => Sig::from_bytes([0; 32]),
            Prepared::Pending(signing) => signing.folding.signature(),
        }
    }

    /// The key that the next text is folded under, where it is one and not a signature.
    pub fn key(&self) -> Option<RootKey>
        ensures { IfSome result (λ key. key ≡ signature_of self.now) }
    {
        match self {
            Prepared::Told(_) => None,
            Prepared::Pending(signing) => signing.folding.key(),
        }
    }

    /// Takes the signature after the next text.
    pub fn fold(&mut self, signature: Sig)
        requires { (text : List ℕ) (rest : List (List ℕ)) → left_of self.old ≡ text ∷ rest
            → signature ≡ extended (signature_of self.old) (text ∷ []) }
        ensures { comes_to self.new ≡ comes_to self.old }
    {
        match self {
            Prepared::Told(_) => {}
            Prepared::Pending(signing) => signing.fold(signature),
        }
    }

    /// Folds the next text on. Where none is left, nothing changes.
    pub fn fold_next(&mut self)
        ensures { comes_to self.new ≡ comes_to self.old }
    {
        if let Prepared::Pending(signing) = self {
            let signature = signing.folding.next_signature();
            signing.fold(signature);
        }
    }

    /// The reply. What is left is folded on first, one text after the other.
    pub fn into_reply(self, alloc: Global) -> Result<Reply, NoMemory>
        ensures { IfOk result (λ r. r ≡ comes_to self.entry) }
    {
        match self {
            Prepared::Told(reply) => Ok(reply),
            Prepared::Pending(Signing { folding, purpose }) => {
                purpose.reply(alloc, folding.finish())
            }
        }
    }
}
