//! Texts that are folded onto a signature one by one, so that several signatures can be computed
//! side by side.

ghost use Rattle.std.specs.Prelude.{◌≡◌, ◌∷◌, ℕ, List, [], IfSome, drop, length, get_or, option_map};
ghost use Rattle.mac_hmac.specs.Chain.{extended};
ghost use Rattle.mac_decide.specs.Folding.{end_of, progress, texts_of, texts_left, under_of};

use mac_hmac::{RootKey, Sig, extend, start};
use mac_token::{TokenView, Walk};
use mac_wire::FieldList;
use std::marker::Model;

/// Texts, where they lie: the caveats of a token, which lies in its bytes or is held, or the fields
/// of a request's list.
#[derive(Drop)]
pub enum Texts<'a> {
    Caveats(Walk<'a>),
    Held(&'a [Vec<u8>]),
    Fields(FieldList<'a>),
}

impl<'a> Texts<'a> {
    /// The first of them, which is taken away.
    pub fn next(&mut self) -> Option<&'a [u8]>
        ensures { texts_left (option_map (λ text. text.now) result) (texts_of self.new)
            ≡ texts_of self.old }
    {
        match self {
            Texts::Caveats(texts) => texts.next(),
            Texts::Held(texts) => {
                let (text, rest) = texts.split_first()?;
                *texts = rest;
                Some(text)
            }
            Texts::Fields(texts) => texts.next(),
        }
    }
}

/// What the next text is folded under.
#[derive(Clone, Copy)]
pub enum Under {
    /// The key, before a token's identifier is folded on.
    Key(RootKey),
    /// The signature so far.
    Signature(Sig),
}

/// A signature so far, and the texts that are still to be folded onto it: how many, the next one,
/// and those behind it. Contracts see the signature and the list of texts.
#[derive(Drop)]
pub struct Folding<'a> {
    under: Under,
    left: usize,
    next: Option<&'a [u8]>,
    rest: Texts<'a>,
}

impl<'a> Model for Folding<'a> {
    ghost use Rattle.std.specs.Prelude.{◌≡◌, length, option_map};
    ghost use Rattle.mac_decide.specs.Folding.{Progress, progress, texts_left, texts_of, under_of};

    ghost Value = { Progress };

    ghost view = { λ f. progress (under_of f.under)
        (texts_left (option_map (λ text. text.now) f.next) (texts_of f.rest)) };

    ghost invariant = { λ f. f.left
        ≡ length (texts_left (option_map (λ text. text.now) f.next) (texts_of f.rest)) };
}

impl<'a> Folding<'a> {
    /// The chain that the key gives a token: its identifier, and then its caveats.
    pub fn of_token(key: RootKey, token: &TokenView<'a>) -> Folding<'a>
        ensures { result ≡ progress key (token.now.identifier ∷ token.now.caveats) }
    {
        let left = token.caveats() + 1;
        Folding {
            under: Under::Key(key),
            left,
            next: Some(token.identifier()),
            rest: Texts::Caveats(token.walk()),
        }
    }

    /// The same of a token that is minted.
    pub fn of_mint(key: RootKey, identifier: &'a [u8], caveats: FieldList<'a>) -> Folding<'a>
        ensures { result ≡ progress key (identifier.now ∷ caveats.entry) }
    {
        let left = caveats.len() + 1;
        Folding {
            under: Under::Key(key),
            left,
            next: Some(identifier),
            rest: Texts::Fields(caveats),
        }
    }

    /// Caveats onto the signature that a token has.
    pub fn of_caveats(signature: Sig, caveats: FieldList<'a>) -> Folding<'a>
        ensures { result ≡ progress signature caveats.entry }
    {
        let left = caveats.len();
        let mut rest = Texts::Fields(caveats);
        let next = rest.next();
        Folding {
            under: Under::Signature(signature),
            left,
            next,
            rest,
        }
    }

    /// How many texts are still to be folded on.
    pub fn left(&self) -> usize
        ensures { result ≡ length self.now.left }
    {
        self.left
    }

    /// The signature so far; before a token's identifier is folded on, the key.
    pub fn signature(&self) -> Sig
        ensures { result ≡ self.now.signature }
    {
        match self.under {
            Under::Key(key) => Sig::from_bytes(key.bytes()),
            Under::Signature(signature) => signature,
        }
    }

    /// The key, before a token's identifier is folded on.
    pub fn key(&self) -> Option<RootKey>
        ensures { IfSome result (λ key. key ≡ self.now.signature) }
    {
        match self.under {
            Under::Key(key) => Some(key),
            Under::Signature(_) => None,
        }
    }

    /// The signature after the text that is to be folded on next.
    pub fn next_signature(&self) -> Sig
        ensures { result ≡ extended self.now.signature (get_or self.now.left 0 [] ∷ []) }
    {
        match self.under {
            Under::Key(key) => start(&key, self.text()),
            Under::Signature(signature) => extend(signature, self.text()),
        }
    }

    /// The text that is to be folded on next; no bytes where none is left.
    pub fn text(&self) -> &'a [u8]
        ensures { result.now ≡ get_or self.now.left 0 [] }
    {
        self.next.unwrap_or(&[])
    }

    /// Takes the signature after the next text. Where none is left, nothing changes.
    pub fn fold(&mut self, signature: Sig)
        requires { (text : List ℕ) (rest : List (List ℕ)) → self.old.left ≡ text ∷ rest
            → signature ≡ extended self.old.signature (text ∷ []) }
        ensures end { end_of self.new ≡ end_of self.old }
        ensures left { self.new.left ≡ drop 1 self.old.left }
    {
        if self.left > 0 {
            self.under = Under::Signature(signature);
            self.next = self.rest.next();
            self.left -= 1;
        }
    }

    /// The signature after all texts, folded on one after the other.
    pub fn finish(mut self) -> Sig
        ensures { result ≡ end_of self.entry }
    {
        for _ in 0..self.left() {
            let signature = self.next_signature();
            self.fold(signature);
        }
        self.signature()
    }
}
