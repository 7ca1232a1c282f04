//! What a connection's socket allows.

ghost use Rattle.std.specs.Prelude.{◌≡◌};
ghost use Rattle.std.specs.List.{list_any};
ghost use Rattle.std.specs.Str.{bytes_eq};
ghost use Rattle.std.specs.Option.{option_copied};
ghost use Rattle.mac_decide.specs.Answer.{keys_of};
ghost use Rattle.mac_decide.specs.Terms.{all_rights, is_allowed, lent_terms};

use mac_keys::{KeyTable, Keys};
use mac_wire::Bytes;
use std::marker::Model;

/// Names of keys.
#[derive(Drop)]
pub struct Names {
    held: Vec<Bytes>,
}

impl Model for Names {
    ghost use Rattle.std.specs.Prelude.{ℕ, List};

    ghost Value = { List (List ℕ) };

    ghost view = { λ names. names.held.items };
}

impl Names {
    /// The names of a list, which is moved.
    pub fn new(held: Vec<Bytes>) -> Names
        ensures { result ≡ held.items }
    {
        Names { held }
    }

    /// Whether a name is among them. They are compared one by one.
    pub fn has(&self, name: &[u8]) -> bool
        ensures { result ≡ list_any (bytes_eq name.now) self.now }
    {
        self.held.iter().any(|known| name == known.as_slice())
    }
}

/// What the requests of a connection may do. A token may be attenuated by everyone: that asks for
/// no key.
#[derive(Drop)]
pub struct Rights {
    /// Whether they may mint.
    pub may_mint: bool,
    /// The names whose keys they may use: all where none are given.
    pub names: Option<Names>,
}

impl Rights {
    /// Everything is allowed.
    pub fn all() -> Rights
        ensures { result ≡ all_rights }
    {
        Rights {
            may_mint: true,
            names: None,
        }
    }

    /// Whether the keys of this name may be used.
    pub fn allows(&self, name: &[u8]) -> bool
        ensures { result ≡ is_allowed self.now.names name.now }
    {
        match &self.names {
            Some(names) => names.has(name),
            None => true,
        }
    }
}

/// What a request is answered under.
#[derive(Clone, Copy)]
pub struct Terms<'a> {
    /// The key table that is up.
    pub table: &'a KeyTable,
    /// What its connection's socket allows.
    pub rights: &'a Rights,
    /// The moment, in seconds since 1970, if the clock tells one.
    pub moment: Option<u64>,
}

impl<'a> Terms<'a> {
    /// The keys of a name, if it has any and they may be used, lent.
    pub(crate) fn keys_of(self, name: &[u8]) -> Option<&'a Keys>
        ensures { option_copied result ≡ keys_of (lent_terms self.entry) name.now }
    {
        if self.rights.allows(name) {
            self.table.find(name)
        } else {
            None
        }
    }
}
