//! What a request is answered on.

ghost use Rattle.std.specs.Prelude.{◌≡◌, option_copied};
ghost use Rattle.mac_decide.specs.Terms.{lent_terms};
ghost use Rattle.mac_http.specs.Found.{terms_of};
ghost use Rattle.mac_http.specs.Page.{told_keys};

use crate::rules::{Rules, Way};
use mac_decide::{SeenTokens, Terms};
use mac_keys::KeyTable;

/// What a request is answered on: the key table that is up, the rules of the face, the moment, in
/// seconds since 1970, if the clock told one, and a memory of tokens.
#[derive(Clone, Copy)]
pub struct Footing<'a> {
    pub keys: &'a KeyTable,
    pub rules: Rules<'a>,
    pub moment: Option<u64>,
    pub seen: &'a SeenTokens,
}

impl<'a> Footing<'a> {
    /// The terms of its requests.
    pub(crate) fn terms(self) -> Terms<'a>
        ensures { lent_terms result
            ≡ terms_of self.entry.keys.now self.entry.rules self.entry.moment }
    {
        Terms {
            table: self.keys,
            rights: self.rules.rights,
            moment: self.moment,
        }
    }

    /// The key table, where a page may tell of it.
    pub(crate) fn told_keys(self) -> Option<&'a KeyTable>
        ensures { option_copied result ≡ told_keys self.entry.rules.way self.entry.keys.now }
    {
        match self.rules.way {
            Way::Socket => Some(self.keys),
            Way::Port => None,
        }
    }
}
