//! The keys of a name.
ghost use Rattle.std.specs.Prelude.{◌≡◌, length};
ghost use Rattle.mac_keys.specs.Keys.{listed};

use mac_hmac::RootKey;

/// The root keys of a name: the first mints, and a verify takes either.
#[derive(Clone, Copy, PartialEq, Eq)]
pub struct Keys {
    /// The key of the name's first line.
    pub first: RootKey,
    /// The key of its second line, where it has one.
    pub second: Option<RootKey>,
}

impl Keys {
    /// How many keys there are: one or two.
    pub fn count(&self) -> usize
        ensures { result ≡ length (listed self.now) }
    {
        match self.second {
            Some(_) => 2,
            None => 1,
        }
    }
}

/// A name of a table.
#[derive(Clone, Copy, PartialEq, Eq)]
pub struct KeyName<'a> {
    /// The name.
    pub name: &'a [u8],
    /// How many keys it has: one or two.
    pub keys: usize,
}
