//! The names of a key file with their keys.
ghost use Rattle.std.specs.Prelude.{◌≡◌, ◌⊎◌, ℕ, None, Some, IfOk, IfErr, OnOk, OnErr, IsErrOf, option_copied};
ghost use Rattle.std.specs.FinMap as map;
ghost use Rattle.mac_keys.specs.Line.{line_of};
ghost use Rattle.mac_keys.specs.Names.{names_of, told};
ghost use Rattle.mac_hmac.specs.Chain.{root_of};
ghost use Rattle.mac_keys.specs.Table.{lines_of, table_of, fault_below, fault_of_keys, fault_of_name};
ghost use Rattle.mac_keys.specs.Meaning.{HasPairs, TakeMemory};
ghost use Rattle.mac_keys.specs.Taken.{keys_with, table_with, Gets, IsFor};
ghost use Rattle.mac_keys.specs.declared.fault.KeyFault.TheVariants.{Memory};

use crate::fault::{KeyFault, LineFault};
use crate::keys::{KeyName, Keys};
use crate::line::{Refusal, read_line};
use crate::wiping::{show, wipe};
use mac_hmac::{RootKey, root_key};
use std::alloc::{AllocError, Global};
use std::collections::BTreeMap;
use std::marker::Model;

/// The greatest number of names in a table.
pub const NAMES_MAX: usize = 1000;

/// The names of a key file, each with the root keys of its secrets. The keys are overwritten where
/// a table is let go of.
pub struct KeyMap {
    keys: BTreeMap<Vec<u8>, Keys>,
}

impl Drop for KeyMap {
    fn drop(self) {
        let KeyMap { mut keys } = self;
        let blank = RootKey::from_bytes([0; 32]);
        for kept in keys.values_mut() {
            *kept = Keys {
                first: blank,
                second: Some(blank),
            };
            show(kept);
        }
    }
}

impl Model for KeyMap {
    ghost use Rattle.std.specs.Coded.{coded_list, coded_ℕ};
    ghost use Rattle.std.specs.FinMap as map;
    ghost use Rattle.mac_keys.specs.Keys.{NamedKeys, by_name, keys_code};

    ghost Value = { NamedKeys };

    ghost coded = { map.code (coded_list coded_ℕ) keys_code };

    ghost view = { λ table. map.from_entries (by_name table.keys.entries) };
}

impl KeyMap {
    /// The table of a key file, or the first line that has a fault.
    ///
    /// Takes time in line with the length of the text, and memory for the table and for one secret
    /// at a time.
    pub fn read(alloc: Global, text: &[u8]) -> Result<KeyMap, KeyFault>
        ensures table { IfOk result (λ table. table_of text.now ≡ Ok table) }
        ensures fault { IfErr result (λ fault. (fault ≡ Memory) ⊎ (table_of text.now ≡ Err fault)) }
        ensures memory { IsErrOf result Memory → TakeMemory (lines_of text.now) }
    {
        let mut table = KeyMap {
            keys: BTreeMap::new(alloc),
        };
        for (index, line) in text.split(|byte| *byte == b'\n').enumerate() {
            if let Err(refusal) = table.take_line(alloc, line) {
                return Err(refusal.at_line(index));
            }
        }
        Ok(table)
    }

    /// The root keys of a name, found by some ten comparisons of names. Takes no memory.
    pub fn find(&self, name: &[u8]) -> Option<&Keys>
        ensures { option_copied result ≡ map.get self.now name.now }
    {
        self.keys.get(name)
    }

    /// The number of names. Takes no memory.
    pub fn len(&self) -> usize
        ensures { result ≡ map.len self.now }
    {
        self.keys.len()
    }

    /// The names in the order of their bytes, each with the number of its keys.
    pub fn names(&self, alloc: Global) -> Result<Vec<KeyName<'_>>, AllocError>
        ensures { IfOk result (λ names. told names.items ≡ names_of self.now) }
    {
        let mut names = Vec::new(alloc);
        for (name, keys) in &self.keys {
            names.push(KeyName {
                name: name.as_slice(),
                keys: keys.count(),
            })?;
        }
        Ok(names)
    }

    /// The same names with the same keys once more.
    pub fn copy(&self) -> Result<KeyMap, AllocError>
        ensures { IfOk result (λ keys. keys ≡ self.now) }
    {
        Ok(KeyMap {
            keys: self.keys.clone()?,
        })
    }

    /// Takes the next line of a file into the table.
    fn take_line(&mut self, alloc: Global, line: &[u8]) -> Result<(), Refusal>
        ensures ok { OnOk result ((fault_below self.old (line_of line.now) ≡ None)
            × (self.new ≡ table_with self.old (line_of line.now))) }
        ensures fault { IfErr result (IsFor (fault_below self.old (line_of line.now))) }
        ensures memory { IsErrOf result Refusal.Memory → HasPairs line.now }
    {
        match read_line(alloc, line)? {
            Some(mut given) => {
                let taken = self.put(alloc, given.name, &given.secret);
                wipe(given.secret.as_mut_slice());
                taken
            }
            None => Ok(()),
        }
    }

    /// Gives a name the root key of a secret.
    fn put(&mut self, alloc: Global, name: &[u8], secret: &[u8]) -> Result<(), Refusal>
        ensures ok { OnOk result ((fault_of_name self.old name.now ≡ None) × (self.new
            ≡ map.insert self.old name.now (keys_with (map.get self.old name.now)
            (root_of secret.now)))) }
        ensures fault { IfErr result (IsFor (fault_of_name self.old name.now)) }
        ensures memory { IsErrOf result Refusal.Memory → fault_of_name self.old name.now ≡ None }
    {
        let keys = self.keys_after(name, secret)?;
        let name = Vec::from_slice(alloc, name)?;
        self.keys.insert(name, keys)?;
        Ok(())
    }

    /// The keys of a name once a line gives it one more secret.
    fn keys_after(&self, name: &[u8], secret: &[u8]) -> Result<Keys, LineFault>
        ensures { Gets result (fault_of_name self.now name.now)
            (keys_with (map.get self.now name.now) (root_of secret.now)) }
    {
        match self.find(name) {
            None => self.first_key(secret),
            Some(keys) => second_key(keys, secret),
        }
    }

    /// The keys of a new name, where the table has room for it.
    fn first_key(&self, secret: &[u8]) -> Result<Keys, LineFault>
        ensures { Gets result (fault_of_keys (map.len self.now) None)
            (keys_with None (root_of secret.now)) }
    {
        if self.keys.len() >= NAMES_MAX {
            return Err(LineFault::TooMany);
        }
        Ok(Keys {
            first: root_key(secret),
            second: None,
        })
    }
}

/// The keys of a name that has some, with that of one more secret.
fn second_key(keys: &Keys, secret: &[u8]) -> Result<Keys, LineFault>
    ensures { (names : ℕ) → Gets result (fault_of_keys names (Some keys.now))
        (keys_with (Some keys.now) (root_of secret.now)) }
{
    if keys.second.is_some() {
        return Err(LineFault::Twice);
    }
    Ok(Keys {
        first: keys.first,
        second: Some(root_key(secret)),
    })
}
