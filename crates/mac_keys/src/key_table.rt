//! The key table: the names of a key file, and the tokens that were taken back.
ghost use Rattle.std.specs.Prelude.{◌≡◌, ◌⊎◌, IfOk, IfErr, OnOk, IsErrOf, option_copied};
ghost use Rattle.std.specs.FinMap as map;
ghost use Rattle.mac_keys.specs.KeyTable.{table_of};
ghost use Rattle.mac_keys.specs.Meaning.{TakeMemory};
ghost use Rattle.mac_keys.specs.Names.{names_of, told};
ghost use Rattle.mac_keys.specs.Table.{lines_of};
ghost use Rattle.mac_keys.specs.declared.fault.KeyFault.TheVariants.{Memory};

use crate::fault::KeyFault;
use crate::key_map::KeyMap;
use crate::keys::{KeyName, Keys};
use crate::revoked::RevokedList;
use std::alloc::{AllocError, Global};

/// The names of a key file with their keys, and a list of tokens that were taken back. Who has a
/// table has both of one moment.
#[derive(Drop)]
pub struct KeyTable {
    pub keys: KeyMap,
    pub revoked: RevokedList,
}

impl KeyTable {
    /// The table of a key file, or the first line that has a fault. Nothing was taken back.
    ///
    /// Takes time in line with the length of the text, and memory for the table and for one secret
    /// at a time.
    pub fn read(alloc: Global, text: &[u8]) -> Result<KeyTable, KeyFault>
        ensures table { IfOk result (λ table. table_of text.now ≡ Ok table) }
        ensures fault { IfErr result (λ fault. (fault ≡ Memory) ⊎ (table_of text.now ≡ Err fault)) }
        ensures memory { IsErrOf result Memory → TakeMemory (lines_of text.now) }
    {
        match KeyMap::read(alloc, text) {
            Ok(keys) => Ok(KeyTable {
                keys,
                revoked: RevokedList::none(),
            }),
            Err(fault) => Err(fault),
        }
    }

    /// The same names, with this list in place of the one before, shared with its owner.
    pub fn take_back(&mut self, list: &RevokedList) -> Result<(), AllocError>
        ensures { OnOk result (self.new ≡ record self.old { revoked = list.now }) }
    {
        self.revoked = list.share()?;
        Ok(())
    }

    /// The root keys of a name, found by some ten comparisons of names. Takes no memory.
    pub fn find(&self, name: &[u8]) -> Option<&Keys>
        ensures { option_copied result ≡ map.get self.now.keys name.now }
    {
        self.keys.find(name)
    }

    /// The number of names. Takes no memory.
    pub fn len(&self) -> usize
        ensures { result ≡ map.len self.now.keys }
    {
        self.keys.len()
    }

    /// The names in the order of their bytes, each with the number of its keys.
    pub fn names(&self, alloc: Global) -> Result<Vec<KeyName<'_>>, AllocError>
        ensures { IfOk result (λ names. told names.items ≡ names_of self.now.keys) }
    {
        self.keys.names(alloc)
    }
}
