//! Tokens that were taken back.
//!
//! ```text
//! line       = "" / "#" *any / "revoked " name " " identifier
//! identifier = *(digit digit), hexadecimal digits of either case
//! ```
ghost use Rattle.std.specs.Prelude.{◌≡◌, ◌↔◌, ◌⊎◌, ◌+◌, ◌<◌, ◌^◌, List, ℕ, IfOk, IfErr, IsTrue, OnOk, None, Some, Ok, Err, false, option_map};
ghost use Rattle.std.specs.FinMap as map;
ghost use Rattle.std.specs.FinSet as set;
ghost use Rattle.mac_keys.specs.Table.{lines_of};
ghost use Rattle.mac_keys.specs.Filter.{AdmitsAll, hash_of};
ghost use Rattle.mac_keys.specs.Revoked.{after_line, count_said, identifiers_of, is_listed};
ghost use Rattle.mac_keys.specs.Revoked.{means_none, nothing, revoked_fields, revoked_of, with_said};
ghost use Rattle.mac_keys.specs.declared.revoked_fault.RevokedFault.TheVariants.{Memory};

use crate::filter::{Filter, hash_identifier};
use crate::line::{is_ignored, is_name, parted};
use crate::revoked_fault::{RevokedFault, RevokedLineFault};
use hex::FromHexError;
use std::alloc::{AllocError, Global};
use std::collections::{BTreeMap, HashSet};
use std::marker::Model;
use std::sync::Arc;

/// Identifiers of tokens. They are found by hashes whose seed is fixed: the operator writes the
/// list, so that who makes tokens whose identifiers hash alike would have to have each taken back.
#[derive(Drop)]
pub(crate) struct Identifiers {
    held: HashSet<Vec<u8>>,
}

impl Model for Identifiers {
    ghost use Rattle.std.specs.Coded.{coded_list, coded_ℕ};
    ghost use Rattle.std.specs.FinSet as set;
    ghost use Rattle.mac_keys.specs.Revoked.{Identifiers as Seen, by_bytes};

    ghost Value = { Seen };

    ghost coded = { set.code (coded_list coded_ℕ) };

    ghost view = { λ identifiers. set.from_list (by_bytes identifiers.held.keys) };
}

impl Identifiers {
    fn new(alloc: Global) -> Identifiers
        ensures { result ≡ set.empty }
    {
        Identifiers {
            held: HashSet::new(alloc),
        }
    }

    /// Whether this one is among them, as a whole.
    fn has(&self, identifier: &[u8]) -> bool
        ensures { result ≡ set.contains self.now identifier.now }
    {
        self.held.contains(identifier)
    }

    fn add(&mut self, identifier: Vec<u8>) -> Result<(), AllocError>
        ensures { OnOk result (self.new ≡ set.insert self.old identifier.items) }
    {
        self.held.insert(identifier)?;
        Ok(())
    }
}

/// Names, each with identifiers of its tokens.
#[derive(Drop)]
pub(crate) struct Lists {
    names: BTreeMap<Vec<u8>, Identifiers>,
}

impl Model for Lists {
    ghost use Rattle.std.specs.Coded.{coded_list, coded_ℕ};
    ghost use Rattle.std.specs.FinMap as map;
    ghost use Rattle.std.specs.FinSet as set;
    ghost use Rattle.mac_keys.specs.Keys.{by_name};
    ghost use Rattle.mac_keys.specs.Revoked.{Revoked};

    ghost Value = { Revoked };

    ghost coded = { map.code (coded_list coded_ℕ) (set.code (coded_list coded_ℕ)) };

    ghost view = { λ lists. map.from_entries (by_name lists.names.entries) };
}

impl Lists {
    fn new(alloc: Global) -> Lists
        ensures { result ≡ nothing }
    {
        Lists {
            names: BTreeMap::new(alloc),
        }
    }

    /// Whether the name has the identifier.
    fn has(&self, name: &[u8], identifier: &[u8]) -> bool
        ensures { result ≡ is_listed self.now name.now identifier.now }
    {
        match self.names.get(name) {
            Some(identifiers) => identifiers.has(identifier),
            None => false,
        }
    }

    /// Whether the name has none.
    fn is_without(&self, name: &[u8]) -> bool
        ensures { IsTrue result → (identifier : List ℕ)
            → is_listed self.now name.now identifier ≡ false }
    {
        match self.names.get(name) {
            Some(_) => false,
            None => true,
        }
    }

    /// Gives the name one more identifier.
    fn add(&mut self, alloc: Global, name: &[u8], identifier: Vec<u8>) -> Result<(), AllocError>
        ensures { OnOk result (self.new ≡ with_said self.old
            (Some (record { name = name.now; identifier = identifier.items }))) }
    {
        match self.names.get_mut(name) {
            Some(identifiers) => identifiers.add(identifier),
            None => {
                let mut identifiers = Identifiers::new(alloc);
                identifiers.add(identifier)?;
                let name = Vec::from_slice(alloc, name)?;
                self.names.insert(name, identifiers)?;
                Ok(())
            }
        }
    }

    /// The same, and notes it in a filter.
    fn add_noted(
        &mut self,
        alloc: Global,
        filter: &mut Filter,
        name: &[u8],
        identifier: Vec<u8>,
    ) -> Result<(), AllocError>
        ensures said { OnOk result (self.new ≡ with_said self.old
            (Some (record { name = name.now; identifier = identifier.items }))) }
        ensures noted { OnOk result
            (AdmitsAll self.old filter.old → AdmitsAll self.new filter.new) }
    {
        filter.add(hash_identifier(identifier.as_slice()));
        self.add(alloc, name, identifier)
    }

    /// Takes in what the line of this number says, and notes it in a filter.
    fn take_line(
        &mut self,
        alloc: Global,
        filter: &mut Filter,
        number: u64,
        line: &[u8],
    ) -> Result<(), RevokedFault>
        ensures ok { OnOk result (after_line number self.old line.now ≡ Ok self.new) }
        ensures noted { OnOk result
            (AdmitsAll self.old filter.old → AdmitsAll self.new filter.new) }
        ensures fault { IfErr result (λ fault.
            (fault ≡ Memory) ⊎ (after_line number self.old line.now ≡ Err fault)) }
    {
        if is_ignored(line) {
            return Ok(());
        }
        let Some((name, digits)) = fields(line) else {
            return Err(fault_at(number, RevokedLineFault::BadLine));
        };
        if !is_name(name) {
            return Err(fault_at(number, RevokedLineFault::BadName));
        }
        match hex::decode(alloc, digits) {
            Ok(identifier) => Ok(self.add_noted(alloc, filter, name, identifier)?),
            Err(FromHexError::OutOfMemory) => Err(RevokedFault::Memory),
            Err(_) => Err(fault_at(number, RevokedLineFault::BadHex)),
        }
    }
}

/// The fault of the line of this number.
fn fault_at(line: u64, kind: RevokedLineFault) -> RevokedFault
    ensures { result ≡ RevokedFault.Line line kind }
{
    RevokedFault::Line { line, kind }
}

/// The name and the digits behind `revoked `, as the next space parts them.
fn fields(line: &[u8]) -> Option<(&[u8], &[u8])>
    ensures { option_map (λ found. (found.0.now, found.1.now)) result ≡ revoked_fields line.now }
{
    parted(line.strip_prefix(b"revoked ")?)
}

/// Names with identifiers, and a filter that lets each of these pass.
#[derive(Drop)]
pub(crate) struct Filtered {
    lists: Lists,
    filter: Filter,
}

impl Model for Filtered {
    ghost use Rattle.std.specs.Coded.{coded_list, coded_ℕ};
    ghost use Rattle.std.specs.FinMap as map;
    ghost use Rattle.std.specs.FinSet as set;
    ghost use Rattle.mac_keys.specs.Filter.{AdmitsAll};
    ghost use Rattle.mac_keys.specs.Revoked.{Revoked};

    ghost Value = { Revoked };

    ghost coded = { map.code (coded_list coded_ℕ) (set.code (coded_list coded_ℕ)) };

    ghost view = { λ filtered. filtered.lists };

    ghost invariant = { λ filtered. AdmitsAll filtered.lists filtered.filter };
}

impl Filtered {
    /// Whether the name has the identifier, whose hash this is. Few that it hasn't are looked up.
    fn has(&self, name: &[u8], identifier: &[u8], hash: u64) -> bool
        requires { hash ≡ hash_of identifier.now }
        ensures { result ≡ is_listed self.now name.now identifier.now }
    {
        self.filter.may_have(hash) && self.lists.has(name, identifier)
    }

    /// Whether the name has none.
    fn is_without(&self, name: &[u8]) -> bool
        ensures { IsTrue result → (identifier : List ℕ)
            → is_listed self.now name.now identifier ≡ false }
    {
        self.lists.is_without(name)
    }
}

/// A list of tokens that were taken back: names, each with identifiers of its tokens. It is shared
/// by all who have it, and never changes.
#[derive(Drop)]
pub struct RevokedList {
    held: Option<Arc<Filtered, Global>>,
    /// How many lines it was made of.
    lines: usize,
}

impl Model for RevokedList {
    ghost use Rattle.std.specs.Coded.{coded_list, coded_ℕ};
    ghost use Rattle.std.specs.Arc.{arc_value};
    ghost use Rattle.std.specs.Option.{option_map_or};
    ghost use Rattle.std.specs.Prelude.{◌≡◌, ◌↔◌};
    ghost use Rattle.std.specs.FinMap as map;
    ghost use Rattle.std.specs.FinSet as set;
    ghost use Rattle.mac_keys.specs.Revoked.{Revoked, nothing};

    ghost Value = { Revoked };

    ghost coded = { map.code (coded_list coded_ℕ) (set.code (coded_list coded_ℕ)) };

    ghost view = { λ list. option_map_or (λ held. arc_value held) list.held nothing };

    ghost invariant = { λ list.
        (list.lines ≡ 0) ↔ (option_map_or (λ held. arc_value held) list.held nothing ≡ nothing) };
}

impl RevokedList {
    /// Nothing was taken back.
    pub fn none() -> RevokedList
        ensures { result ≡ nothing }
    {
        RevokedList {
            held: None,
            lines: 0,
        }
    }

    /// What a text takes back, or the first of its lines that has a fault.
    ///
    /// Takes memory for the list, and time in line with the length of the text, but that each
    /// line's name is looked up among the others.
    pub fn read(alloc: Global, text: &[u8]) -> Result<RevokedList, RevokedFault>
        ensures list { IfOk result (λ list. revoked_of text.now ≡ Ok list) }
        ensures fault { IfErr result (λ fault.
            (fault ≡ Memory) ⊎ (revoked_of text.now ≡ Err fault)) }
    {
        let lines = count_lines(text);
        let filtered = read_filtered(alloc, text, lines)?;
        Ok(RevokedList {
            held: Some(Arc::new(alloc, filtered)?),
            lines,
        })
    }

    /// The same list, for one more owner.
    pub fn share(&self) -> Result<RevokedList, AllocError>
        ensures { IfOk result (λ list. list ≡ self.now) }
    {
        match &self.held {
            Some(lists) => Ok(RevokedList {
                held: Some(Arc::try_clone(lists)?),
                lines: self.lines,
            }),
            None => Ok(RevokedList::none()),
        }
    }

    /// How many lines of its text take tokens back.
    pub fn lines(&self) -> usize
        ensures { (result ≡ 0) ↔ (self.now ≡ nothing) }
    {
        self.lines
    }

    /// Whether tokens of this name with this identifier were taken back. Whole names and whole
    /// identifiers are compared. Takes no memory.
    pub fn has(&self, name: &[u8], identifier: &[u8]) -> bool
        ensures { result ≡ is_listed self.now name.now identifier.now }
    {
        self.has_hashed(name, identifier, hash_identifier(identifier))
    }

    /// The same where the identifier's hash is known, by which most that were never taken back are
    /// told at a look.
    pub fn has_hashed(&self, name: &[u8], identifier: &[u8], hash: u64) -> bool
        requires { hash ≡ hash_of identifier.now }
        ensures { result ≡ is_listed self.now name.now identifier.now }
    {
        match &self.held {
            Some(filtered) => filtered.has(name, identifier, hash),
            None => false,
        }
    }

    /// Whether no token of this name was taken back, as far as can be told without looking further.
    pub fn is_without(&self, name: &[u8]) -> bool
        ensures { IsTrue result → (identifier : List ℕ)
            → is_listed self.now name.now identifier ≡ false }
    {
        match &self.held {
            Some(filtered) => filtered.is_without(name),
            None => true,
        }
    }
}

/// How many lines of a list's text say something: where none has a fault, each of these takes
/// tokens back.
pub fn count_lines(text: &[u8]) -> usize
    ensures { result ≡ count_said text.now }
{
    text.split(|byte| *byte == b'\n')
        .filter(|line| !is_ignored(line))
        .count()
}

/// Whether a list's text says by a line `# none` that it is meant to take nothing back.
pub fn says_none(text: &[u8]) -> bool
    ensures { result ≡ means_none text.now }
{
    text.split(|byte| *byte == b'\n')
        .any(|line| line == b"# none".as_slice())
}

/// What the lines of a text take back, about so many.
fn read_filtered(alloc: Global, text: &[u8], lines: usize) -> Result<Filtered, RevokedFault>
    ensures list { IfOk result (λ list. revoked_of text.now ≡ Ok list) }
    ensures fault { IfErr result (λ fault. (fault ≡ Memory) ⊎ (revoked_of text.now ≡ Err fault)) }
{
    let mut lists = Lists::new(alloc);
    let mut filter = Filter::new(alloc, lines)?;
    for (index, line) in text.split(|byte| *byte == b'\n').enumerate() {
        if let Err(fault) = lists.take_line(alloc, &mut filter, index as u64 + 1, line) {
            return Err(fault);
        }
    }
    Ok(Filtered { lists, filter })
}
