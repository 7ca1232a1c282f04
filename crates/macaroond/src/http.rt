//! The sockets over HTTP that the options of `listen` name.

ghost use Rattle.std.specs.Prelude.{◌≡◌, IfErr, IfOk, Some, map};
ghost use Rattle.std.specs.List.{list_all, list_any, slice_split};
ghost use Rattle.std.specs.Str.{bytes_eq};
ghost use Rattle.macaroond.specs.Http.{GivesAddresses, GivesCalls, GivesSources, IsPlan, IsRefused};
ghost use Rattle.macaroond.specs.Http.{granted_of, is_call, is_source, pages_beside, words_of};
ghost use Rattle.macaroond.specs.Http.{AreTerms};
ghost use Rattle.mac_gate.specs.declared.address.Reach.TheVariants.{Loopback};
ghost use Rattle.macaroond.specs.Rights.{is_comma};

use crate::operating::{OPERATORS_LOOPS, OPERATORS_MAX};
use crate::rights::{no_rights, read_rights};
use mac_commands::{HttpOptions, VERSION};
use mac_decide::Rights;
use mac_gate::{Address, AddressFault, HttpTerms, ListFault, Reach, read_addresses};
use mac_http::{Calls, Granted, Pages, Sources};
use std::alloc::{AllocError, Global};
use std::time::Duration;

/// How many connections over HTTP there are at a time, where nothing else is asked for.
const CONNECTIONS: u64 = 256;

/// How many seconds a peer may bring no whole request, where nothing else is asked for.
const PATIENCE: u64 = 10;

/// The words that name sources of facts.
const HEADER: &[u8] = b"header";

const QUERY: &[u8] = b"query";

const FORWARDED: &[u8] = b"forwarded";

/// The words that name calls.
const MINT: &[u8] = b"mint";

const ATTENUATE: &[u8] = b"attenuate";

const INSPECT: &[u8] = b"inspect";

const CHECK: &[u8] = b"check";

/// Addresses where one kind of peers asks.
#[derive(Drop)]
pub struct AddressGroup<'a> {
    /// Where they are.
    pub addresses: Vec<Address<'a>>,
    /// The permissions of the files of those that are Unix sockets.
    pub permissions: u32,
    /// What is allowed there.
    pub rights: Rights,
}

/// Sockets over HTTP, as options name them.
#[derive(Drop)]
pub struct HttpPlan<'a> {
    /// Where gateways ask.
    pub gateways: AddressGroup<'a>,
    /// Where programs call.
    pub callers: AddressGroup<'a>,
    /// The calls that are answered there.
    pub calls: Calls,
    /// Where operators ask, and nobody else.
    pub operators: AddressGroup<'a>,
    /// How the connections of gateways are served.
    pub terms: HttpTerms,
}

impl<'a> AddressGroup<'a> {
    /// How many descriptors its sockets may need where so many loops serve them.
    fn descriptors(&self, terms: &HttpTerms, loops: usize) -> u64 {
        if self.addresses.is_empty() {
            0
        } else {
            server_descriptors(terms.connections, self.addresses.len(), loops)
        }
    }
}

impl<'a> HttpPlan<'a> {
    /// How many descriptors its sockets may need where so many loops serve those of gateways, and
    /// as many those of callers.
    pub fn descriptors(&self, loops: usize) -> u64 {
        let doors = self.operators.addresses.len().saturating_add(1);
        let operators = server_descriptors(OPERATORS_MAX, doors, OPERATORS_LOOPS);
        let gateways = self.gateways.descriptors(&self.terms, loops);
        let callers = self.callers.descriptors(&self.terms, loops);
        operators.saturating_add(gateways).saturating_add(callers)
    }

    /// How the connections of callers are served.
    pub fn calls_terms(&self) -> HttpTerms
        ensures { result ≡ record self.now.terms { calls = self.now.calls } }
    {
        HttpTerms {
            calls: self.calls,
            ..self.terms
        }
    }

    /// The first port at which tokens are minted: there every user of the machine may have one.
    pub fn minting_port(&self) -> Option<Address<'a>> {
        for address in &self.callers.addresses {
            if self.calls.mint && matches!(address, Address::Tcp(_)) {
                return Some(*address);
            }
        }
        None
    }
}

/// How many descriptors a server over HTTP may need: one for each connection, two for each door
/// with its lock, three for each loop to wait by, and three to wait at the doors.
fn server_descriptors(connections: usize, doors: usize, loops: usize) -> u64 {
    (connections as u64)
        .saturating_add((doors as u64).saturating_mul(2))
        .saturating_add((loops as u64).saturating_mul(3))
        .saturating_add(3)
}

/// Why the options for HTTP can't be followed.
#[derive(Clone, Copy)]
pub enum HttpFault<'a> {
    /// A word of a list is no address that may be served.
    Address { word: &'a [u8], fault: AddressFault },
    /// `--http-granted` is no status that grants.
    Granted,
    /// A word of `--http-facts` is no source.
    Source,
    /// A word of `--http-calls-allow` is no call.
    Call,
    /// `--http-allow` is no longer taken.
    Moved,
    /// A word of `--http-calls` is an address that other machines may reach.
    CallsAnywhere { word: &'a [u8] },
    /// Memory ran out.
    NoMemory,
}

impl<'a> From<AllocError> for HttpFault<'a> {
    ghost use Rattle.std.specs.Prelude.{◌≡◌};
    ghost use Rattle.macaroond.specs.declared.http.HttpFault.TheVariants as fault;

    ghost from_gives = { λ _ made. made ≡ fault.NoMemory };

    fn from(_refused: AllocError) -> HttpFault<'a> {
        HttpFault::NoMemory
    }
}

/// The sockets over HTTP that options name, if they name any.
pub fn plan_http<'a>(alloc: Global, options: &'a HttpOptions) -> Result<HttpPlan<'a>, HttpFault<'a>>
    ensures plan { IfOk result (IsPlan options.now) }
    ensures refused { IfErr result (IsRefused options.now) }
{
    if options.allow.is_some() {
        return Err(HttpFault::Moved);
    }
    let mut addresses = read_named(alloc, &options.here, Reach::Loopback)?;
    let anywhere = read_named(alloc, &options.anywhere, Reach::Anywhere)?;
    addresses.extend_from_slice(&anywhere)?;
    let admin = read_named(alloc, &options.admin, Reach::Loopback)?;
    let terms = plan_terms(alloc, options)?;
    let calls = read_calls(alloc, &options.calls_allow)?;
    let gateways = AddressGroup {
        addresses,
        permissions: options.mode.permissions(),
        rights: read_rights(alloc, false, &options.names)?,
    };
    let callers = AddressGroup {
        addresses: read_callers(alloc, &options.calls)?,
        permissions: options.calls_mode.permissions(),
        rights: read_rights(alloc, calls.mint, &options.calls_names)?,
    };
    let operators = AddressGroup {
        addresses: admin,
        permissions: options.mode.permissions(),
        rights: no_rights(alloc),
    };
    Ok(HttpPlan {
        gateways,
        callers,
        calls,
        operators,
        terms,
    })
}

/// How the connections of gateways are served.
fn plan_terms<'a>(alloc: Global, options: &HttpOptions) -> Result<HttpTerms, HttpFault<'a>>
    ensures terms { IfOk result (AreTerms options.now) }
    ensures refused { IfErr result (IsRefused options.now) }
{
    let Some(granted) = read_granted(&options.granted) else {
        return Err(HttpFault::Granted);
    };
    let sources = read_sources(alloc, options.strict_paths, &options.facts)?;
    Ok(HttpTerms {
        sources,
        granted,
        calls: Calls::none(),
        connections: options.connections.unwrap_or(CONNECTIONS) as usize,
        patience: Duration::from_secs(options.patience.unwrap_or(PATIENCE)),
        pages: pages_beside(&options.admin),
        version: VERSION,
    })
}

/// The addresses where programs call: other machines may reach none of them.
fn read_callers<'a>(
    alloc: Global,
    list: &'a Option<String>,
) -> Result<Vec<Address<'a>>, HttpFault<'a>>
    ensures { GivesAddresses Loopback list.now result }
{
    match read_named(alloc, list, Reach::Loopback) {
        Ok(addresses) => Ok(addresses),
        Err(
            HttpFault::Address {
                word,
                fault: AddressFault::Foreign,
            },
        ) => Err(HttpFault::CallsAnywhere { word }),
        Err(fault) => Err(fault),
    }
}

/// The pages that gateways are told: none where operators have addresses of their own.
fn pages_beside(admin: &Option<String>) -> Pages
    ensures { result ≡ pages_beside admin.now }
{
    match admin {
        Some(_) => Pages::Nothing,
        None => Pages::Public,
    }
}

/// The addresses of a list that may be left out.
fn read_named<'a>(
    alloc: Global,
    list: &'a Option<String>,
    reach: Reach,
) -> Result<Vec<Address<'a>>, HttpFault<'a>>
    ensures { GivesAddresses reach list.now result }
{
    let Some(list) = list else {
        return Ok(Vec::new(alloc));
    };
    match read_addresses(alloc, list.as_str().as_bytes(), reach) {
        Ok(addresses) => Ok(addresses),
        Err(ListFault::Word { word, fault }) => Err(HttpFault::Address { word, fault }),
        Err(ListFault::NoMemory) => Err(HttpFault::NoMemory),
    }
}

/// The status that grants, where it is named so, or left out.
fn read_granted(status: &Option<String>) -> Option<Granted>
    ensures { result ≡ granted_of status.now }
{
    match status {
        None => Some(Granted::Ok),
        Some(status) => match status.as_str() {
            "200" => Some(Granted::Ok),
            "204" => Some(Granted::NoContent),
            _ => None,
        },
    }
}

/// The sources of facts that a list names, which may be left out.
fn read_sources<'a>(
    alloc: Global,
    strict: bool,
    list: &Option<String>,
) -> Result<Sources, HttpFault<'a>>
    ensures { GivesSources strict list.now result }
{
    let words = list_words(alloc, list)?;
    if !are_sources(&words) {
        return Err(HttpFault::Source);
    }
    Ok(Sources {
        header: has_word(&words, HEADER),
        query: has_word(&words, QUERY),
        forwarded: has_word(&words, FORWARDED),
        strict,
    })
}

/// The calls that a list allows; where it is left out, those that need no key.
fn read_calls<'a>(alloc: Global, list: &Option<String>) -> Result<Calls, HttpFault<'a>>
    ensures { GivesCalls list.now result }
{
    match list {
        Some(list) => read_listed_calls(alloc, list),
        None => Ok(Calls {
            mint: false,
            attenuate: true,
            inspect: true,
            check: true,
        }),
    }
}

/// The calls that a list allows.
fn read_listed_calls<'a>(alloc: Global, list: &String) -> Result<Calls, HttpFault<'a>>
    ensures { GivesCalls (Some list.now) result }
{
    let words = listed_words(alloc, list)?;
    if !are_calls(&words) {
        return Err(HttpFault::Call);
    }
    Ok(Calls {
        mint: has_word(&words, MINT),
        attenuate: has_word(&words, ATTENUATE),
        inspect: has_word(&words, INSPECT),
        check: has_word(&words, CHECK),
    })
}

/// The words of a list that may be left out.
fn list_words(alloc: Global, list: &Option<String>) -> Result<Vec<&[u8]>, AllocError>
    ensures { IfOk result (λ words. map (λ word. word.now) words.items ≡ words_of list.now) }
{
    match list {
        Some(list) => listed_words(alloc, list),
        None => Ok(Vec::new(alloc)),
    }
}

/// The words of a list.
pub(crate) fn listed_words(alloc: Global, list: &String) -> Result<Vec<&[u8]>, AllocError>
    ensures { IfOk result (λ words.
        map (λ word. word.now) words.items ≡ words_of (Some list.now)) }
{
    split_words(alloc, list.as_str().as_bytes())
}

/// What stands between the commas of a list.
fn split_words(alloc: Global, list: &[u8]) -> Result<Vec<&[u8]>, AllocError>
    ensures { IfOk result (λ words.
        map (λ word. word.now) words.items ≡ slice_split is_comma list.now) }
{
    let mut words = Vec::new(alloc);
    for word in list.split(|byte| *byte == b',') {
        words.push(word)?;
    }
    Ok(words)
}

/// Whether each word names a source of facts.
fn are_sources(words: &[&[u8]]) -> bool
    ensures { result ≡ list_all (λ word. is_source word.now) words.now }
{
    words.iter().all(|word| is_source(word))
}

fn is_source(word: &[u8]) -> bool
    ensures { result ≡ is_source word.now }
{
    word == HEADER || word == QUERY || word == FORWARDED
}

/// Whether each word names a call.
fn are_calls(words: &[&[u8]]) -> bool
    ensures { result ≡ list_all (λ word. is_call word.now) words.now }
{
    words.iter().all(|word| is_call(word))
}

fn is_call(word: &[u8]) -> bool
    ensures { result ≡ is_call word.now }
{
    word == MINT || word == ATTENUATE || word == INSPECT || word == CHECK
}

/// Whether a word is among these.
pub(crate) fn has_word(words: &[&[u8]], sought: &[u8]) -> bool
    ensures { result ≡ list_any (λ word. bytes_eq word.now sought.now) words.now }
{
    words.iter().any(|word| *word == sought)
}
