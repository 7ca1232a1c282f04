//! What a face over HTTP tells of its daemon, and tells it.

ghost use Rattle.std.specs.Prelude.{◌≡◌, ◌++◌, IfOk, OnOk, option_copied};
ghost use Rattle.mac_gate.specs.Health.{health_of, health_text};
ghost use Rattle.mac_gate.specs.Pages.{Adds, Tells, TellsConnections, TellsHealth, TellsNumbers};
ghost use Rattle.mac_gate.specs.Pages.{TellsStatus, TellsUses};

use crate::draws::SystemDraws;
use crate::key_uses::append_uses;
use crate::noting::{exchange_of, request_of};
use crate::numbers::{Shown, append_numbers, append_status_page};
use crate::shared::Shared;
use http_server::Log;
use mac_calls::Draws;
use mac_count::Number;
use mac_decide::SeenTokens;
use mac_host::{Host, microseconds};
use mac_http::{Monitor, Noted, Page, PageTold};
use mac_keys::KeyTable;
use std::alloc::{AllocError, Global};
use std::random::RandomSource;
use std::sync::Wait;
use std::time::Clock;

/// The daemon of a server, as its faces see it.
#[derive(Drop)]
pub struct OwnDaemon<'a, R> {
    pub rt: &'a R,
    pub alloc: Global,
    pub server: &'a Shared,
    /// The version of the program.
    pub version: &'static str,
    /// Since when what is answered now has been there, in microseconds.
    pub since: u64,
    /// An entry for each request that was noted.
    pub noted: Log<(), ()>,
}

impl<'a, R: Wait + Clock> OwnDaemon<'a, R> {
    fn host(&self) -> &Host {
        self.server.host()
    }

    /// Tells how the daemon is.
    fn tell_health(&self, text: &mut Vec<u8>) -> Result<PageTold, AllocError>
        ensures { IfOk result (Adds TellsHealth text.old.items text.new.items) }
    {
        let refused = self.host().numbers().snapshot().number(Number::KeysRefused);
        append_health(self.server.is_ending(), refused > 0, text)
    }

    /// Tells what it has counted, as Prometheus reads it.
    fn tell_numbers(&self, text: &mut Vec<u8>) -> Result<PageTold, AllocError>
        ensures { IfOk result (Adds (TellsNumbers self.now.version.now)
            text.old.items text.new.items) }
    {
        let numbers = self.host().numbers().snapshot();
        append_numbers(self.alloc, self.version, &numbers, text)?;
        Ok(PageTold::Well)
    }

    /// Tells what it has counted, a line for each number, and these keys.
    fn tell_status(
        &self,
        keys: Option<&KeyTable>,
        text: &mut Vec<u8>,
    ) -> Result<PageTold, AllocError>
        ensures { IfOk result (Adds (TellsStatus self.now.version.now (option_copied keys.entry))
            text.old.items text.new.items) }
    {
        let numbers = self.host().numbers().snapshot();
        let uses = self.host().seen().uses(self.rt, self.alloc)?;
        let shown = Shown {
            numbers: &numbers,
            uses: uses.as_slice(),
        };
        append_status_page(self.alloc, self.version, &shown, keys, text)?;
        Ok(PageTold::Well)
    }

    /// Tells how the keys of each name are used, as Prometheus reads it.
    fn tell_uses(&self, text: &mut Vec<u8>) -> Result<PageTold, AllocError>
        ensures { IfOk result (Adds TellsUses text.old.items text.new.items) }
    {
        let uses = self.host().seen().uses(self.rt, self.alloc)?;
        append_uses(self.alloc, uses.as_slice(), text)?;
        Ok(PageTold::Well)
    }

    /// Tells its connections, a line for each.
    fn tell_connections(&self, text: &mut Vec<u8>) -> Result<PageTold, AllocError>
        ensures { IfOk result (Adds TellsConnections text.old.items text.new.items) }
    {
        let mut lines = Vec::new(self.alloc);
        self.host()
            .roster()
            .append_lines(self.rt, self.alloc, &mut lines)?;
        text.extend_from_slice(&lines)?;
        Ok(PageTold::Well)
    }

    /// Counts a request, if it is counted.
    fn count(&self, noted: &Noted<'_>) {
        if let Some(request) = request_of(noted) {
            let micros = microseconds(self.rt).saturating_sub(self.since);
            self.host().numbers().count_request(request, micros);
        }
    }

    /// Logs a request, where any is logged.
    fn log(&self, noted: &Noted<'_>) {
        let notices = self.host().notices();
        let logged = notices.logged();
        if logged.is_some() {
            let exchange = exchange_of(self.alloc, logged.identifiers, noted);
            notices.tell_exchange(self.rt, None, exchange);
        }
    }
}

impl<'a, R: Wait + Clock + RandomSource> Draws for OwnDaemon<'a, R> {
    fn draw(&self) -> Option<[u8; 16]> {
        SystemDraws(self.rt).draw()
    }
}

impl<'a, R: Wait + Clock + RandomSource> Monitor for OwnDaemon<'a, R> {
    ghost use Rattle.std.specs.Prelude.{length};

    ghost says = { λ daemon page keys text told. Tells daemon.version.now page keys text told };

    ghost noted = { λ daemon. length daemon.noted.items };

    fn is_ending(&self) -> bool {
        self.server.is_ending()
    }

    fn seen(&self) -> &SeenTokens {
        self.server.host().seen()
    }

    fn tell(
        &self,
        page: Page,
        keys: Option<&KeyTable>,
        text: &mut Vec<u8>,
    ) -> Result<PageTold, AllocError> {
        match page {
            Page::Health => self.tell_health(text),
            Page::Numbers => self.tell_numbers(text),
            Page::Status => self.tell_status(keys, text),
            Page::Connections => self.tell_connections(text),
            Page::Uses => self.tell_uses(text),
        }
    }

    fn note(&mut self, noted: &Noted<'_>) {
        self.count(noted);
        self.log(noted);
        self.noted = self.noted.and(&(), &());
    }
}

/// Appends how a daemon is that was told to end or not, and whose last key file was refused or not.
fn append_health(
    is_ending: bool,
    are_keys_refused: bool,
    text: &mut Vec<u8>,
) -> Result<PageTold, AllocError>
    ensures told { IfOk result (λ told. told ≡ health_of is_ending are_keys_refused) }
    ensures text { OnOk result
        (text.new.items ≡ text.old.items ++ health_text is_ending are_keys_refused) }
{
    if is_ending {
        text.extend_from_slice(b"it was told to end\n")?;
        return Ok(PageTold::Unwell);
    }
    if are_keys_refused {
        text.extend_from_slice(b"the last key file was refused; the keys stay as they were\n")?;
        return Ok(PageTold::Unwell);
    }
    text.extend_from_slice(b"ok\n")?;
    Ok(PageTold::Well)
}
