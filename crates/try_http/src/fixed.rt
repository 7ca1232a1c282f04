//! A clock that stands still, and a daemon that stays as it is.

use http_server::Log;
use mac_board::Moments;
use mac_calls::Draws;
use mac_decide::SeenTokens;
use mac_http::{Monitor, Noted, Page, PageTold};
use mac_keys::KeyTable;
use std::alloc::AllocError;

/// The moment of each request: 2023-11-14T22:13:20Z.
pub const MOMENT: u64 = 1_700_000_000;

/// What is drawn for each mint.
const DRAWN: [u8; 16] = *b"0123456789abcdef";

/// A clock that stands still.
#[derive(Drop)]
pub struct FixedMoment {
    log: Log<Option<u64>, ()>,
}

impl FixedMoment {
    pub fn new() -> FixedMoment {
        FixedMoment { log: Log::new() }
    }
}

impl Moments for FixedMoment {
    ghost use Rattle.std.specs.Prelude.{map};

    ghost told = { λ moments. map (λ entry. entry.0) moments.log.items };

    fn tell(&mut self) -> Option<u64> {
        let moment = Some(MOMENT);
        self.log = self.log.and(&moment, &());
        moment
    }
}

/// A daemon that stays as it is.
#[derive(Drop)]
pub struct FixedMonitor {
    /// Whether its connections are to end.
    pub is_ending: bool,
    /// Whether it is well.
    pub is_well: bool,
    /// Whether it has random bytes.
    pub has_random: bool,
    /// Its memory of tokens.
    pub seen: SeenTokens,
    /// An entry for each request that was noted.
    pub noted: Log<(), ()>,
}

impl Draws for FixedMonitor {
    fn draw(&self) -> Option<[u8; 16]> {
        if self.has_random { Some(DRAWN) } else { None }
    }
}

impl Monitor for FixedMonitor {
    ghost use Rattle.std.specs.Prelude.{length};

    // What the rows of its pages compare is the text itself.
    ghost says = { λ monitor page keys text told. Unit {0} };

    ghost noted = { λ monitor. length monitor.noted.items };

    fn is_ending(&self) -> bool {
        self.is_ending
    }

    fn seen(&self) -> &SeenTokens {
        &self.seen
    }

    fn tell(
        &self,
        page: Page,
        _keys: Option<&KeyTable>,
        text: &mut Vec<u8>,
    ) -> Result<PageTold, AllocError> {
        match page {
            Page::Numbers | Page::Status | Page::Connections | Page::Uses => {
                text.extend_from_slice(b"told\n")?;
                Ok(PageTold::Well)
            }
            Page::Health if self.is_well => {
                text.extend_from_slice(b"ok\n")?;
                Ok(PageTold::Well)
            }
            Page::Health => {
                text.extend_from_slice(b"why\n")?;
                Ok(PageTold::Unwell)
            }
        }
    }

    fn note(&mut self, _noted: &Noted<'_>) {
        self.noted = self.noted.and(&(), &());
    }
}
