//! Who answers the connections of a loop.

ghost use Rattle.std.specs.Prelude.{All};
ghost use Rattle.mac_gate.specs.Answered.{AreAnswered, known_to};
ghost use Rattle.mac_gate.specs.Lives.{IsTurnBy};
ghost use Rattle.mac_page.specs.Told.{Responds};

use crate::daemon::OwnDaemon;
use crate::devices::Spoken;
use crate::draws::SystemDraws;
use crate::offer::{AddressTerms, Offer};
use crate::shared::Shared;
use http_server::{Connection, Log};
use mac_board::Follower;
use mac_http::{Face, Way, take_turn};
use mac_page::{PageFace, Site};
use mac_system::SystemMoments;
use std::alloc::Global;
use std::io;
use std::io::ErrorKind;
use std::random::RandomSource;
use std::sync::Wait;
use std::time::Clock;

/// What a loop answers its connections with.
#[derive(Drop)]
pub struct Answering<'a, R> {
    pub rt: &'a R,
    pub alloc: Global,
    pub server: &'a Shared,
    /// Follows the key tables, where a daemon answers.
    pub keys: Option<Follower>,
    /// Since when what is answered next has been there, in microseconds.
    pub since: u64,
}

impl<'a, R: Wait + Clock + RandomSource> Answering<'a, R> {
    /// Takes a turn of a connection, whose peer comes by this way, by what its address offers: what
    /// was heard is answered, and as much as may be is written. What follows the tables goes on.
    pub fn take_turn(
        &mut self,
        offer: &Offer,
        way: Way,
        connection: &mut Connection,
        heard: &mut &[u8],
        spoken: &mut Spoken<'_>,
    ) -> io::Result<usize>
        ensures { IsTurnBy
            (AreAnswered offer.now way (known_to self.old.keys) (known_to self.new.keys))
            heard.old.now heard.new.now
            spoken.old.went.bytes spoken.new.went.bytes connection.old connection.new }
    {
        match offer {
            Offer::Daemon(own) => self.take_face_turn(own, way, connection, heard, spoken),
            Offer::Site(site) => self.take_page_turn(site, connection, heard, spoken),
        }
    }

    /// The same by a daemon's face. Without tables to follow it can't answer.
    fn take_face_turn(
        &mut self,
        own: &AddressTerms,
        way: Way,
        connection: &mut Connection,
        heard: &mut &[u8],
        spoken: &mut Spoken<'_>,
    ) -> io::Result<usize>
        ensures { IsTurnBy (AreAnswered (Offer.Daemon own.now) way
            (known_to self.old.keys) (known_to self.new.keys)) heard.old.now heard.new.now
            spoken.old.went.bytes spoken.new.went.bytes connection.old connection.new }
    {
        let Some(keys) = self.keys.take() else {
            return Err(ErrorKind::Unsupported.into());
        };
        let daemon = OwnDaemon {
            rt: self.rt,
            alloc: self.alloc,
            server: self.server,
            version: own.terms.version,
            since: self.since,
            noted: Log::new(),
        };
        let rules = own.terms.rules(&own.rights, way);
        let moments = SystemMoments::new(self.rt);
        let mut face = Face::new(self.alloc, keys, rules, moments, daemon);
        let written = take_turn(connection, &mut face, heard, spoken);
        self.keys = Some(face.into_keys());
        written
    }

    /// The same by the face of a site.
    fn take_page_turn(
        &self,
        site: &Site,
        connection: &mut Connection,
        heard: &mut &[u8],
        spoken: &mut Spoken<'_>,
    ) -> io::Result<usize>
        ensures { IsTurnBy (All (λ call. Responds site.now call.0 call.1))
            heard.old.now heard.new.now
            spoken.old.went.bytes spoken.new.went.bytes connection.old connection.new }
    {
        let mut face = PageFace::new(self.alloc, site, SystemDraws(self.rt));
        take_turn(connection, &mut face, heard, spoken)
    }
}
