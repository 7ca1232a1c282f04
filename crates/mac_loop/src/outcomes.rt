//! What became of the connections that a loop was given.

ghost use Rattle.std.specs.Prelude.{◌≡◌, ◌++◌, ◌∷◌, [], IfSome, length, map, option_to_list};
ghost use Rattle.mac_loop.specs.Badges.{IsSameBadge};
ghost use Rattle.mac_loop.specs.Gone.{HaveGone, count_gone};
ghost use Rattle.mac_loop.specs.Register.{IsBegun};

use crate::ended::Leaver;
use crate::handover::Handover;
use crate::register::{Origin, Register};
use crate::watch::Watch;
use mac_decide::Macaroons;
use mac_host::{Badge, Life};
use mac_queue::{Desk, History};
use std::sync::Wait;
use std::time::Clock;

/// The connections that a loop was given, and those that have gone. For contracts: they take no
/// room.
#[derive(Drop)]
pub struct Outcomes {
    /// What each was known by that the loop was given.
    pub given: History<Badge>,
    /// The same of those that it handed on to another loop.
    pub handed: History<Badge>,
    /// What each had come to whose end was told.
    pub ended: History<Life>,
    /// What those were known by that were turned away, since there was no room for them.
    pub refused: History<Badge>,
}

/// A loop that has ended: each connection that it was given was handed on, or its end was told, or
/// it was turned away.
#[derive(Drop)]
pub struct EndedLoop<O: Origin> {
    /// Its desk.
    pub desk: Desk<Macaroons>,
    /// What became of its connections.
    pub outcomes: Outcomes,
    /// Its part of the daemon's register.
    pub register: Register<O>,
    pub ghost settled: { length outcomes.given ≡ count_gone outcomes },
    pub ghost gone: { HaveGone outcomes.ended outcomes.refused register },
}

/// The connections that have gone from a loop for good.
#[derive(Drop)]
pub struct Leavers<O: Origin> {
    /// What each had come to whose end was told.
    pub ended: History<Life>,
    /// What those were known by that were turned away.
    pub refused: History<Badge>,
    /// The loop's part of the daemon's register.
    pub register: Register<O>,
    pub ghost gone: { HaveGone ended refused register },
}

impl<O: Origin> Leavers<O> {
    /// None has gone.
    pub fn none(register: Register<O>) -> Leavers<O>
        requires { IsBegun register }
        ensures ended { result.ended ≡ [] }
        ensures refused { result.refused ≡ [] }
    {
        Leavers {
            ended: History::new(),
            refused: History::new(),
            register,
        }
    }

    /// One has ended, which is told.
    pub fn end<R: Wait + Clock, W: Watch>(&mut self, rt: &R, watch: &W, leaver: Leaver<O>)
        ensures ended { self.new.ended ≡ self.old.ended ++ leaver.ended.life ∷ [] }
        ensures refused { self.new.refused ≡ self.old.refused }
    {
        let Leaver { ended, presence } = leaver;
        self.register.see_off(presence);
        watch.end(rt, ended, &mut self.ended);
    }

    /// Tells the end of the one that gave way, if one did, and counts the newcomer in. Its badge,
    /// where there was room for it.
    pub fn displace<R: Wait + Clock, W: Watch>(
        &mut self,
        rt: &R,
        watch: &W,
        gone: Option<Leaver<O>>,
        comes: Badge,
    ) -> Option<Badge>
        ensures ended { self.new.ended
            ≡ self.old.ended ++ map (λ leaver. leaver.ended.life) (option_to_list gone) }
        ensures refused { self.new.refused ≡ self.old.refused }
        ensures badge { IfSome result (λ badge. IsSameBadge comes badge) }
    {
        let gone = match gone {
            Some(Leaver { ended, presence }) => {
                self.register.see_off(presence);
                Some(ended)
            }
            None => None,
        };
        watch.displace(rt, gone, comes, &mut self.ended)
    }

    /// One is turned away.
    pub fn refuse(&mut self, client: Handover<O>)
        ensures ended { self.new.ended ≡ self.old.ended }
        ensures refused { self.new.refused ≡ self.old.refused ++ client.badge ∷ [] }
    {
        let badge = client.badge;
        client.leave(&mut self.register);
        self.refused.add(&badge);
    }
}
