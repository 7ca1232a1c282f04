//! A connection on its way from one thread to another.

ghost use Rattle.std.specs.Prelude.{◌≡◌, IfOk, OnErr};
ghost use Rattle.mac_plain.specs.Lives.{Rests};
ghost use Rattle.mac_loop.specs.Register.{IsCalled, who};

use crate::port::SocketPort;
use crate::register::{Origin, Presence, Register};
use crate::transcript::Transcript;
use mac_decide::Rights;
use mac_host::{Badge, Life, Socket};
use mac_sockets::Fresh;
use mac_wire::Session;
use std::alloc::Global;
use std::io;
use std::sync::Arc;

/// A connection between two requests, which whoever takes it answers from now on.
#[derive(Drop)]
pub struct Handover<O: Origin> {
    /// Its socket.
    pub port: SocketPort,
    /// How it stands.
    pub session: Session,
    /// What its requests may do.
    pub rights: Arc<Rights, Global>,
    /// The place of the key table that its last requests may have been answered under, among those
    /// that were published. Whoever takes it answers under that one, or one behind it.
    pub place: u64,
    /// When it last made progress, on the clock of [`microseconds`](mac_host::microseconds).
    pub since: u64,
    /// What it is known by.
    pub badge: Badge,
    /// The socket of which a client is to give way to it, where one is. It isn't counted before.
    pub displaces: Option<Socket>,
    /// That it is there.
    pub presence: Presence<O>,
    /// All that came on its socket is answered under its rights, but for what is carried; and what
    /// it was answered went there, but for what is unsent.
    pub ghost rests: { ∥ Rests rights.value port.came port.went session ∥₁ },
    /// It was admitted as what it is known by, and under its rights.
    pub ghost called: { IsCalled (who presence) badge rights.value },
}

impl<O: Origin> Handover<O> {
    ghost use Rattle.mac_loop.specs.Register.{HasAdmitted, HasSeenOff};

    /// A connection that was accepted just now, so that nothing has come on its stream; it is
    /// admitted. There is no other way to begin one: no session begins anew on a socket that was
    /// read.
    pub fn begin(
        alloc: Global,
        stream: Fresh,
        transcript: Option<Transcript>,
        rights: Arc<Rights, Global>,
        badge: Badge,
        register: &mut Register<O>,
    ) -> io::Result<Handover<O>>
        ensures rights { IfOk result (λ client. client.rights ≡ rights) }
        ensures badge { IfOk result (λ client. client.badge ≡ badge) }
        ensures admitted { IfOk result (λ client.
            HasAdmitted register.old (who client.presence) register.new) }
        ensures same { OnErr result (register.new ≡ register.old) }
    {
        let port = SocketPort::new(stream, transcript)?;
        let presence = register.admit(badge, &rights);
        Ok(Handover {
            port,
            session: Session::new(alloc),
            rights,
            place: 0,
            since: badge.accepted,
            badge,
            displaces: None,
            presence,
        })
    }

    /// It goes, and nobody answers it.
    pub fn leave(self, register: &mut Register<O>)
        ensures { HasSeenOff register.old (who self.presence) register.new }
    {
        let Handover {
            port: _,
            session: _,
            rights: _,
            place: _,
            since: _,
            badge: _,
            displaces: _,
            presence,
        } = self;
        register.see_off(presence);
    }

    /// What it has come to.
    pub fn life(&self) -> Life
        ensures { result.badge ≡ self.now.badge }
    {
        Life {
            badge: self.badge,
            answered: self.session.answered,
        }
    }
}
