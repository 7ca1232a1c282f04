//! A connection that is to be served, and what is told of it.

ghost use Rattle.std.specs.Prelude.{◌≡◌, None, Some};
ghost use Rattle.mac_serve.specs.Serving.{fault_of, served_of};
ghost use Rattle.mac_serve.specs.Caller.{devices, HasDesk, IsAttendedThere, served_with};

use crate::connection::{Served, serve};
use crate::fault::ServeFault;
use mac_board::Outlook;
use mac_decide::{Macaroons, Rights};
use mac_pool::Desk;
use mac_wire::{Ending, Session, Sink, Source};
use std::alloc::Global;
use std::sync::Wait;
use std::thread::Threads;

/// A connection that is to be served, and then what is told of it.
#[derive(Drop)]
pub struct Caller<In, Out, K> {
    /// What it reads from.
    pub source: In,
    /// What it writes to.
    pub sink: Out,
    /// What its key tables and its moments come from.
    pub outlook: K,
    /// What its requests may do.
    pub rights: Rights,
    /// What is told of it, once it was served.
    pub told: Option<ServeReport>,
    pub(crate) desk: Option<Desk<Macaroons>>,
}

/// What is told of a connection that was served.
#[derive(Drop)]
pub struct ServeReport {
    /// Why it ended early, if it did.
    pub fault: Option<ServeFault>,
    /// How many requests were admitted.
    pub arrived: u64,
    /// How many of their replies went out whole.
    pub sent: u64,
    /// How many bytes of these were written.
    pub written: u64,
    /// How the stream ended.
    pub ending: Ending,
    /// What the connection can go on with, where its source failed.
    pub session: Option<Session>,
}

impl<In: Source, Out: Sink, K: Outlook> Caller<In, Out, K> {
    /// A connection on which nothing has come.
    pub fn new(source: In, sink: Out, outlook: K, rights: Rights) -> Caller<In, Out, K>
        ensures source { result.source ≡ source }
        ensures sink { result.sink ≡ sink }
        ensures outlook { result.outlook ≡ outlook }
        ensures rights { result.rights ≡ rights }
        ensures told { result.told ≡ None }
    {
        Caller {
            source,
            sink,
            outlook,
            rights,
            told: None,
            desk: None,
        }
    }

    /// Leaves the desk.
    pub(crate) fn rise(&mut self) -> Desk<Macaroons>
        requires { HasDesk self.old }
        ensures was { self.old.desk ≡ Some result }
        ensures left { self.new ≡ record self.old { desk = None } }
    {
        match self.desk.take() {
            Some(desk) => desk,
            None => unreachable!(),
        }
    }

    /// Serves the connection at the desk that it has.
    pub(crate) fn attend<R: Threads + Wait + Sync>(&mut self, rt: &R, alloc: Global)
        requires { HasDesk self.old }
        ensures { IsAttendedThere
            (devices In.tells In.taken Out.tells Out.written K.tells K.known)
            self.old self.new }
    {
        let Some(desk) = self.desk.take() else {
            unreachable!()
        };
        let (told, desk) = told_of(serve(
            rt,
            alloc,
            &mut self.source,
            &mut self.sink,
            &mut self.outlook,
            &self.rights,
            desk,
            Session::new(alloc),
        ));
        self.told = Some(told);
        self.desk = Some(desk);
    }
}

/// What is told of a connection, and its desk.
fn told_of(came: Result<Served, (ServeFault, Served)>) -> (ServeReport, Desk<Macaroons>)
    ensures fault { result.0.fault ≡ fault_of came }
    ensures served { served_with result.0 result.1 ≡ served_of came }
{
    let (fault, served) = match came {
        Ok(served) => (None, served),
        Err((fault, served)) => (Some(fault), served),
    };
    let Served {
        arrived,
        sent,
        written,
        ending,
        desk,
        session,
    } = served;
    let told = ServeReport {
        fault,
        arrived,
        sent,
        written,
        ending,
        session,
    };
    (told, desk)
}
