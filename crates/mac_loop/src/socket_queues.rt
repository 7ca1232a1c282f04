//! What waits at a daemon's two sockets, and is taken in turn.

ghost use Rattle.std.specs.Prelude.{◌≡◌, ◌↔◌, [], IfNone, IfSome, IsTrue, OnOk};
ghost use Rattle.std.specs.Fn.{CalledAt};
ghost use Rattle.std.specs.List.Retain.{IsFiltered};
ghost use Rattle.mac_loop.specs.SocketQueues.{AreEmpty, HasRoom, IsPut, IsPutBack};
ghost use Rattle.mac_loop.specs.SocketQueues.{IsTakenInTurn, other_of, waiting};

use mac_host::Socket;
use std::alloc::{AllocError, Global};
use std::collections::VecDeque;

/// A queue for each socket, from which is taken in turn: one that waits at a socket has at most one
/// of the other socket in front of it beside those that came to its own before.
#[derive(Drop)]
pub(crate) struct SocketQueues<T> {
    main: VecDeque<T>,
    side: VecDeque<T>,
    // The socket that comes next.
    next: Socket,
}

impl<T: Drop> SocketQueues<T> {
    /// Nobody waits.
    pub(crate) fn new(alloc: Global) -> SocketQueues<T>
        ensures { AreEmpty result }
    {
        SocketQueues {
            main: VecDeque::new(alloc),
            side: VecDeque::new(alloc),
            next: Socket::Main,
        }
    }

    /// How many wait at both.
    pub(crate) fn len(&self) -> usize {
        self.main.len().saturating_add(self.side.len())
    }

    /// Puts one behind those that wait at its socket.
    pub(crate) fn push(&mut self, socket: Socket, one: T) -> Result<(), AllocError>
        ensures { OnOk result (IsPut self.old socket one self.new) }
    {
        match socket {
            Socket::Main => self.main.push_back(one)?,
            Socket::Side => self.side.push_back(one)?,
        }
        Ok(())
    }

    /// Puts one back that was taken from a socket, so that it comes first there, and this socket
    /// comes next.
    pub(crate) fn put_back(&mut self, socket: Socket, one: T)
        requires { HasRoom self.old socket }
        ensures { IsPutBack self.old socket one self.new }
    {
        match socket {
            Socket::Main => self.main.push_front_reserved(one),
            Socket::Side => self.side.push_front_reserved(one),
        }
        self.next = socket;
    }

    /// Takes the first one of the socket that comes next, or of the other one where nobody waits
    /// there.
    pub(crate) fn pop(&mut self) -> Option<(Socket, T)>
        ensures none { IfNone result (AreEmpty self.old) }
        ensures one { IfSome result (λ one. IsTakenInTurn self.old one.0 one.1 self.new) }
        ensures room { IfSome result (λ one. HasRoom self.new one.0) }
    {
        let socket = if self.is_free(self.next) {
            other_of(self.next)
        } else {
            self.next
        };
        let one = match socket {
            Socket::Main => self.main.pop_front()?,
            Socket::Side => self.side.pop_front()?,
        };
        self.next = other_of(socket);
        Some((socket, one))
    }

    /// Keeps those of a socket alone that are to be kept, in their order.
    pub(crate) fn retain<F: FnMut(&T) -> bool>(&mut self, socket: Socket, keeps: F)
        requires { F.IsAlwaysCallable keeps }
        ensures kept { IsFiltered (CalledAt F.FnMut) keeps
            (waiting self.old socket) (waiting self.new socket) }
        ensures there { waiting self.new (other_of socket) ≡ waiting self.old (other_of socket) }
        ensures next { self.new.next ≡ self.old.next }
    {
        match socket {
            Socket::Main => self.main.retain(keeps),
            Socket::Side => self.side.retain(keeps),
        }
    }

    /// Whether nobody waits at a socket.
    fn is_free(&self, socket: Socket) -> bool
        ensures { IsTrue result ↔ (waiting self.now socket ≡ []) }
    {
        match socket {
            Socket::Main => self.main.is_empty(),
            Socket::Side => self.side.is_empty(),
        }
    }
}

/// The other socket.
fn other_of(socket: Socket) -> Socket
    ensures { result ≡ other_of socket }
{
    match socket {
        Socket::Main => Socket::Side,
        Socket::Side => Socket::Main,
    }
}
