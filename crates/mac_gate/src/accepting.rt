//! The thread that accepts the connections of a server.

ghost use Rattle.std.specs.Prelude.{◌≡◌, IfSome};
ghost use Rattle.mac_sockets.specs.Entrance.{doors_of};

use crate::shared::Shared;
use mac_host::REFUSED_MILLIS;
use mac_sockets::{Arrived, Entrance, STACK};
use std::alloc::Global;
use std::snapshot::Snapshot;
use std::sync::{Arc, Wait};
use std::thread;
use std::thread::{Builder, Promise, PromisedHandle, Threads};
use std::time::{Clock, Duration};

/// Where the connections of a server come in, from its begin to its end.
#[derive(Drop)]
pub struct Admitting {
    pub entrance: Snapshot<Entrance<()>>,
}

impl Promise<Snapshot<Entrance<()>>> for Admitting {
    ghost kept_by = { λ p end. doors_of end.value ≡ doors_of p.entrance.value };
}

/// The thread that accepts connections.
pub type Accepting = PromisedHandle<Snapshot<Entrance<()>>, Admitting>;

/// Starts the thread that accepts connections, and closes the server behind the last one, if there
/// is such a thread.
pub fn start_accepting<R>(
    rt: R,
    entrance: Entrance<()>,
    server: Arc<Shared, Global>,
) -> Option<Accepting>
where
    R: Threads + Wait + Clock + Sync + Copy + Send + 'static,
    ensures { IfSome result (λ accepting. accepting.promise.entrance.value ≡ entrance) }
{
    let admitting = Admitting {
        entrance: Snapshot::of(&entrance),
    };
    let work = move || -> Snapshot<Entrance<()>>
        ensures { doors_of result.value ≡ doors_of entrance }
    {
        let mut entrance = entrance;
        accept_each(&rt, &mut entrance, &server);
        server.close(&rt);
        Snapshot::of(&entrance)
    };
    Builder::new()
        .stack_size(STACK)
        .spawn_with(&rt, admitting, work)
        .ok()
}

/// Accepts connections until the entrance is shut, and hands each to a loop. One for which there is
/// no memory is closed. Where the system gives none that is logged, and it is asked again after a
/// pause.
fn accept_each<R: Wait + Clock>(rt: &R, entrance: &mut Entrance<()>, server: &Shared)
    ensures { doors_of entrance.new ≡ doors_of entrance.old }
{
    for _ in rt.forever() {
        match entrance.accept(rt) {
            Some(Ok(arrived)) => {
                let Arrived { stream, door: _ } = arrived;
                server.enter(rt, stream);
            }
            Some(Err(fault)) => {
                server.tell_refused(rt, fault);
                thread::sleep(rt, Duration::from_millis(REFUSED_MILLIS));
            }
            None => return,
        }
    }
}
