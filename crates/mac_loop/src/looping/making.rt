//! How loops are made. Each step has little that it lets go of where it fails, since that is what
//! its proof costs.

ghost use Rattle.std.specs.Prelude.{◌≡◌, ◌<◌, IfOk, OnOk, length};
ghost use Rattle.mac_loop.specs.Made.{AreInOrder, count_sides};
ghost use Rattle.mac_loop.specs.Register.{IsBegun, StandsForMore, parts as parts_of};

use crate::backlog::Backlog;
use crate::handover::Handover;
use crate::inbox::Loops;
use crate::looping::{Loop, LoopParts, PARTS_MAX};
use crate::meter::Shares;
use crate::register::{Origin, Register};
use crate::roll::{Roll, Wakers};
use mac_plain::Round;
use mac_sockets::{BudgetAccount, Inbox, SharedBudget, WaitFault};
use mio::Waker;
use std::alloc::{AllocError, Global};
use std::net::Net;
use std::sync::{Arc, Wait};

/// The loops that are made of these parts. Each has its part of the register.
pub fn make_loops<O: Origin, R: Net + Wait>(
    rt: &R,
    alloc: Global,
    parts: &LoopParts,
    register: &mut Register<O>,
) -> Result<(Arc<Loops<O>, Global>, Vec<Box<Loop<O>>>), WaitFault>
    requires { parts.now.terms.count < parts_of register.old }
    ensures count { IfOk result (λ made. length made.1.items ≡ parts.now.terms.count) }
    ensures sides { IfOk result (λ made. count_sides made.0.value ≡ parts.now.terms.count) }
    ensures numbers { IfOk result (λ made. AreInOrder 0 made.1.items) }
    ensures left { OnOk result (StandsForMore register.new parts.now.terms.count register.old) }
{
    let terms = parts.terms;
    let mut loops = Loops::new(alloc, terms.may_share, terms.memory);
    let mut made = Vec::with_capacity(alloc, terms.count)?;
    for number in 0..terms.count {
        let part = register.part()?;
        let (one, inbox) = make_loop(rt, alloc, number, parts, part)?;
        made.push(one)?;
        loops.push(inbox)?;
    }
    Ok((Arc::new(alloc, loops)?, made))
}

/// The loop of a number, and where it gets clients from.
fn make_loop<O: Origin, R: Net + Wait>(
    rt: &R,
    alloc: Global,
    number: usize,
    parts: &LoopParts,
    register: Register<O>,
) -> Result<(Box<Loop<O>>, Inbox<Handover<O>>), WaitFault>
    requires { IsBegun register }
    ensures { IfOk result (λ made. made.0.value.number ≡ number) }
{
    let LoopParts {
        terms,
        seen,
        budget,
    } = parts;
    let round = Round::new(alloc, seen.share()?)?;
    let shares = Shares::new(alloc, terms.count)?;
    let (roll, wakers) = Roll::new(rt, alloc, PARTS_MAX, register)?;
    let Ends {
        account,
        asks,
        inbox,
    } = open_ends(rt, alloc, budget, wakers)?;
    let one = Loop {
        number,
        alloc,
        waker: Some(asks),
        workers: terms.workers,
        account,
        roll,
        round,
        parts: PARTS_MAX,
        shares,
        unsent_max: 0,
        told: Backlog::none(),
        looks: 0,
        late: 0,
        idle: terms.idle,
        is_draining: false,
        is_owing: false,
        swept: 0,
        now: 0,
    };
    let one = Box::new(alloc, one)?;
    Ok((one, inbox))
}

/// What a loop is reached by: by what others give back to the budget, by workers that have an
/// answer, and by who hands it a client.
#[derive(Drop)]
struct Ends<O: Origin> {
    account: BudgetAccount,
    asks: Waker,
    inbox: Inbox<Handover<O>>,
}

/// What a loop is reached by, whose waits end so.
fn open_ends<O: Origin, R: Wait>(
    rt: &R,
    alloc: Global,
    budget: &Arc<SharedBudget, Global>,
    wakers: Wakers,
) -> Result<Ends<O>, AllocError> {
    let Wakers {
        inbox,
        asks,
        budget: waker,
    } = wakers;
    let account = BudgetAccount::open(rt, budget, waker)?;
    let inbox = Inbox::new(alloc, inbox)?;
    Ok(Ends {
        account,
        asks,
        inbox,
    })
}
