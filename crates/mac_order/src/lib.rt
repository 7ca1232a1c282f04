//! The core: replies leave in the order of arrivals, each for its own job, whatever order workers
//! finish in. It is generic in the service that works the replies out, and knows nothing of what is
//! asked. A ring carries a connection's jobs from its intake to its outlet, each end in a thread of
//! its own: no call waits, and what the outlet releases are the replies to what the intake
//! admitted.
#![tactic(auto)]

mod answer;
mod event;
mod fault;
mod intake;
pub mod laws;
mod next;
mod numbered;
mod outlet;
mod reorder;
mod ring;
mod service;
mod totals;

pub use answer::Answer;
pub use event::{Assignment, Event, Outcome};
pub use fault::{AdmitFault, OpenFault, SettleFault};
pub use intake::Intake;
pub use next::Next;
pub use outlet::{OPEN_SLIPS_MAX, Outlet};
pub use reorder::{Reorder, SLOTS};
pub use ring::{RING_SLIPS_MAX, make_ring};
pub use service::{NoMemory, Service};
pub use totals::{Totals, meet};
