//! The decision: which caveats are satisfied, which tokens a name's keys grant, and the answer to
//! each arrival.
//!
//! [`job_of`] takes an arrival with what the [`Terms`] that it came under say of it, and [`answer`]
//! gives its reply. [`answer_request`] gives that to a request that no arrival carries.
#![tactic(auto)]

mod asking;
mod choosing;
mod context;
mod doubts;
mod drafting;
mod folding;
mod job;
mod job_view;
mod keyed;
mod lacks;
pub mod laws;
mod looking;
mod macaroons;
mod one_by_one;
mod part;
mod prepared;
mod preparing;
mod remembering;
mod reply;
mod revocation;
mod rights;
mod rooms;
mod seen;
mod side_by_side;
mod signer;
mod time;
mod uses;
mod verdict;
mod verdict_view;
mod verifying;

pub use asking::Asking;
pub use context::{Context, satisfied};
pub use doubts::{Doubt, begins_as_bound, find_doubt};
pub use job::{Basis, Job, job_of};
pub use job_view::{ArrivalView, JobView, job_view_of};
pub use lacks::{Lack, find_lack, nearest_fact, shared};
pub use macaroons::Macaroons;
pub use one_by_one::{answer_one, answer_request};
pub use remembering::{count_answer, recall, remember_answer};
pub use reply::{answer, refusal_of};
pub use revocation::Revocation;
pub use rights::{Names, Rights, Terms};
pub use rooms::{RUN, Rooms};
pub use seen::{SEEN_MAX, SeenTokens};
pub use side_by_side::{answer_all, answer_run, answer_views};
pub use time::{time_limit, time_since};
pub use uses::{KeyUse, NameCounts, Signer, USES};
pub use verdict::Verdict;
