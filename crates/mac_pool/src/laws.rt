//! What the limits of a pool are made of.

ghost use Rattle.std.specs.Prelude.{◌≡◌, ◌+◌, ◌*◌};

use crate::pool::{DESKS_MAX, WORKERS_MAX};
use crate::work::TURN_MAX;
use mac_queue::{MAIL_MAX, PASSES, QUEUE_MAX};

/// A pool has up to 16 workers and 64 desks. Its queue has a pass for each of them, and room for as
/// many tickets as the mailboxes of all desks hold posts.
pub fn each_has_a_pass_and_each_post_a_ticket()
    ensures workers { WORKERS_MAX ≡ 16 }
    ensures desks { DESKS_MAX ≡ 64 }
    ensures passes { PASSES ≡ WORKERS_MAX + DESKS_MAX }
    ensures tickets { QUEUE_MAX ≡ DESKS_MAX * MAIL_MAX }
{}

/// A worker takes up to 32 tickets at a time.
pub fn a_turn_has_32_tickets()
    ensures { TURN_MAX ≡ 32 }
{}
