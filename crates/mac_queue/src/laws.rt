//! The limits of a queue and of a mailbox, as numbers.

ghost use Rattle.std.specs.Prelude.{◌≡◌, ◌^◌};

use crate::mailbox::MAIL_MAX;
use crate::queue::{PASSES, PUTS_MAX, QUEUE_MAX};

/// A mailbox holds 128 posts.
pub fn a_mailbox_has_128_posts()
    ensures { MAIL_MAX ≡ 128 }
{}

/// A queue holds 8,192 tickets; its 80 passes put up to 2^55 each.
pub fn a_queue_has_8192_tickets()
    ensures tickets { QUEUE_MAX ≡ 8192 }
    ensures passes { PASSES ≡ 80 }
    ensures puts { PUTS_MAX ≡ 2 ^ 55 }
{}
