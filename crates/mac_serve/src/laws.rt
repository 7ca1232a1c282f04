//! What follows from the definitions alone.

ghost use Rattle.std.specs.Prelude.{◌≡◌, ◌+◌, [], ◌∷◌, ◌++◌, Bool, List, map};
ghost use Rattle.mac_board.specs.Noticed.{Noticed};
ghost use Rattle.mac_keys.specs.KeyTable.{Table};
ghost use Rattle.mac_decide.specs.Answer.{answer_of};
ghost use Rattle.mac_decide.specs.Terms.{Terms};
ghost use Rattle.mac_decide.specs.World.{job_under};
ghost use Rattle.mac_decide.specs.declared.rights.Rights.{Rights};
ghost use Rattle.mac_serve.specs.Receiving.{Readings, TakesUnder, terms_of, jobs_of};
ghost use Rattle.mac_serve.specs.Serving.{answers, under_table};
ghost use Rattle.mac_serve.specs.Joining.{ServingJoins};

use mac_order::{OPEN_SLIPS_MAX, RING_SLIPS_MAX};
use mac_queue::MAIL_MAX;

/// A connection has 128 places without their reply at most, in its ring and open: as many as its
/// mailbox holds posts, so that no worker waits for room there.
pub fn a_mailbox_has_room_for_each_place()
    ensures { RING_SLIPS_MAX + OPEN_SLIPS_MAX ≡ MAIL_MAX }
{}

/// A connection that was answered elsewhere, as in a loop, and is then served: what was written by
/// both, one after the other, is a beginning of the framed replies to all that was read.
pub fn serving_joins_what_came_before()
    ensures { ServingJoins }
{}

/// The moments at which the requests of a connection are answered are those that its clock told
/// meanwhile, one for each of them, in their order, and no others.
pub fn each_moment_was_told()
    ensures { (rights : Rights) (tells : Bool) (known last : Noticed) (terms : List Terms)
        → TakesUnder rights tells known last terms
        → last.told ≡ known.told ++ map (λ (t : Terms). t.moment) terms }
{}

/// Where one table alone is published, the jobs of all readings are made under it and the rights of
/// the connection, each at its own moment, and so are the replies.
pub fn one_table_answers_all()
    ensures jobs { (rights : Rights) (tells : Bool) (known last : Noticed) (table : Table)
        (readings : Readings) → last.tables.published ≡ table ∷ []
        → TakesUnder rights tells known last (terms_of readings)
        → jobs_of readings
        ≡ map (λ r. job_under (under_table table rights r.0) r.1) readings }
    ensures replies { (rights : Rights) (tells : Bool) (known last : Noticed) (table : Table)
        (readings : Readings) → last.tables.published ≡ table ∷ []
        → TakesUnder rights tells known last (terms_of readings)
        → answers readings
        ≡ map (λ r. answer_of (under_table table rights r.0) r.1) readings }
{}
