//! What shows that a post went into a mailbox, or could not.

ghost use Rattle.std.specs.Prelude.{◌≡◌};

use crate::closing::{Closed, Open};
use crate::mailbox::MailPass;
use mac_order::Service;
use std::marker::Model;

/// Shows that a post went into a mailbox that was found open: the pass by which it did. Contracts
/// see the mailbox, by its names, and what went in.
#[derive(Drop)]
pub struct Receipt<S: Service> {
    pub(crate) pass: MailPass<S>,
    pub(crate) found: Open,
}

impl<S: Service> Model for Receipt<S> {
    ghost use Rattle.std.specs.Prelude.{ℕ, List, Option};
    ghost use Rattle.std.specs.Coded.{coded×, coded_list, coded_option, coded_ℕ};
    ghost use Rattle.crossbeam_queue.specs.Passes.{view as what};
    ghost use Rattle.mac_queue.specs.Mail.{Mail, mail_code};

    ghost Value = { Mail × List (ℕ × Option S.Job) };

    ghost coded = { coded× mail_code
        (coded_list (coded× coded_ℕ (coded_option S.Job.code))) };

    ghost view = { λ r.
        (record { posts = r.pass.table_id; closing = r.found }, (what r.pass).posted) };
}

/// What became of a post.
#[derive(Drop)]
pub enum Delivery<S: Service> {
    /// It went in.
    Posted(Receipt<S>),
    /// The mailbox was found closed, and the post was dropped.
    Closed(Closed),
}
