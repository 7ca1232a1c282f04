//! Where the key table and the moment come from for who answers requests.

ghost use Rattle.std.specs.Prelude.{◌≡◌, Bool, nat_le};
ghost use Rattle.mac_board.specs.Noticed.{IsCurrent, Noticed, Notices, Reaches, lent_current};

use crate::moments::Moments;
use crate::tables::Tables;
use mac_keys::KeyTable;

/// What requests are answered under that came before one look.
#[derive(Clone, Copy)]
pub struct Current<'a> {
    /// The key table that is up.
    pub table: &'a KeyTable,
    /// The moment, in seconds since 1970, if the clock told one.
    pub moment: Option<u64>,
}

/// A source of key tables and of moments.
pub trait Outlook: Send {
    /// Whether the places that looks at the tables come to are told, as
    /// [`Tables`](crate::Tables) says.
    ghost tells: { Bool };

    /// What is known of the tables and of the clock here.
    ghost known: { Self → Noticed };

    /// Takes the table that is up now, where a newer one is, and the moment of now.
    fn look(&mut self)
        ensures { Notices tells (known self.old) (known self.new) };

    /// Takes the table that is up now, where the one that it has stands before this place, and asks
    /// no clock. Whether the one that it has then stands there or behind it.
    fn reach(&mut self, place: u64) -> bool
        ensures reaches { Reaches (known self.old) (known self.new) }
        ensures reached { result ≡ nat_le place (known self.new).tables.place };

    /// The place of the table that it has among those that were published.
    fn place(&self) -> u64
        ensures { result ≡ (known self.now).tables.place };

    /// What the last look came to.
    fn current(&self) -> Current<'_>
        ensures { IsCurrent (known self.now) (lent_current result) };
}

/// Tables beside a clock. Each look asks both.
#[derive(Drop)]
pub struct TimedTables<K, M> {
    tables: K,
    clock: M,
    moment: Option<u64>,
}

impl<K, M> TimedTables<K, M> {
    /// These tables beside this clock, which is asked at the first look.
    pub fn new(tables: K, clock: M) -> TimedTables<K, M>
        ensures tables { result.tables ≡ tables }
        ensures clock { result.clock ≡ clock }
    {
        TimedTables {
            tables,
            clock,
            moment: None,
        }
    }
}

impl<K: Tables, M: Moments + Send> Outlook for TimedTables<K, M> {
    ghost tells = { K.tells };

    ghost known = { λ t. record {
      tables = K.known t.tables;
      told = M.told t.clock;
      moment = t.moment;
    } };

    fn look(&mut self) {
        self.tables.look();
        self.moment = self.clock.tell();
    }

    fn reach(&mut self, place: u64) -> bool {
        self.tables.reach(place)
    }

    fn place(&self) -> u64 {
        self.tables.place()
    }

    fn current(&self) -> Current<'_> {
        Current {
            table: self.tables.table(),
            moment: self.moment,
        }
    }
}
