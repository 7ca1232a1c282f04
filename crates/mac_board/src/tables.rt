//! Where key tables come from for who answers requests.

ghost use Rattle.std.specs.Prelude.{◌≡◌, ◌∷◌, [], Bool, false, nat_le};
ghost use Rattle.mac_board.specs.Follows.{Advances, Known, IsUp, Looks};

use mac_keys::KeyTable;

/// A source of key tables. It has one of those that were published.
pub trait Tables: Send {
    /// Whether the places that looks come to are told. It claims nothing of a source that doesn't
    /// tell them.
    ghost tells: { Bool };

    /// What is known of the tables here.
    ghost known: { Self → Known };

    /// Takes the table that is up now, where a newer one is.
    fn look(&mut self)
        ensures { Looks tells (known self.old) (known self.new) };

    /// Takes the table that is up now, where the one that it has stands before this place. Whether
    /// the one that it has then stands there or behind it.
    fn reach(&mut self, place: u64) -> bool
        ensures advances { Advances (known self.old) (known self.new) }
        ensures reached { result ≡ nat_le place (known self.new).place };

    /// The place of the table that it has among those that were published.
    fn place(&self) -> u64
        ensures { result ≡ (known self.now).place };

    /// The table that it has.
    fn table(&self) -> &KeyTable
        ensures { IsUp (known self.now) result.now };
}

/// One table, which stays.
#[derive(Drop)]
pub struct FixedTables<'a>(pub &'a KeyTable);

impl<'a> Tables for FixedTables<'a> {
    ghost tells = { false };

    ghost known = { λ t. record { published = t.0.now ∷ []; place = 0; looks = [] } };

    fn look(&mut self) {}

    fn reach(&mut self, place: u64) -> bool {
        place == 0
    }

    fn place(&self) -> u64 {
        0
    }

    fn table(&self) -> &KeyTable {
        self.0
    }
}
