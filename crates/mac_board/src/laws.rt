//! What follows from the definitions alone. Each law is the contract of a function that does
//! nothing.

ghost use Rattle.std.specs.Prelude.{◌≡◌, ◌≤◌, ℕ, [], ◌∷◌, ◌++◌, Bool, List, All};
ghost use Rattle.mac_keys.specs.KeyTable.{Table};
ghost use Rattle.mac_keys.specs.Revoked.{Revoked};
ghost use Rattle.mac_board.specs.Follows.{AreInOrder, Begins, Known, StandIn, Takes};
ghost use Rattle.mac_board.specs.Listing.{AreIdleLists, AreOfList, GoesList, IsListNews};
ghost use Rattle.mac_board.specs.Listing.{ListHasRested, SeesList};
ghost use Rattle.mac_board.specs.Watcher.{AreIdle, AreOf, Goes, HasRested, IsNews, NeverRests, Sees};
ghost use Rattle.mac_board.specs.declared.listing.ListFinding.{ListFinding};
ghost use Rattle.mac_board.specs.declared.listing.ListUp.{ListUp};
ghost use Rattle.mac_board.specs.declared.sight.FileState.{FileState};
ghost use Rattle.mac_board.specs.declared.sight.Sight.{Sight};
ghost use Rattle.mac_board.specs.declared.watcher.KeyFileFinding.{KeyFileFinding};
ghost use Rattle.mac_board.specs.declared.watcher.Watcher.{Watcher};

/// Tables that were taken, each by a look of its own, were published, and none before an earlier
/// one.
pub fn taken_tables_are_in_order()
    ensures { (tells : Bool) (before after : Known) (tables : List Table)
        → Takes tells before after tables → AreInOrder tells before after tables }
{}

/// Tables that one follower took, and then another that had come as far as the first, stand in
/// their order in the list of which both know a beginning.
pub fn order_goes_on_elsewhere()
    ensures { (tells : Bool) (published : List Table) (first last next end : Known)
        (tables more : List Table)
        → Takes tells first last tables → Takes tells next end more
        → Begins last.published published → Begins end.published published
        → last.place ≤ next.place → StandIn published first.place (tables ++ more) end.place }
{}

/// Where one table alone was published, each that is taken is that one.
pub fn one_table_is_always_taken()
    ensures { (tells : Bool) (before after : Known) (table : Table) (tables : List Table)
        → after.published ≡ table ∷ [] → Takes tells before after tables
        → All (λ taken. taken ≡ table) tables }
{}

/// A table that is taken is that of a text which was read while the file was in one state: before
/// it was read, after it, and at the look before.
pub fn what_is_taken_has_rested()
    ensures { (was : Watcher) (names : ℕ) (sight : Sight) (table : Table) (now : Watcher)
        → Sees was names sight (KeyFileFinding.Table table) now → HasRested was sight table }
{}

/// Nothing comes of a file that changes from look to look, or while it is looked at.
pub fn what_never_rests_is_left_alone()
    ensures { (was : Watcher) (looks : List (ℕ × Sight)) (found : List KeyFileFinding)
        (now : Watcher) → Goes was looks found now → NeverRests was.last looks → AreIdle found }
{}

/// Of a file that stays in one state one thing is told, or one table taken, and nothing after it.
pub fn each_state_is_told_once()
    ensures { (was : Watcher) (look : ℕ × Sight) (looks : List (ℕ × Sight)) (first : KeyFileFinding)
        (others : List KeyFileFinding) (now : Watcher) (state : FileState)
        → Goes was (look ∷ looks) (first ∷ others) now → AreOf state (look ∷ looks)
        → IsNews first → AreIdle others }
{}

/// A list that is taken is that of a text which was read while its file was in one state: before it
/// was read, after it, and at the look before. The text says something, or may say nothing.
pub fn taken_list_has_rested()
    ensures { (was : Watcher) (up : ListUp) (sight : Sight) (list : Revoked) (now : Watcher)
        → SeesList was up sight (ListFinding.List list) now → ListHasRested was up sight list }
{}

/// Of a list's file that stays in one state one thing is told, or one list taken, and nothing after
/// it.
pub fn each_state_of_a_list_is_told_once()
    ensures { (was : Watcher) (look : ListUp × Sight) (looks : List (ListUp × Sight))
        (first : ListFinding) (others : List ListFinding) (now : Watcher) (state : FileState)
        → GoesList was (look ∷ looks) (first ∷ others) now → AreOfList state (look ∷ looks)
        → IsListNews first → AreIdleLists others }
{}
