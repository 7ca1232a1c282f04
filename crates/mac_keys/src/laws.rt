//! Laws of the definitions, as functions whose contracts state them.
ghost use Rattle.std.specs.Prelude.{◌≡◌, ◌≢◌, ◌≤◌, ◌↔◌, List, ℕ, take, Some, Ok, Err, true};
ghost use Rattle.std.specs.List.{Any, Contains};
ghost use Rattle.std.specs.FinMap as map;
ghost use Rattle.mac_keys.specs.declared.key_map.TheConstants.{NAMES_MAX};
ghost use Rattle.mac_keys.specs.declared.fault.KeyFault.TheVariants.{Line, Memory};
ghost use Rattle.mac_keys.specs.declared.fault.LineFault.{LineFault};
ghost use Rattle.mac_keys.specs.declared.fault.LineFault.TheVariants.{BadName, BadHex, EmptySecret};
ghost use Rattle.mac_keys.specs.declared.fault.LineFault.TheVariants.{Twice, TooMany, BadLine};
ghost use Rattle.mac_keys.specs.declared.line.TheConstants.{NAME_MAX};
ghost use Rattle.mac_keys.specs.Line.{Given, line_of};
ghost use Rattle.mac_keys.specs.Table.{NamedKeys, lines_of, keys_given, keys_of, table_of};
ghost use Rattle.mac_keys.specs.Meaning.{Spells, GivesKey, keys_at, AreFaultless, IsFirstFault};
ghost use Rattle.mac_keys.specs.Meaning.{fault_in_place};
ghost use Rattle.mac_keys.specs.Meaning.{IsBadLine, HasBadName, HasEmptySecret, HasBadHex};
ghost use Rattle.mac_keys.specs.Meaning.{IsTwice, IsTooMany};
ghost use Rattle.mac_keys.specs.Revoked.{IsFirstBad, Revoked, Says, is_listed, revoked_of};
ghost use Rattle.mac_keys.specs.declared.revoked_fault.RevokedFault.TheVariants.{Line as RevokedLine};
ghost use Rattle.mac_keys.specs.declared.revoked_fault.RevokedLineFault.{RevokedLineFault};

/// A line gives a name a secret exactly where it is `key `, the name, a space and digits that spell
/// the secret.
pub fn line_gives_what_it_spells()
    ensures { (line : List ℕ) (given : Given)
        → (line_of line ≡ Ok (Some given)) ↔ Spells line given }
{}

/// A table has, at each name, the root keys of the secrets that lines give the name, in the order
/// of the lines, and nothing else: a key is among them exactly where some line gives the name a
/// secret of which it is the root key.
pub fn table_has_the_keys_of_its_lines()
    ensures all { (text : List ℕ) (table : NamedKeys) → table_of text ≡ Ok table → (name : List ℕ) →
        keys_at table name ≡ keys_given name (lines_of text) }
    ensures each { (text : List ℕ) (table : NamedKeys) → table_of text ≡ Ok table →
        (name key : List ℕ) →
        Contains (keys_at table name) key ↔ Any (GivesKey name key) (lines_of text) }
{}

/// A text makes a table exactly where none of its lines has a fault, and then that of its lines.
pub fn table_is_made_of_faultless_lines()
    ensures { (text : List ℕ) (table : NamedKeys) →
        (table_of text ≡ Ok table)
        ↔ (AreFaultless (lines_of text) × (table ≡ keys_of (lines_of text))) }
{}

/// The fault that is told is that of the first line that has one, with its number counted from 1;
/// and where a line is the first with a fault, it is told.
pub fn first_fault_is_told()
    ensures { (text : List ℕ) (number : ℕ) (fault : LineFault) →
        (table_of text ≡ Err (Line number fault)) ↔ IsFirstFault (lines_of text) number fault }
{}

/// What each fault of a line says, in plain words. BadLine: the line is neither empty nor a
/// comment, and not `key `, some bytes, a space and whatever follows. BadName: what stands before
/// that space is no name. EmptySecret: nothing stands behind it. BadHex: what stands there spells
/// no bytes. Twice: two lines above give the name that this one gives a secret one already.
/// TooMany: no line above gives the name a secret, and they give 1,000 names theirs.
pub fn faults_in_plain_words()
    ensures bad_line { (lines : List (List ℕ)) (place : ℕ) (line : List ℕ) →
        (fault_in_place lines place line ≡ Some BadLine) ↔ IsBadLine line }
    ensures bad_name { (lines : List (List ℕ)) (place : ℕ) (line : List ℕ) →
        (fault_in_place lines place line ≡ Some BadName) ↔ HasBadName line }
    ensures empty_secret { (lines : List (List ℕ)) (place : ℕ) (line : List ℕ) →
        (fault_in_place lines place line ≡ Some EmptySecret) ↔ HasEmptySecret line }
    ensures bad_hex { (lines : List (List ℕ)) (place : ℕ) (line : List ℕ) →
        (fault_in_place lines place line ≡ Some BadHex) ↔ HasBadHex line }
    ensures twice { (lines : List (List ℕ)) (place : ℕ) (line : List ℕ) →
        (fault_in_place lines place line ≡ Some Twice) ↔ IsTwice (take place lines) line }
    ensures too_many { (lines : List (List ℕ)) (place : ℕ) (line : List ℕ) →
        (fault_in_place lines place line ≡ Some TooMany) ↔ IsTooMany (take place lines) line }
{}

/// Lack of memory is no text's fault.
pub fn no_text_lacks_memory()
    ensures { (text : List ℕ) → table_of text ≢ Err Memory }
{}

/// A table has at most `NAMES_MAX` names.
pub fn table_has_at_most_names_max()
    ensures { (text : List ℕ) (table : NamedKeys) →
        table_of text ≡ Ok table → map.len table ≤ NAMES_MAX }
{}

/// A name has at most 64 bytes, and a table at most 1,000 names.
pub fn limits_are_these()
    ensures name { NAME_MAX ≡ 64 }
    ensures names { NAMES_MAX ≡ 1000 }
{}

/// What is taken back is what some line says: a name's tokens with an identifier are exactly where
/// a line is of that name and spells that identifier, whatever stands above and below it.
pub fn list_has_what_its_lines_say()
    ensures { (text : List ℕ) (list : Revoked) → revoked_of text ≡ Ok list
        → (name identifier : List ℕ) → (is_listed list name identifier ≡ true)
        ↔ Any (Says name identifier) (lines_of text) }
{}

/// Of a list's text, too, the fault that is told is that of the first line that has one.
pub fn first_fault_of_a_list_is_told()
    ensures { (text : List ℕ) (number : ℕ) (kind : RevokedLineFault) →
        (revoked_of text ≡ Err (RevokedLine number kind)) ↔ IsFirstBad (lines_of text) number kind }
{}
