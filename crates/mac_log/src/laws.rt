//! Laws of the definitions, as functions whose contracts state them.
ghost use Rattle.std.specs.Prelude.{◌≡◌, ℕ, ◌+◌, ◌≤◌, ◌<◌, ◌^◌, List, ◌++◌, codes, false, length, take, true, count_by, ◌==◌};
ghost use Rattle.std.specs.List.{All};
ghost use Rattle.hex.specs.Hex.{IsBytes};
ghost use Rattle.mac_log.specs.declared.quota.Quota.{Quota};
ghost use Rattle.mac_log.specs.declared.quota.TheConstants.{LINES_MAX, SECOND};
ghost use Rattle.mac_log.specs.declared.key.Key.{Key};
ghost use Rattle.mac_log.specs.declared.kind.Kind.{Kind};
ghost use Rattle.mac_log.specs.Fields.{Field, fitting, told_fields, whole_text, with_front};
ghost use Rattle.mac_log.specs.Line.{kind_text};
ghost use Rattle.mac_log.specs.Printed.{IsPrinted};
ghost use Rattle.mac_log.specs.Value.{escaped};
ghost use Rattle.mac_log.specs.Quota.{after, printed_count, told_count};

/// Whatever its values are, a line has printable ASCII alone behind its time, and so no line feed
/// but its last byte.
pub fn line_is_one_line()
    ensures fields { (fields : List Field) → All (λ field. IsBytes field.1) fields →
        All IsPrinted (told_fields fields).text }
    ensures front { (fields : List Field) (key : Key) (most : ℕ) (value : List ℕ) →
        All (λ field. IsBytes field.1) fields → IsBytes value →
        All IsPrinted (with_front (told_fields fields) key most value).text }
    ensures words { (kind : Kind) → All IsPrinted (kind_text kind) }
{}

/// Whatever their values are, fields of which none was cut have as many equals signs as there are
/// of them, and others no more than that: no value passes for a key.
pub fn no_value_passes_for_a_key()
    ensures whole { (fields : List Field) → All (λ field. IsBytes field.1) fields →
        (told_fields fields).is_cut ≡ false →
        count_by (λ byte. byte == 61) (told_fields fields).text ≡ length fields }
    ensures cut { (fields : List Field) → All (λ field. IsBytes field.1) fields →
        count_by (λ byte. byte == 61) (told_fields fields).text ≤ length fields }
    ensures front { (fields : List Field) (key : Key) (most : ℕ) (value : List ℕ) →
        All (λ field. IsBytes field.1) fields → IsBytes value →
        count_by (λ byte. byte == 61) (with_front (told_fields fields) key most value).text
        ≤ length fields + 1 }
{}

/// Fields that were cut end in the mark that says so, and others are told as they are; so does one
/// of which a front is told, where it was cut.
pub fn what_is_cut_is_marked()
    ensures cut { (fields : List Field) → (told_fields fields).is_cut ≡ true →
        (front : List ℕ) × ((told_fields fields).text ≡ front ++ codes " ...") }
    ensures whole { (fields : List Field) → (told_fields fields).is_cut ≡ false →
        (told_fields fields).text ≡ whole_text fields }
    ensures front { (fields : List Field) (key : Key) (most : ℕ) (value : List ℕ) →
        (with_front (told_fields fields) key most value).is_cut ≡ true → (front : List ℕ)
        × ((with_front (told_fields fields) key most value).text ≡ front ++ codes " ...") }
{}

/// Of a value that is cut no byte is left out that fits.
pub fn no_byte_is_left_out_that_fits()
    ensures fits { (room : ℕ) → (value : List ℕ) → 0 < room →
        length (escaped (take (fitting room value) value)) < room }
    ensures next { (room : ℕ) → (value : List ℕ) → fitting room value < length value →
        room ≤ length (escaped (take (fitting room value + 1) value)) }
{}

/// In a second at most ten lines of a kind are printed.
pub fn at_most_ten_a_second()
    ensures { (quota : Quota) → (moments : List ℕ) → quota.printed ≤ LINES_MAX →
        All (λ now. now < quota.start + SECOND) moments →
        quota.printed + printed_count quota moments ≤ LINES_MAX }
{}

/// By its quota each line of a kind is printed or counted, and each that is counted is told once.
pub fn no_line_is_lost()
    ensures { (quota : Quota) → (moments : List ℕ) →
        quota.left_out + length moments < 2 ^ 64 →
        printed_count quota moments + told_count quota moments + (after quota moments).left_out
        ≡ quota.left_out + length moments }
{}
