//! Bounds of time, read from the front of their text.

ghost use Rattle.std.specs.Prelude.{◌≡◌, ℕ, ◌+◌, ◌*◌, ◌<◌, ℤ, pos, ◌+ℤ◌, ◌*ℤ◌, ◌≤ℤ◌, ◌↔◌, List, [], ◌∷◌, ◌++◌, MatchOption, codes};
ghost use Rattle.jiff.specs.Types.{Date as PlainDate};
ghost use Rattle.jiff.specs.Words.{epoch_day, IsDate, IsYmd};
ghost use Rattle.mac_decide.specs.Time.{two_digits, four_digits, date_text, clock_text, IsEnding, IsTimeText, IsBound, IsTimeLimit, IsLowerBound};

use jiff::civil::Date;

/// The second at which the caveat ceases to hold, from 1970-01-01T00:00:00Z, where it is a time
/// limit: `time < YYYY-MM-DDTHH:MM`, then `:SS` or nothing, then `Z` or nothing, in UTC. It is
/// negative before 1970.
pub fn time_limit(caveat: &[u8]) -> Option<i64>
    ensures { (v : ℤ) → (result ≡ Some v) ↔ IsTimeLimit caveat.now v }
{
    bound_second(b"time < ", caveat)
}

/// The second from which on the caveat holds, from 1970-01-01T00:00:00Z, where it is a lower bound:
/// `time >= ` and a time as a time limit has it. It is negative before 1970.
pub fn time_since(caveat: &[u8]) -> Option<i64>
    ensures { (v : ℤ) → (result ≡ Some v) ↔ IsLowerBound caveat.now v }
{
    bound_second(b"time >= ", caveat)
}

/// The second of the time behind the front of a text.
fn bound_second(front: &[u8], text: &[u8]) -> Option<i64>
    ensures { (v : ℤ) → (result ≡ Some v) ↔ IsBound front.now text.now v }
{
    let time = text.strip_prefix(front)?;
    time_second(time)
}

/// The second of a time, from 1970-01-01T00:00:00Z.
fn time_second(text: &[u8]) -> Option<i64>
    ensures { (v : ℤ) → (result ≡ Some v) ↔ IsTimeText text.now v }
{
    let (day, text) = day_number(text)?;
    let (minute_start, text) = minute_start(text)?;
    let second = second(text)?;
    Some(seconds_since_epoch(day, minute_start, second))
}

/// The second of a day, from 1970-01-01T00:00:00Z.
fn seconds_since_epoch(day: i32, minute_start: u32, second: u8) -> i64
    ensures { result ≡ (pos 86_400 *ℤ day) +ℤ pos (minute_start + second) }
{
    86_400 * i64::from(day) + i64::from(minute_start) + i64::from(second)
}

/// The value of the four ASCII digits at the front, and what follows them.
fn year(text: &[u8]) -> Option<(u16, &[u8])>
    ensures { MatchOption result
        ((n : ℕ) → (rest : List ℕ) → n < 10_000 → ¬ (text.now ≡ four_digits n ++ rest))
        (λ p. (p.0 < 10_000) × (text.now ≡ four_digits p.0 ++ p.1.now)) }
{
    match text {
        [
            thousands @ b'0'..=b'9',
            hundreds @ b'0'..=b'9',
            tens @ b'0'..=b'9',
            ones @ b'0'..=b'9',
            rest @ ..,
        ] => {
            let century = 10 * u16::from(thousands - b'0') + u16::from(hundreds - b'0');
            let year = 10 * u16::from(tens - b'0') + u16::from(ones - b'0');
            Some((100 * century + year, rest))
        }
        _ => None,
    }
}

/// The value of the two ASCII digits behind the mark at the front, and what follows them.
fn marked(mark: u8, text: &[u8]) -> Option<(u8, &[u8])>
    ensures { MatchOption result
        ((n : ℕ) → (rest : List ℕ) → n < 100 → ¬ (text.now ≡ mark ∷ two_digits n ++ rest))
        (λ p. (p.0 < 100) × (text.now ≡ mark ∷ two_digits p.0 ++ p.1.now)) }
{
    match text {
        [first, tens @ b'0'..=b'9', ones @ b'0'..=b'9', rest @ ..] if *first == mark => {
            Some((10 * (tens - b'0') + (ones - b'0'), rest))
        }
        _ => None,
    }
}

/// The day number of the date at the front, and what follows it.
fn day_number(text: &[u8]) -> Option<(i32, &[u8])>
    ensures { MatchOption result
        ((d : PlainDate) → (rest : List ℕ) → pos 0 ≤ℤ d.year → ¬ (text.now ≡ date_text d ++ rest))
        (λ p. (d : PlainDate) × (pos 0 ≤ℤ d.year) × (p.0 ≡ epoch_day d)
        × (text.now ≡ date_text d ++ p.1.now)) }
{
    let (year, text) = year(text)?;
    let (month, text) = marked(b'-', text)?;
    let (day, text) = marked(b'-', text)?;
    Some((calendar_day(year, month, day)?, text))
}

/// The day number of a year, month and day, where the calendar has that day.
fn calendar_day(year: u16, month: u8, day: u8) -> Option<i32>
    requires year { year < 10_000 }
    requires month { month < 100 }
    requires day { day < 100 }
    ensures { MatchOption result
        (¬ (IsDate (pos year) (pos month) (pos day)))
        (λ n. (d : PlainDate) × IsYmd (pos year) (pos month) (pos day) d × (n ≡ epoch_day d)) }
{
    match Date::new(year as i16, month as i8, day as i8) {
        Ok(date) => Some(date.to_plain().to_unix_epoch_day()),
        Err(_) => None,
    }
}

/// The seconds from midnight to the time of day at the front, to the minute, and what follows it.
fn minute_start(text: &[u8]) -> Option<(u32, &[u8])>
    ensures { MatchOption result
        ((h : ℕ) → (m : ℕ) → (rest : List ℕ) → h < 24 → m < 60
        → ¬ (text.now ≡ codes "T" ++ clock_text h m ++ rest))
        (λ p. (h : ℕ) × (m : ℕ) × (h < 24) × (m < 60) × (p.0 ≡ 3_600 * h + 60 * m)
        × (text.now ≡ codes "T" ++ clock_text h m ++ p.1.now)) }
{
    let (hour, text) = marked(b'T', text)?;
    let (minute, text) = marked(b':', text)?;
    if hour < 24 && minute < 60 {
        Some((3_600 * u32::from(hour) + 60 * u32::from(minute), text))
    } else {
        None
    }
}

/// The second that ends a time of day, 0 where none is written; the mark of UTC is optional.
fn second(text: &[u8]) -> Option<u8>
    ensures { MatchOption result
        ((n : ℕ) → n < 60 → ¬ (IsEnding n text.now))
        (λ n. (n < 60) × IsEnding n text.now) }
{
    match text {
        [] | [b'Z'] => Some(0),
        [b':', tens @ b'0'..=b'5', ones @ b'0'..=b'9'] => {
            Some(10 * (tens - b'0') + (ones - b'0'))
        }
        [b':', tens @ b'0'..=b'5', ones @ b'0'..=b'9', b'Z'] => {
            Some(10 * (tens - b'0') + (ones - b'0'))
        }
        _ => None,
    }
}
