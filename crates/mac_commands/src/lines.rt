//! The lines of an input: slices of it, one after the other.
ghost use Rattle.std.specs.Prelude.{◌≡◌, ◌≢◌, ◌+◌, ◌<◌, ◌==◌, List, ℕ, [], ◌∷◌, ◌++◌, length, take, drop, All, false, MatchOption, IfSome};
ghost use Rattle.mac_commands.specs.Lines.{lines, key_text, request_lines};

/// The place of the first line feed.
fn find_line_feed(text: &[u8]) -> Option<usize>
    ensures feed { MatchOption result (All (λ byte. (byte == 10) ≡ false) text.now) (λ i.
        All (λ byte. (byte == 10) ≡ false) (take i text.now)
        × (text.now ≡ take i text.now ++ 10 ∷ drop (i + 1) text.now)) }
    ensures within { IfSome result (λ i. i < length text.now) }
{
    text.iter().position(|byte| *byte == b'\n')
}

/// The first line, and what stands behind it. The empty text has none.
pub(crate) fn next_line(text: &[u8]) -> Option<(&[u8], &[u8])>
    ensures line { MatchOption result (lines text.now ≡ [])
        (λ r. lines text.now ≡ r.0.now ∷ lines r.1.now) }
    ensures shorter { IfSome result (λ r. length r.1.now < length text.now) }
{
    match find_line_feed(text) {
        Some(end) => Some((&text[..end], &text[end + 1..])),
        None if text.is_empty() => None,
        None => Some((text, &text[text.len()..])),
    }
}

/// The text without the line feed at its end, if it has one.
fn without_line_feed(text: &[u8]) -> &[u8]
    ensures ended { (front : List ℕ) → text.now ≡ front ++ 10 ∷ [] → result.now ≡ front }
    ensures plain { ((front : List ℕ) → text.now ≢ front ++ 10 ∷ []) → result.now ≡ text.now }
{
    match text {
        [front @ .., b'\n'] => front,
        _ => text,
    }
}

/// The text of the key lines, and that of the request lines: an empty line divides them.
pub(crate) fn divide(input: &[u8]) -> (&[u8], &[u8])
    ensures keys { result.0.now ≡ key_text input.now }
    ensures requests { lines result.1.now ≡ request_lines input.now }
{
    let mut start = 0;
    while let Some(end) = find_line_feed(&input[start..]) {
        if end == 0 {
            return (without_line_feed(&input[..start]), &input[start + 1..]);
        }
        start += end + 1;
    }
    (without_line_feed(input), &input[input.len()..])
}
