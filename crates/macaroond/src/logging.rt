//! What is logged beside the usual.

ghost use Rattle.std.specs.Prelude.{◌≡◌, IfOk, map};
ghost use Rattle.std.specs.List.{list_all};
ghost use Rattle.macaroond.specs.Logging.{is_log_word, logged_by, logged_of};

use crate::http::{has_word, listed_words};
use mac_host::Logged;
use std::alloc::{AllocError, Global};

/// The words of what is logged.
const REQUESTS: &[u8] = b"requests";

const MINTS: &[u8] = b"mints";

const IDENTIFIERS: &[u8] = b"identifiers";

/// What the words ask for, if they are words for it. Nothing is logged where they are left out.
pub fn read_log(alloc: Global, words: &Option<String>) -> Result<Option<Logged>, AllocError>
    ensures { IfOk result (λ logged. logged ≡ logged_of words.now) }
{
    match words {
        None => Ok(Some(Logged::NOTHING)),
        Some(words) => {
            let words = listed_words(alloc, words)?;
            Ok(logged_by(&words))
        }
    }
}

/// What these words ask for.
fn logged_by(words: &[&[u8]]) -> Option<Logged>
    ensures { result ≡ logged_by (map (λ word. word.now) words.now) }
{
    if !are_log_words(words) {
        return None;
    }
    Some(Logged {
        requests: has_word(words, REQUESTS),
        mints: has_word(words, MINTS),
        identifiers: has_word(words, IDENTIFIERS),
    })
}

/// Whether each of them says what is logged.
fn are_log_words(words: &[&[u8]]) -> bool
    ensures { result ≡ list_all (λ word. is_log_word word.now) words.now }
{
    words.iter().all(|word| is_log_word(word))
}

fn is_log_word(word: &[u8]) -> bool
    ensures { result ≡ is_log_word word.now }
{
    word == REQUESTS || word == MINTS || word == IDENTIFIERS
}
