//! What a path leads to.

ghost use Rattle.std.specs.Prelude.{◌≡◌};
ghost use Rattle.std.specs.Option.{option_map};
ghost use Rattle.mac_page.specs.Route.{all_calls, asked_in, file_in, verify_in};

use mac_calls::Call;
use mac_http::{Calls, PathCall, call_in};

/// The paths of the files.
const DOCUMENT: &[u8] = b"/";

const STYLE: &[u8] = b"/page.css";

const SCRIPT: &[u8] = b"/page.js";

/// What stands before the name of a key in the path of a verify.
const VERIFY: &[u8] = b"/verify/";

/// A file of the site.
#[derive(Clone, Copy, Debug, PartialEq, Eq)]
pub enum File {
    /// The document.
    Document,
    /// Its style.
    Style,
    /// What it does.
    Script,
}

/// The file that a path names.
pub(crate) fn file_in(path: &[u8]) -> Option<File>
    ensures { result ≡ file_in path.now }
{
    if path == DOCUMENT {
        Some(File::Document)
    } else if path == STYLE {
        Some(File::Style)
    } else if path == SCRIPT {
        Some(File::Script)
    } else {
        None
    }
}

/// Each call of the face is allowed.
fn all_calls() -> Calls
    ensures { result ≡ all_calls }
{
    Calls {
        mint: true,
        attenuate: true,
        inspect: true,
        check: true,
    }
}

/// The call that a path asks for.
pub(crate) fn asked_in(path: &[u8]) -> Option<PathCall<'_>>
    ensures { option_map (λ asked. (asked.call, asked.name.now)) result ≡ asked_in path.now }
{
    match call_in(all_calls(), path) {
        Some(asked) => Some(asked),
        None => verify_in(path),
    }
}

/// The verify that a path asks for.
fn verify_in(path: &[u8]) -> Option<PathCall<'_>>
    ensures { option_map (λ asked. (asked.call, asked.name.now)) result ≡ verify_in path.now }
{
    let name = path.strip_prefix(VERIFY)?;
    Some(PathCall {
        call: Call::Verify,
        name,
    })
}
