//! What the path of a request names.

ghost use Rattle.std.specs.Prelude.{◌≡◌, ◌<◌, ◌≤◌, length, position, IfSome};
ghost use Rattle.std.specs.Option.{option_map};
ghost use Rattle.mac_http.specs.Target.{is_slash, segment_length, target_in};

/// What stands before the name of a key in a path.
const VERIFY: &[u8] = b"/verify/";

/// A path that asks for a verify.
#[derive(Clone, Copy)]
pub(crate) struct Target<'a> {
    /// The name of the key.
    pub(crate) name: &'a [u8],
    /// What stands behind the name: nothing, or a path.
    pub(crate) behind: &'a [u8],
}

/// What the path names, if it asks for a verify.
pub(crate) fn target_in(path: &[u8]) -> Option<Target<'_>>
    ensures { option_map (λ t. (t.name.now, t.behind.now)) result ≡ target_in path.now }
{
    let rest = path.strip_prefix(VERIFY)?;
    let (name, behind) = rest.split_at(segment_length(rest));
    Some(Target { name, behind })
}

/// How many bytes stand before the first slash.
pub(crate) fn segment_length(text: &[u8]) -> usize
    ensures value { result ≡ segment_length text.now }
    ensures within { result ≤ length text.now }
{
    match first_slash(text) {
        Some(end) => end,
        None => text.len(),
    }
}

fn first_slash(text: &[u8]) -> Option<usize>
    ensures place { result ≡ position is_slash text.now }
    ensures within { IfSome result (λ end. end < length text.now) }
{
    text.iter().position(|byte| *byte == b'/')
}
