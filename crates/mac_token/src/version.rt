//! The two forms of bytes that are no text, and how caveats lie in them.

ghost use Rattle.std.specs.Prelude.{◌≡◌, option_map};
ghost use Rattle.mac_token.specs.CaveatsIn.{section_in, end_in};

use crate::section::Section;
use crate::{v1, v2};

/// The version of a form.
#[derive(Clone, Copy)]
pub(crate) enum Version {
    /// Packets.
    V1,
    /// Sections, behind the version byte.
    V2,
}

impl Version {
    /// The fields of the caveat that comes next, where one does, and the bytes after it.
    pub(crate) fn section(self, bytes: &[u8]) -> Option<(Section<'_>, &[u8])>
        ensures { option_map (λ x. (x.0, x.1.now)) result ≡ section_in self bytes.now }
    {
        match self {
            Version::V1 => v1::next_section(bytes),
            Version::V2 => v2::section(bytes),
        }
    }

    /// The bytes after the last caveat.
    pub(crate) fn end(self, bytes: &[u8]) -> Option<&[u8]>
        ensures { option_map (λ rest. rest.now) result ≡ end_in self bytes.now }
    {
        match self {
            Version::V1 => v1::after_caveats(bytes),
            Version::V2 => v2::end(bytes),
        }
    }
}
