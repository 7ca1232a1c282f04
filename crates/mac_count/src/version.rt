//! The line that tells the version.

ghost use Rattle.std.specs.Prelude.{◌≡◌, ◌++◌, OnOk};
ghost use Rattle.mac_count.specs.Texts.{version_line};

use crate::NoMemory;

/// Appends the line that tells the version, for people and for scripts.
pub fn append_version(version: &str, out: &mut Vec<u8>) -> Result<(), NoMemory>
    ensures { OnOk result (out.new.items ≡ out.old.items ++ version_line version.now) }
{
    out.extend_from_slice(b"version ")?;
    out.extend_from_slice(version.as_bytes())?;
    out.extend_from_slice(b"\n")
}
