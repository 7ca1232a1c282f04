//! Values, written so that none ends its line or passes for a key.

ghost use Rattle.std.specs.Prelude.{◌≡◌, ◌++◌, length, OnOk};
ghost use Rattle.std.specs.List.{list_all};
ghost use Rattle.mac_log.specs.Value.{escaped, escaped_byte, is_bare, is_bare_byte, is_shown, value_text};

use crate::NoMemory;

/// Appends a value: as it is where it has nothing but plain bytes, else between quotation marks.
pub fn append_value(value: &[u8], out: &mut Vec<u8>) -> Result<(), NoMemory>
    ensures { OnOk result (out.new.items ≡ out.old.items ++ value_text value.now) }
{
    if is_bare(value) {
        return out.extend_from_slice(value);
    }
    out.extend_from_slice(b"\"")?;
    append_escaped(value, out)?;
    out.extend_from_slice(b"\"")
}

/// Whether a value needs no quotation marks.
fn is_bare(value: &[u8]) -> bool
    ensures { result ≡ is_bare value.now }
{
    !value.is_empty() && has_bare_bytes(value)
}

/// Whether each byte may stand in a value without quotation marks.
fn has_bare_bytes(value: &[u8]) -> bool
    ensures { result ≡ list_all is_bare_byte value.now }
{
    value.iter().all(|byte| is_bare_byte(*byte))
}

/// Whether a byte may stand in a value without quotation marks.
fn is_bare_byte(byte: u8) -> bool
    ensures { result ≡ is_bare_byte byte }
{
    byte != b' ' && is_shown(byte)
}

/// Whether a byte is shown as it is.
fn is_shown(byte: u8) -> bool
    ensures { result ≡ is_shown byte }
{
    32 <= byte && byte <= 126 && byte != b'"' && byte != b'=' && byte != b'\\'
}

/// Appends bytes as they stand between quotation marks.
pub fn append_escaped(bytes: &[u8], out: &mut Vec<u8>) -> Result<(), NoMemory>
    ensures { OnOk result (out.new.items ≡ out.old.items ++ escaped bytes.now) }
{
    for byte in bytes {
        append_byte(*byte, out)?;
    }
    Ok(())
}

/// How many bytes a byte takes between quotation marks.
pub fn escaped_size(byte: u8) -> usize
    ensures { result ≡ length (escaped_byte byte) }
{
    if is_shown(byte) { 1 } else { 4 }
}

/// Appends a byte as it stands between quotation marks.
fn append_byte(byte: u8, out: &mut Vec<u8>) -> Result<(), NoMemory>
    ensures { OnOk result (out.new.items ≡ out.old.items ++ escaped_byte byte) }
{
    if is_shown(byte) {
        return out.extend_from_slice(&[byte]);
    }
    let mut digits = [0u8; 2];
    hex::encode_to_slice(&[byte], &mut digits).unwrap();
    out.extend_from_slice(b"\\x")?;
    out.extend_from_slice(&digits)
}
