//! Bytes that a terminal shows and does not obey.

ghost use Rattle.std.specs.Prelude.{◌≡◌, ◌++◌, OnOk};
ghost use Rattle.mac_words.specs.Escaped.{escaped, escaped_byte, is_plain};

use mac_wire::NoMemory;

/// Appends printable ASCII as it is, and any other byte and the backslash as `\x` and two digits.
pub fn append_escaped(bytes: &[u8], out: &mut Vec<u8>) -> Result<(), NoMemory>
    ensures { OnOk result (out.new.items ≡ out.old.items ++ escaped bytes.now) }
{
    for byte in bytes {
        append_byte(*byte, out)?;
    }
    Ok(())
}

/// Whether a byte is shown as it is: printable ASCII without the backslash.
fn is_plain(byte: u8) -> bool
    ensures { result ≡ is_plain byte }
{
    32 <= byte && byte <= 126 && byte != b'\\'
}

/// Appends a byte as it is shown.
fn append_byte(byte: u8, out: &mut Vec<u8>) -> Result<(), NoMemory>
    ensures { OnOk result (out.new.items ≡ out.old.items ++ escaped_byte byte) }
{
    if is_plain(byte) {
        return out.extend_from_slice(&[byte]);
    }
    let mut digits = [0u8; 2];
    hex::encode_to_slice(&[byte], &mut digits).unwrap();
    out.extend_from_slice(b"\\x")?;
    out.extend_from_slice(&digits)
}
