//! Varints: unsigned LEB128, each number in its shortest form.
//!
//! ```text
//! varint = { byte with the high bit set } byte without it
//! ```
//!
//! Each byte carries seven bits, the lowest first; the last is not zero, save for the number 0.

ghost use Rattle.std.specs.Prelude.{◌≡◌, ℕ, List, ◌++◌, ◌+◌, ◌*◌, ◌%◌, ◌^◌, ◌<◌, ◌≤◌, length, IfSome, IfNone, SomeIff, OnOk};
ghost use Rattle.mac_token.specs.Varint.{varint};

use crate::fault::NoMemory;

/// The number with one group more, where it stays below 2^64.
fn with_group(number: u64, unit: u64, byte: u8) -> Option<u64>
    ensures { SomeIff result (number + unit * (byte % 128) < 2 ^ 64)
        (number + unit * (byte % 128)) }
{
    number.checked_add(unit.checked_mul(u64::from(byte % 128))?)
}

/// Reads the number at the front of the bytes, and gives the bytes after it.
///
/// `None` where no number below 2^64 stands there in its shortest form. At most ten bytes are
/// looked at.
pub fn read_varint(bytes: &[u8]) -> Option<(u64, &[u8])>
    ensures found { IfSome result (λ found. bytes.now ≡ varint found.0 ++ found.1.now) }
    ensures none { IfNone result
        ((n : ℕ) (rest : List ℕ) → n < 2 ^ 64 → bytes.now ≡ varint n ++ rest → ⊥) }
{
    let mut number: u64 = 0;
    let mut unit: u64 = 1;
    for (i, byte) in bytes.iter().enumerate() {
        number = with_group(number, unit, *byte)?;
        if *byte == 0 && unit > 1 {
            return None;
        }
        if *byte < 128 {
            return Some((number, &bytes[i + 1..]));
        }
        unit = unit.checked_mul(128)?;
    }
    None
}

/// How many bytes the number's varint has.
pub fn varint_len(number: u64) -> usize
    ensures value { result ≡ length (varint number) }
    ensures bound { result ≤ 10 }
{
    let mut rest = number;
    let mut len = 1;
    while rest >= 128 {
        rest /= 128;
        len += 1;
    }
    len
}

/// Appends the number's varint.
pub fn push_varint(out: &mut Vec<u8>, number: u64) -> Result<(), NoMemory>
    ensures { OnOk result (out.new.items ≡ out.old.items ++ varint number) }
{
    let mut rest = number;
    while rest >= 128 {
        out.push(128 + (rest % 128) as u8)?;
        rest /= 128;
    }
    out.push(rest as u8)?;
    Ok(())
}
