//! V2 binary: a token as sections of fields.
//!
//! ```text
//! token   = version section { section } end signature     the version is the byte 2
//! section = [ location ] identifier [ vid ] end           the token's own section has no vid
//! field   = type length bytes                             type and length are varints
//! end     = the type 0, without a length
//! ```
//!
//! By their types, a field of 1 is a location, of 2 an identifier, of 4 a vid, and of 6 the
//! signature, which has 32 bytes and is the end.

ghost use Rattle.std.specs.Prelude.{◌≡◌};

mod reading;
mod writing;

pub(crate) use reading::{end, section, view};
pub(crate) use writing::{
    BESIDE_CAVEAT, BESIDE_PARTS, put_caveat, put_head, put_parts, put_signature, written_len,
};

/// The first byte, which tells V2 binary from the other forms.
const VERSION: u8 = 2;

/// The end mark of a section: the type 0, without a length.
const END: u8 = 0;

/// The types of fields, by their numbers.
#[derive(Clone, Copy)]
pub(crate) enum FieldType {
    Location = 1,
    Identifier = 2,
    Vid = 4,
    Signature = 6,
}

impl FieldType {
    ghost use Rattle.mac_token.specs.V2.{type_number};

    /// The type's number in the bytes.
    fn number(self) -> u8
        ensures { result ≡ type_number self }
    {
        self as u8
    }
}
