//! The forms in which a token is written.

ghost use Rattle.std.specs.Prelude.{◌≡◌};
ghost use Rattle.mac_token.specs.Form.{form_number};

/// A form in which a token is written.
#[derive(Clone, Copy)]
pub enum Form {
    /// Base64 text of V1 packets.
    V1Text,
    /// V2 binary, bare.
    V2Binary,
    /// V2 JSON, as compact text.
    V2Json,
    /// Base64 text of V2 binary.
    V2Text,
}

impl Form {
    /// The form's number on the wire, 1 to 4.
    pub fn number(self) -> u8
        ensures { result ≡ form_number self }
    {
        match self {
            Form::V1Text => 1,
            Form::V2Binary => 2,
            Form::V2Json => 3,
            Form::V2Text => 4,
        }
    }
}
