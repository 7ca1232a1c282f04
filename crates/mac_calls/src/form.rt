//! The forms of tokens in calls.

ghost use Rattle.std.specs.Prelude.{◌≡◌};
ghost use Rattle.mac_calls.specs.Form.{form_named, form_of_bare, form_word, wire_form};

use mac_wire::TokenForm;

/// The form of a token. Its text is base64url in each, without padding.
#[derive(Clone, Copy, Debug, PartialEq, Eq)]
pub enum CallForm {
    /// V1 packets.
    V1,
    /// V2 binary.
    V2,
    /// V2 JSON.
    Json,
}

impl CallForm {
    /// The form that a word names.
    pub fn named(word: &str) -> Option<CallForm>
        ensures { result ≡ form_named word.now }
    {
        match word {
            "v1-text" => Some(CallForm::V1),
            "v2-text" => Some(CallForm::V2),
            "v2-json" => Some(CallForm::Json),
            _ => None,
        }
    }

    /// The word that names it.
    pub fn word(self) -> &'static str
        ensures { result.now ≡ form_word self }
    {
        match self {
            CallForm::V1 => "v1-text",
            CallForm::V2 => "v2-text",
            CallForm::Json => "v2-json",
        }
    }

    /// What the wire is asked for, before that is made base64 where it isn't.
    pub(crate) fn wire(self) -> TokenForm
        ensures { result ≡ wire_form self }
    {
        match self {
            CallForm::V1 => TokenForm::V1Text,
            CallForm::V2 => TokenForm::V2Text,
            CallForm::Json => TokenForm::V2Json,
        }
    }

    /// The form that the first byte of a bare token calls for.
    pub(crate) fn of_bare(bare: &[u8]) -> CallForm
        ensures { result ≡ form_of_bare bare.now }
    {
        match bare {
            [b'0', ..] => CallForm::V1,
            [b'{', ..] => CallForm::Json,
            _ => CallForm::V2,
        }
    }
}
