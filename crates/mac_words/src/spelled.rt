//! How a token is spelled, as its first byte says.

ghost use Rattle.std.specs.Prelude.{◌≡◌};
ghost use Rattle.mac_words.specs.Spelling.{form_named, form_of, spelling_name, spelling_of};

use mac_wire::TokenForm;

/// How bytes that spell a token spell it.
#[derive(Clone, Copy, Debug, PartialEq, Eq)]
pub enum Spelling {
    /// Version 1 packets, bare.
    Packets,
    /// Version 2 binary, bare.
    Binary,
    /// Version 2 JSON, bare.
    Json,
    /// Base64 text of version 1 packets.
    PacketsText,
    /// Base64 text of version 2 binary.
    BinaryText,
    /// Base64 text of version 2 JSON.
    JsonText,
}

impl Spelling {
    /// How bytes spell the token that they spell; of bytes that spell none it says nothing.
    pub fn of(token: &[u8]) -> Spelling
        ensures { result ≡ spelling_of token.now }
    {
        match token {
            [b'0', ..] => Spelling::Packets,
            [2, ..] => Spelling::Binary,
            [b'{', ..] => Spelling::Json,
            [b'M', ..] => Spelling::PacketsText,
            [b'e', ..] => Spelling::JsonText,
            _ => Spelling::BinaryText,
        }
    }

    /// The form in which such a token is written again.
    pub fn form(self) -> TokenForm
        ensures { result ≡ form_of self }
    {
        match self {
            Spelling::Packets | Spelling::PacketsText => TokenForm::V1Text,
            Spelling::Binary => TokenForm::V2Binary,
            Spelling::Json | Spelling::JsonText => TokenForm::V2Json,
            Spelling::BinaryText => TokenForm::V2Text,
        }
    }

    /// Its name.
    pub fn name(self) -> &'static str
        ensures { result.now ≡ spelling_name self }
    {
        match self {
            Spelling::Packets => "version 1 packets",
            Spelling::Binary => "version 2 binary",
            Spelling::Json => "version 2 JSON",
            Spelling::PacketsText => "base64 text of version 1 packets",
            Spelling::BinaryText => "base64 text of version 2 binary",
            Spelling::JsonText => "base64 text of version 2 JSON",
        }
    }
}

/// The form that a word names.
pub fn form_named(word: &str) -> Option<TokenForm>
    ensures { result ≡ form_named word.now }
{
    match word {
        "v1-text" => Some(TokenForm::V1Text),
        "v2-binary" => Some(TokenForm::V2Binary),
        "v2-json" => Some(TokenForm::V2Json),
        "v2-text" => Some(TokenForm::V2Text),
        _ => None,
    }
}
