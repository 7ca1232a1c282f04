//! Signatures, which have 32 bytes in every form.

ghost use Rattle.std.specs.Prelude.{◌≡◌, ◌≢◌, length, IfSome, IfNone};

/// The bytes as a signature, where they are 32.
pub(crate) fn signature_of(bytes: &[u8]) -> Option<[u8; 32]>
    ensures some { IfSome result (λ sig. sig ≡ bytes.now) }
    ensures none { IfNone result (length bytes.now ≢ 32) }
{
    match <[u8; 32]>::try_from(bytes) {
        Ok(sig) => Some(sig),
        Err(_) => None,
    }
}
