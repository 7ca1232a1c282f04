//! The greatest sizes of a token and its parts.

/// The greatest number of bytes in a location.
pub const LOCATION_MAX: usize = 1024;

/// The greatest number of bytes in an identifier.
pub const IDENTIFIER_MAX: usize = 4096;

/// The greatest number of bytes in a caveat.
pub const CAVEAT_MAX: usize = 4096;

/// The greatest number of caveats in a token.
pub const CAVEATS_MAX: usize = 128;

/// The greatest number of bytes in a token as it is read or written.
pub const TOKEN_MAX: usize = 32_768;
