//! HMAC with SHA-256, root keys, and the chain of HMACs that signs a macaroon.
//!
//! Nothing here asks for memory, and everything answers.
#![tactic(auto)]

mod hmac_state;
mod key;
pub mod laws;
mod side_by_side;
mod signature;

pub use hmac_state::{HmacState, hmac};
pub use key::{RootKey, root_key};
pub use side_by_side::{extend_each, hmac_each, start_each};
pub use signature::{Sig, extend, same, start};
