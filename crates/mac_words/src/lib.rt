//! What the words of a person ask, and what is printed for them.
//!
//! [`mint_payload`], [`attenuate_payload`] and [`verify_payload`] make the payload that asks a
//! request in words, [`reply_to`] answers it as a worker does, and [`append_reply_text`] prints the
//! answer; [`say_mint`], [`say_attenuate`] and [`say_verify`] do all three. [`inspect`] prints what
//! any bytes spell. Nothing here reads a device.
#![tactic(auto)]

mod caveat_lines;
mod escaped;
mod explained;
mod fault;
mod inspected;
mod key_lines;
mod moments;
mod name_list;
mod payload;
mod refusal;
mod reply_text;
mod revoked;
mod saying;
mod spelled;
mod token_text;
mod warned;

pub use escaped::append_escaped;
pub use explained::explain;
pub use fault::{FieldFault, TextFault};
pub use inspected::{Whose, find_whose, inspect};
pub use key_lines::{NameFault, key_line};
pub use moments::moment;
pub use name_list::list_names;
pub use payload::{
    CAVEATS_TOLD_MAX, KEY_NAME_MAX, TEXT_MAX, attenuate_payload, mint_payload, reply_to,
    verify_payload,
};
pub use refusal::reason;
pub use reply_text::{append_refusal, append_reply_text};
pub use revoked::{put_behind, revoked_line, told_lines, without_revoked};
pub use saying::{
    Minting, Said, say_attenuate, say_inspect, say_inspect_under, say_mint, say_verify,
};
pub use spelled::{Spelling, form_named};
pub use token_text::{append_token_text, token_bytes};
pub use warned::warnings;
