//! Variables of the environment.

use crate::NoMemory;
use std::alloc::{Alloc, AllocError, Global};
use std::env;
use std::env::{Env, VarError};

/// The text of a variable. One that isn't set has none, nor has one that isn't text.
pub fn variable<R: Env + Alloc<A = Global>>(
    rt: &R,
    name: &str,
) -> Result<Option<String>, NoMemory> {
    match env::var(rt, name) {
        Ok(text) => Ok(Some(text)),
        Err(VarError::OutOfMemory) => Err(AllocError),
        Err(_) => Ok(None),
    }
}
