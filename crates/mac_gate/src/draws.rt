//! The system's random bytes.

use mac_calls::Draws;
use std::random::RandomSource;

/// Draws from the system.
#[derive(Clone, Copy)]
pub struct SystemDraws<'a, R>(pub &'a R);

impl<'a, R: RandomSource> Draws for SystemDraws<'a, R> {
    fn draw(&self) -> Option<[u8; 16]> {
        let mut drawn = [0u8; 16];
        match self.0.fill_bytes(&mut drawn) {
            Ok(()) => Some(drawn),
            Err(_) => None,
        }
    }
}
