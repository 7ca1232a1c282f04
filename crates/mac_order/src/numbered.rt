//! What the outlet may know of each slip as it comes.

ghost use Rattle.std.specs.Prelude.{◌<◌, ◌-◌, ◌^◌, length};

use rtrb::Protocol;

/// Each slip has a place, and none has the greatest that a number can name.
#[derive(Clone, Copy)]
pub struct Numbered;

impl<T> Protocol<T> for Numbered {
    ghost allows = { λ before slip. length before < 2 ^ 64 - 1 };
}
