//! How much memory a connection is counted for.

ghost use Rattle.std.specs.Prelude.{◌≡◌};
ghost use Rattle.mac_gate.specs.Load.{held_by, no_load, with_sizes};

/// How many bytes of memory a connection has at most for each byte of the longest request that came
/// on it.
pub const REQUEST_TIMES: u64 = 4;

/// The same for each byte of the longest response.
pub const RESPONSE_TIMES: u64 = 3;

/// And so many besides, once something came.
pub const READ_ROOM: u64 = 32_768;

/// The most bytes that came for a request, and that were to be written at once. A connection keeps
/// the memory that these took, to its end.
#[derive(Clone, Copy, PartialEq, Eq)]
pub struct Load {
    request: u64,
    response: u64,
}

impl Load {
    /// Nothing has come.
    pub fn new() -> Load
        ensures { result ≡ no_load }
    {
        Load {
            request: 0,
            response: 0,
        }
    }

    /// Notes that a request has so many bytes so far, and that so many are written at once.
    pub fn note(&mut self, request: u64, response: u64)
        ensures { self.new ≡ with_sizes self.old request response }
    {
        *self = Load {
            request: self.request.max(request),
            response: self.response.max(response),
        };
    }

    /// How many bytes of memory it is counted for.
    pub fn held(&self) -> u64
        ensures { result ≡ held_by self.now }
    {
        if self.request == 0 {
            return 0;
        }
        READ_ROOM
            .saturating_add(self.request.saturating_mul(REQUEST_TIMES))
            .saturating_add(self.response.saturating_mul(RESPONSE_TIMES))
    }
}
