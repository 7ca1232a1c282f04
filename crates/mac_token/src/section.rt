//! The fields of a caveat, or of a token's own section in V2 binary, as they stand in the bytes.

ghost use Rattle.std.specs.Prelude.{◌≡◌};
ghost use Rattle.mac_token.specs.Reads.{Answers};
ghost use Rattle.mac_token.specs.Section.{caveat_said, location_bytes};

use crate::fault::TokenFault;
use crate::location::copied_location;
use crate::raw::RawCaveat;
use std::alloc::Global;
use std::marker::Model;

/// Fields that were found, not yet copied. Contracts see them as `SectionParts`.
#[derive(Drop)]
pub(crate) struct Section<'a> {
    pub(crate) location: Option<&'a [u8]>,
    pub(crate) identifier: &'a [u8],
    pub(crate) vid: Option<&'a [u8]>,
}

impl<'a> Model for Section<'a> {
    ghost use Rattle.std.specs.Option.{option_copied};
    ghost use Rattle.mac_token.specs.Section.{SectionParts};

    ghost Value = { SectionParts };

    ghost view = { λ s. record {
      location = option_copied s.location;
      identifier = s.identifier.now;
      vid = option_copied s.vid;
    } };
}

impl<'a> Section<'a> {
    /// The location's bytes, none where it is absent.
    pub(crate) fn location_or_empty(&self) -> &'a [u8]
        ensures { result.now ≡ location_bytes self.now }
    {
        match self.location {
            Some(location) => location,
            None => &[],
        }
    }

    /// The caveat that the fields are; `Malformed` where the location is not UTF-8.
    pub(crate) fn caveat(&self, alloc: Global) -> Result<RawCaveat, TokenFault>
        ensures { Answers (λ c. c) result (caveat_said self.now) }
    {
        let location = copied_location(alloc, self.location_or_empty())?;
        let vid = match self.vid {
            Some(bytes) => Some(Vec::from_slice(alloc, bytes)?),
            None => None,
        };
        let id = Vec::from_slice(alloc, self.identifier)?;
        Ok(RawCaveat { id, vid, location })
    }
}
