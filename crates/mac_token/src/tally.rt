//! What reading has to know of a token's caveats before it can refuse or take them.

ghost use Rattle.std.specs.Prelude.{◌≡◌, ◌<◌, ◌^◌, [], ◌∷◌, length, option_map, Some, None, IfSome, IfNone};
ghost use Rattle.mac_token.specs.CaveatsIn.{caveats_in, spelled_in, tallied, tally_of};
ghost use Rattle.mac_token.specs.Section.{caveat_said};

use crate::limits::CAVEAT_MAX;
use crate::location::text;
use crate::section::Section;
use crate::version::Version;

/// How many caveats there are, and whether all may stand in a token.
#[derive(Clone, Copy)]
pub(crate) struct Tally {
    pub(crate) count: usize,
    pub(crate) has_vid: bool,
    pub(crate) has_location: bool,
    pub(crate) are_short: bool,
}

/// The tally of no caveats.
const NONE: Tally = Tally {
    count: 0,
    has_vid: false,
    has_location: false,
    are_short: true,
};

impl Tally {
    /// The tally with one caveat more, of these fields; `None` where its location is not UTF-8.
    fn with_caveat(self, section: &Section<'_>) -> Option<Tally>
        requires { self.count < 2 ^ 63 }
        ensures { result ≡ option_map (λ c. tallied self (c ∷ [])) (caveat_said section.now) }
    {
        let location = text(section.location_or_empty())?;
        Some(Tally {
            count: self.count + 1,
            has_vid: self.has_vid || section.vid.is_some(),
            has_location: self.has_location || !location.is_empty(),
            are_short: self.are_short && section.identifier.len() <= CAVEAT_MAX,
        })
    }

    /// The tally of the caveats at the front, and the bytes after them.
    pub(crate) fn of(version: Version, bytes: &[u8]) -> Option<(Tally, &[u8])>
        ensures found { IfSome result (λ x.
            (caveats_in version bytes.now ≡ Some (spelled_in version bytes.now, x.1.now))
            × (x.0 ≡ tally_of (spelled_in version bytes.now))) }
        ensures none { IfNone result (caveats_in version bytes.now ≡ None) }
    {
        let mut tally = NONE;
        let mut rest = bytes;
        while let Some((section, after)) = version.section(rest) {
            tally = tally.with_caveat(&section)?;
            rest = after;
        }
        let rest = version.end(rest)?;
        Some((tally, rest))
    }
}
