//! Why a request that names no page isn't granted or done.

ghost use Rattle.std.specs.Prelude.{◌≡◌};
ghost use Rattle.mac_http.specs.Reason.{is_signed, judged_by, reason_found, reason_of_call};

use crate::finding::Finding;
use mac_calls::CallOutcome;
use mac_wire::Refusal;

/// Why a request isn't granted or done, for who counts and logs requests. A response tells no more
/// than its status and its body do.
#[derive(Clone, Copy, PartialEq, Eq)]
pub enum Reason {
    /// It is refused for this reason.
    Refused(Refusal),
    /// The index of the first caveat that isn't satisfied, from 0.
    Unsatisfied(u16),
}

/// What came of a verify, for who counts and logs it.
#[derive(Clone, Copy, PartialEq, Eq)]
pub struct Judged {
    /// Why it isn't granted, where more than the status tells that.
    pub reason: Option<Reason>,
    /// Whether a key of its name gives the token's signature. Caveats are looked at behind that,
    /// and whether the token was taken back.
    pub is_signed: bool,
}

impl Judged {
    /// That of a verify that wasn't judged.
    pub(crate) const NOTHING: Judged = Judged {
        reason: None,
        is_signed: false,
    };
}

/// What came of a verify of which this was found.
pub(crate) fn judged_by(finding: &Finding) -> Judged
    ensures { result ≡ judged_by finding.now }
{
    Judged {
        reason: reason_found(finding),
        is_signed: is_signed(finding),
    }
}

/// Whether a key of the name gives the signature of the token of which this was found.
fn is_signed(finding: &Finding) -> bool
    ensures { result ≡ is_signed finding.now }
{
    match finding {
        Finding::Granted(_, _) | Finding::Unsatisfied(_) => true,
        Finding::Invalid(_, Refusal::Revoked) => true,
        Finding::Invalid(_, _) | Finding::NoMoment | Finding::ManyFacts => false,
        Finding::Unknown | Finding::NoToken | Finding::Fragment | Finding::UnsafePath => false,
    }
}

/// The reason in what was found, where it isn't one of the request's form.
fn reason_found(finding: &Finding) -> Option<Reason>
    ensures { result ≡ reason_found finding.now }
{
    match finding {
        Finding::Invalid(_, why) => Some(Reason::Refused(*why)),
        Finding::Unsatisfied(index) => Some(Reason::Unsatisfied(*index)),
        Finding::NoMoment => Some(Reason::Refused(Refusal::NoClock)),
        Finding::Unknown | Finding::NoToken | Finding::Fragment => None,
        Finding::UnsafePath | Finding::ManyFacts | Finding::Granted(_, _) => None,
    }
}

/// The reason in what came of a call.
pub(crate) fn reason_of_call(outcome: &CallOutcome) -> Option<Reason>
    ensures { result ≡ reason_of_call outcome.now }
{
    match outcome.refusal() {
        Some(why) => Some(Reason::Refused(why)),
        None => None,
    }
}
