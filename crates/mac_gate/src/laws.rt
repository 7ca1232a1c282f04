//! Laws of the definitions, as functions whose contracts state them.

ghost use Rattle.std.specs.Prelude.{◌≡◌, ◌++◌, ◌⊎◌, All, ℕ, Bool, List, None, Some, codes, false};
ghost use Rattle.http.specs.Request.{head_of};
ghost use Rattle.http_server.specs.Connection.{history};
ghost use Rattle.http_server.specs.History.{IsDone};
ghost use Rattle.http_server.specs.Response.{IsResponse};
ghost use Rattle.http_server.specs.declared.connection.Connection.{Connection};
ghost use Rattle.http_uri.specs.Uri.{uri_path};
ghost use Rattle.mac_board.specs.Follows.{Known};
ghost use Rattle.mac_gate.specs.Answered.{AreTurns, KeepOrder, Turn};
ghost use Rattle.mac_gate.specs.Lives.{AsksToMint, IsDenied, IsGuarded, IsNoPage, Lives, Said};
ghost use Rattle.mac_gate.specs.Lives.{SaidAll};
ghost use Rattle.mac_gate.specs.Noting.{AreNotedAlike, IsExchangeOf};
ghost use Rattle.mac_gate.specs.declared.flow.Flow.{Flow as PlainFlow};
ghost use Rattle.mac_gate.specs.declared.offer.AddressTerms.{AddressTerms as PlainTerms};
ghost use Rattle.mac_gate.specs.declared.offer.Offer.{Offer as PlainOffer};
ghost use Rattle.mac_host.specs.Requested.{with_request};
ghost use Rattle.mac_host.specs.declared.exchange.Exchange.{Exchange as PlainExchange};
ghost use Rattle.mac_http.specs.declared.noted.Noted.{Noted as PlainNoted};
ghost use Rattle.mac_http.specs.declared.rules.Way.{Way as PlainWay};
ghost use Rattle.mac_log.specs.Fields.{FieldsText};
ghost use Rattle.mac_page.specs.declared.site.Site.{Site as PlainSite};

use crate::offer::Offer;

/// What was written to a connection of a loop is, from its begin on, a beginning of HTTP's answers
/// to the requests that were read, in order, each once, and each response is the one that its
/// address offers. Where HTTP has nothing more to do it is all of these answers.
pub fn lives_are_told()
    ensures said { (offer : PlainOffer) (by : PlainWay) (flow : PlainFlow) (heard : List ℕ)
        (connection : Connection) → Lives offer by flow heard connection
        → Said offer by flow.came.bytes flow.went.bytes }
    ensures all { (offer : PlainOffer) (by : PlainWay) (flow : PlainFlow) (heard : List ℕ)
        (connection : Connection) → Lives offer by flow heard connection
        → IsDone (history connection) → SaidAll offer by flow.came.bytes flow.went.bytes }
{}

/// Over the turns of one loop, whosever they are, no request is answered under an older table than
/// a request of an earlier turn, or one before it in the same turn.
pub fn turns_keep_their_tables()
    ensures { (was is : Known) (turns : List Turn) → AreTurns (Some was) (Some is) turns
        → KeepOrder was is turns }
{}

/// At an address that may not mint, or where that call isn't answered, no token is minted over the
/// whole life of a connection: each request below `/mint/` is answered with 404, or with 503 where
/// there was no memory, and without a body.
pub fn who_may_not_mint_never_mints()
    ensures { (own : PlainTerms) (by : PlainWay) (came went : List ℕ)
        (said : Said (Offer.Daemon own) by came went)
        → (own.rights.may_mint ≡ false) ⊎ (own.terms.calls.mint ≡ false)
        → All (λ call. AsksToMint call.0 → IsDenied call.1) said.done.calls }
{}

/// Over the whole life of a connection to a site, each request that doesn't bring the secret of its
/// page is told nothing but a file: it is answered with 403, or with 503 where there was no memory.
pub fn pages_are_told_to_holders_alone()
    ensures { (site : PlainSite) (by : PlainWay) (came went : List ℕ)
        (said : Said (Offer.Site site) by came went)
        → All (λ call. IsGuarded site call.0 call.1) said.done.calls }
{}

/// Over the whole life of a connection to a daemon's address, no page is told that this address
/// doesn't have: each request for one is answered with 404, and without a body.
pub fn no_page_is_told_elsewhere()
    ensures { (own : PlainTerms) (by : PlainWay) (came went : List ℕ)
        (said : Said (Offer.Daemon own) by came went)
        → All (λ call. IsNoPage own.terms.pages call.0 call.1) said.done.calls }
{}

/// The line of a request tells nothing of it but what it asks for, the name of its key where a line
/// may tell one, its status, the number of its refusal or the index of its caveat, and its id where
/// a line may tell one; and where identifiers are logged, that of a token whose signature is right.
/// So whatever tokens, facts and other texts two requests bring: where these are the same, what
/// their lines tell is.
pub fn lines_tell_nothing_else()
    ensures { (fields : FieldsText) (identifiers : Bool) (one other : PlainNoted)
        (e f : PlainExchange)
        → AreNotedAlike identifiers one other
        → IsExchangeOf identifiers one e → IsExchangeOf identifiers other f
        → with_request fields e ≡ with_request fields f }
{}
