//! Laws of the definitions, as functions whose contracts state them.

ghost use Rattle.std.specs.Prelude.{◌≡◌, ◌↔◌, ◌<◌, ◌++◌, ◌⊎◌, [], ℕ, List, Option, None, Some};
ghost use Rattle.std.specs.Prelude.{codes};
ghost use Rattle.std.specs.FinMap as map;
ghost use Rattle.std.specs.Prelude.{All, Bool, Contains, true, false};
ghost use Rattle.http.specs.Request.{head_of};
ghost use Rattle.http.specs.declared.request.Parts.{Parts};
ghost use Rattle.http.specs.declared.request.Request.{Request as PlainRequest};
ghost use Rattle.http_server.specs.Connection.{config_of, history};
ghost use Rattle.http_server.specs.declared.connection.Connection.{Connection};
ghost use Rattle.http_server.specs.declared.response.Response.{Response};
ghost use Rattle.http_server.specs.History.{new_history};
ghost use Rattle.http_server.specs.Response.{IsResponse, fields_of};
ghost use Rattle.http_uri.specs.Uri.{uri_path};
ghost use Rattle.mac_calls.specs.Counted.{are_few};
ghost use Rattle.mac_decide.specs.Reading.{verdict_of};
ghost use Rattle.mac_decide.specs.Answer.{keys_of};
ghost use Rattle.mac_decide.specs.Terms.{Terms, is_allowed};
ghost use Rattle.mac_keys.specs.KeyTable.{Table};
ghost use Rattle.mac_keys.specs.Keys.{listed};
ghost use Rattle.mac_keys.specs.declared.keys.Keys.{Keys};
ghost use Rattle.mac_token.specs.RawToken.{TokenParts};
ghost use Rattle.mac_wire.specs.declared.reply.Refusal.{Refusal as PlainRefusal};
ghost use Rattle.percent_encoding.specs.Percent.{percent_decode};
ghost use Rattle.mac_http.specs.declared.attending.TheConstants.{CONFIG};
ghost use Rattle.mac_http.specs.declared.authorization.Scheme.{Scheme as PlainScheme};
ghost use Rattle.mac_http.specs.declared.finding.Finding.{Finding as PlainFinding};
ghost use Rattle.mac_http.specs.declared.rules.Granted.{Granted as PlainGranted};
ghost use Rattle.mac_http.specs.declared.rules.Rules.{Rules as PlainRules};
ghost use Rattle.mac_http.specs.declared.rules.Sources.{Sources as PlainSources};
ghost use Rattle.mac_calls.specs.declared.call.Call.{Call};
ghost use Rattle.mac_http.specs.Browsing.{is_of_page};
ghost use Rattle.mac_http.specs.Calling.{RespondsToCall};
ghost use Rattle.mac_http.specs.Escaped.{escaped};
ghost use Rattle.mac_http.specs.Faced.{FaceState, IsAnswer, IsFaced};
ghost use Rattle.mac_http.specs.Facts.{facts_of, tells_fragment, tells_unsafe};
ghost use Rattle.mac_http.specs.Found.{found_of, found_with, context_of, IsGrantedBy, IsHeld};
ghost use Rattle.mac_http.specs.Noted.{IsSignedBy, signed_in};
ghost use Rattle.mac_http.specs.Reason.{is_signed};
ghost use Rattle.mac_http.specs.Target.{target_in};
ghost use Rattle.mac_http.specs.Path.{steps, IsStep};
ghost use Rattle.mac_http.specs.Saying.{AreToldAlike, IsOverloaded, Tells};
ghost use Rattle.mac_http.specs.Turn.{AnswersOnce, IsTurn, NotesCalls};

use crate::finding::Finding;
use crate::rules::Way;
use http_server::Service;

/// A request is granted exactly where its path names keys that may be used, it brings one token, no
/// fragment and no unsafe path is told, the facts are few, the clock tells a moment, and the keys
/// grant the token at that moment with those facts, and it was not taken back.
pub fn granted_exactly()
    ensures { (table : Table) (rules : PlainRules) (moment : Option ℕ) (head : Parts)
        → ((identifier : List ℕ) × (location : List ℕ)
        × (found_of table rules moment head ≡ Finding.Granted identifier location))
        ↔ IsGrantedBy table rules moment head }
{}

/// Who brings no token, or one that the name's keys didn't make, is told what he is told where no
/// name has keys. So he can't tell a name that exists from one that doesn't.
pub fn names_are_told_to_holders_alone()
    ensures { (table bare : Table) (rules : PlainRules) (moment : Option ℕ) (head : Parts)
        → ((name : List ℕ) → map.get bare.keys name ≡ None)
        → IsHeld (found_of table rules moment head)
        ⊎ AreToldAlike (found_of table rules moment head) (found_of bare rules moment head) }
{}

/// A name that may not be used at an address is there as one without keys, whatever token comes.
pub fn other_names_have_no_keys()
    ensures { (table bare : Table) (rules : PlainRules) (moment : Option ℕ) (head : Parts)
        (name behind : List ℕ) → ((other : List ℕ) → map.get bare.keys other ≡ None)
        → target_in (uri_path head.uri) ≡ Some (name, behind)
        → is_allowed rules.rights.now.names name ≡ false
        → found_of table rules moment head ≡ found_of bare rules moment head }
{}

/// A response tells nothing but what was found.
pub fn response_tells_the_finding()
    ensures { (granted : PlainGranted) (f : PlainFinding) (r s : Response)
        → Tells granted f r → Tells granted f s
        → (r.status ≡ s.status) × (fields_of r ≡ fields_of s) × (r.body.items ≡ s.body.items) }
{}

/// A response doesn't say why a token is refused: one that was taken back, as one of another key, as
/// one of a name that has none.
pub fn refused_tokens_are_told_alike()
    ensures { (scheme : PlainScheme) (why other : PlainRefusal)
        → AreToldAlike (Finding.Invalid scheme why) (Finding.Invalid scheme other) }
{}

/// At an address that isn't allowed to mint, or where that call isn't answered, a path below
/// `/mint/` is answered with a bare 404, or a response that tells that there was no memory.
pub fn who_may_not_mint_has_no_token_minted()
    ensures { (table : Table) (rules : PlainRules) (moment : Option ℕ)
        (request : PlainRequest (List ℕ)) (below : List ℕ) (response : Response)
        → (rules.rights.now.may_mint ≡ false) ⊎ (rules.calls.mint ≡ false)
        → uri_path (head_of request).uri ≡ codes "/mint/" ++ below
        → IsAnswer table rules moment request response
        → IsResponse 404 [] [] response ⊎ IsOverloaded response }
{}

/// Under a name that may not be used at an address no token is minted there: no response to such a
/// request says that its work was done.
pub fn no_token_is_minted_under_another_name()
    ensures { (table : Table) (rules : PlainRules) (moment : Option ℕ)
        (request : PlainRequest (List ℕ)) (name : List ℕ) (response : Response)
        → is_allowed rules.rights.now.names name ≡ false
        → uri_path (head_of request).uri ≡ codes "/mint/" ++ name
        → IsAnswer table rules moment request response → ¬ (response.status ≡ 200) }
{}

/// A call that comes by a port and that a page in a browser may have had sent is refused with 403,
/// whatever it asks for; or the response tells that there was no memory.
pub fn pages_have_nothing_done()
    ensures { (table : Table) (rules : PlainRules) (moment : Option ℕ)
        (request : PlainRequest (List ℕ)) (asked : Call × List ℕ) (response : Response)
        → rules.way ≡ Way.Port → is_of_page (head_of request).headers ≡ true
        → RespondsToCall table rules moment asked request response
        → IsResponse 403 [] [] response ⊎ IsOverloaded response }
{}

/// The token of a request is noted as signed only where it is one, and one of the keys of the name in
/// its path gives the signature. So of any other no identifier is told.
pub fn noted_tokens_are_signed()
    ensures { (table : Table) (rules : PlainRules) (moment : Option ℕ) (head : Parts)
        (bytes : List ℕ) → signed_in (is_signed (found_of table rules moment head)) head
        ≡ Some bytes → IsSignedBy table rules moment head bytes }
{}

/// Such a token is noted wherever it is judged: where no fragment and no unsafe path is told, the
/// facts are few, and the clock tells a moment.
pub fn signed_tokens_are_noted()
    ensures { (table : Table) (rules : PlainRules) (moment : Option ℕ) (head : Parts)
        (bytes : List ℕ) (second : ℕ) (s : IsSignedBy table rules moment head bytes)
        → moment ≡ Some second → tells_fragment rules.sources head s.behind ≡ false
        → tells_unsafe rules.sources head s.behind ≡ false
        → are_few (facts_of rules.sources head s.behind) ≡ true
        → signed_in (is_signed (found_of table rules moment head)) head ≡ Some bytes }
{}

/// Facts are told by the verdict alone: where two requests with one token under one name's keys
/// tell no fragment, no unsafe path and few facts, and the verdict on what the token reads as is
/// the same with the facts of either, the same is found of both.
pub fn facts_tell_by_the_verdict()
    ensures { (sources : PlainSources) (terms : Terms) (moment : ℕ) (one other : Parts)
        (name here there : List ℕ) (keys : Keys) (scheme : PlainScheme) (token : List ℕ)
        → terms.moment ≡ Some moment → keys_of terms name ≡ Some keys
        → tells_fragment sources one here ≡ false → tells_fragment sources other there ≡ false
        → tells_unsafe sources one here ≡ false → tells_unsafe sources other there ≡ false
        → are_few (facts_of sources one here) ≡ true
        → are_few (facts_of sources other there) ≡ true
        → ((t : TokenParts) → verdict_of (listed keys) t (context_of sources moment one here)
        ≡ verdict_of (listed keys) t (context_of sources moment other there))
        → found_with sources terms one (name, here) (scheme, token)
        ≡ found_with sources terms other (name, there) (scheme, token) }
{}

/// The steps of a path are its fronts that are one byte, or that end in no slash and have a slash
/// or nothing behind them.
pub fn steps_are_fronts()
    ensures { (path step : List ℕ) → Contains (steps path) step ↔ IsStep path step }
{}

/// What is escaped is read back.
pub fn escaped_is_read()
    ensures { (bytes : List ℕ) → All (λ b. b < 256) bytes → percent_decode (escaped bytes) ≡ bytes }
{}

/// Two turns of a connection, one behind the other, do together what a turn does.
pub fn turns_compose<S: Service>()
    ensures { (unread between left before midst after : Option (List ℕ)) (first next last : S)
        (old middle new : Connection)
        → IsTurn S.answers unread between before midst first next old middle
        → IsTurn S.answers between left midst after next last middle new
        → IsTurn S.answers unread left before after first last old new }
{}

/// A service that answers each request by one look at its tables and at one moment of its clock, and
/// notes it once unless it is for a page, as a [`Face`](crate::Face) does, has written to a
/// connection, from its begin to the end of each of its turns, the responses to its requests, in
/// order, each right under its table and at its moment. As many were noted as are for no page.
pub fn turns_are_faced<S: Service>()
    ensures { (tells : Bool) (state : S → FaceState)
        → ((one : S) (request : PlainRequest (List ℕ)) (response : Response) (other : S)
        → S.answers one request response other
        → AnswersOnce tells state one request response other)
        → (unread left before after : Option (List ℕ)) (first last : S) (old new : Connection)
        → history old ≡ new_history → config_of old ≡ CONFIG
        → IsTurn S.answers unread left before after first last old new
        → IsFaced tells (state first) (state last) unread left before after }
{}

/// Over a turn such a service notes as many requests as it answers, but for those for a page.
pub fn turns_are_noted<S: Service>()
    ensures { (tells : Bool) (state : S → FaceState)
        → ((one : S) (request : PlainRequest (List ℕ)) (response : Response) (other : S)
        → S.answers one request response other
        → AnswersOnce tells state one request response other)
        → (unread left before after : Option (List ℕ)) (first last : S) (old new : Connection)
        → IsTurn S.answers unread left before after first last old new
        → NotesCalls (state first).noted (state last).noted (history old).calls
        (history new).calls }
{}
