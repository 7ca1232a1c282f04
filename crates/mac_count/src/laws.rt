//! Laws of the definitions, as functions whose contracts state them.
ghost use Rattle.std.specs.Prelude.{◌≡◌, ◌↔◌, ℕ, ◌+◌, ◌<◌, ◌≤◌, ◌^◌, ◌==◌, List, length};
ghost use Rattle.std.specs.Prelude.{count_by, slice_index};
ghost use Rattle.mac_count.specs.declared.number.Number.{Number};
ghost use Rattle.mac_count.specs.declared.number.AnsweredRequest.{AnsweredRequest};
ghost use Rattle.mac_count.specs.declared.number.TheConstants.{REQUESTS};
ghost use Rattle.mac_count.specs.declared.times.TheConstants.{BOUNDS, BOUND_MICROS};
ghost use Rattle.mac_count.specs.Times.{bucket_of};
ghost use Rattle.mac_count.specs.RequestCounts.{count_of, counted, with_all_counted};
ghost use Rattle.mac_count.specs.Number.{all_numbers, all_requests, number_place, request_place};

/// Each number and each kind of request is written once, from a place that no other has.
pub fn each_is_written_once()
    ensures numbers { (number : Number) →
        count_by (λ other. number_place other == number_place number) all_numbers ≡ 1 }
    ensures requests { (request : AnsweredRequest) →
        count_by (λ other. request_place other == request_place request) all_requests ≡ 1 }
{}

/// Of requests that are counted one after the other, each is counted once, under its own kind.
pub fn each_request_is_counted_once()
    ensures { (counts : List ℕ) (kind : AnsweredRequest) (requests : List AnsweredRequest)
        → length counts ≡ REQUESTS → counted counts kind + length requests < 2 ^ 64
        → counted (with_all_counted counts requests) kind
        ≡ counted counts kind + count_of kind requests }
{}

/// A request is among those of a bound of time exactly where it took no longer.
pub fn bounds_tell_who_took_no_longer()
    ensures { (k micros : ℕ) → k < BOUNDS
        → (bucket_of micros ≤ bucket_of (slice_index BOUND_MICROS k))
        ↔ (micros ≤ slice_index BOUND_MICROS k) }
{}
