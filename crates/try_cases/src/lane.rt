//! Cases of `mac_order`. Jobs are numbers, and the reply to a number is its eight bytes, the
//! greatest first.

mod digits;

use crate::case::{Case, CaseFault, WORDS_MAX};
use digits::Digits;
use mac_order::{Answer, Next, OpenFault, Reorder, SettleFault};

/// Tells what a case comes to, if it is one of these kinds.
pub(crate) fn tells(case: &mut Case<'_>, kind: &str) -> bool {
    match kind {
        "buffer" => calls(case),
        "buffer_texts" => fault_texts(case),
        _ => return false,
    }
    true
}

/// What the calls of a reorder buffer come to, and then its next place and its open slips.
fn calls(case: &mut Case<'_>) {
    let Ok(mut buffer) = Reorder::<Digits>::new(case.alloc) else {
        return case.fail(CaseFault::Memory);
    };
    for _ in 0..WORDS_MAX {
        if case.is_empty() {
            break;
        }
        say_call(case, &mut buffer);
        case.say(", ");
    }
    say_with(case, "next ", buffer.next_place());
    say_with(case, " open ", buffer.open_slips() as u64);
}

/// Makes the call that the next words spell, and appends what it comes to.
fn say_call(case: &mut Case<'_>, buffer: &mut Reorder<Digits>) {
    match case.word() {
        "open" => say_opened(case, buffer),
        "settle" => say_settled(case, buffer),
        "next" => say_sent(case, buffer),
        "close" => {
            buffer.close();
            case.say("closed");
        }
        _ => case.fail(CaseFault::NoCase),
    }
}

fn say_with(case: &mut Case<'_>, word: &str, number: u64) {
    case.say(word);
    case.say_number(number);
}

/// Opens a job.
fn say_opened(case: &mut Case<'_>, buffer: &mut Reorder<Digits>) {
    match buffer.open(case.number()) {
        Ok(place) => say_with(case, "place ", place),
        Err((fault, back)) => {
            case.tell(format!(in case.alloc; "fault {fault}"));
            say_with(case, " job ", back);
        }
    }
}

/// Settles, at a place, the answer to a job.
fn say_settled(case: &mut Case<'_>, buffer: &mut Reorder<Digits>) {
    let place = case.number();
    let Ok(answer) = Answer::make(case.alloc, case.number()) else {
        return case.fail(CaseFault::Memory);
    };
    match buffer.settle(place, answer) {
        Ok(()) => case.say("settled"),
        Err((fault, _)) => case.tell(format!(in case.alloc; "fault {fault}")),
    }
}

/// What goes out next.
fn say_sent(case: &mut Case<'_>, buffer: &mut Reorder<Digits>) {
    match buffer.next() {
        Next::Reply(place, reply) => {
            say_with(case, "sent ", place);
            case.say(" ");
            case.digits(&reply);
        }
        Next::Stranger(place) => say_with(case, "stranger ", place),
        Next::Closed => case.say("ended"),
        Next::Waiting => case.say("waiting"),
    }
}

/// The text of each fault of a buffer.
fn fault_texts(case: &mut Case<'_>) {
    for fault in [OpenFault::Full, OpenFault::Closed, OpenFault::Last] {
        case.tell(format!(in case.alloc; "open {fault}; "));
    }
    for fault in [
        SettleFault::Old,
        SettleFault::TooFar,
        SettleFault::Twice,
        SettleFault::Closed,
    ] {
        case.tell(format!(in case.alloc; "settle {fault}; "));
    }
}
