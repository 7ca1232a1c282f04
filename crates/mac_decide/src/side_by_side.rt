//! The replies to a run of jobs, whose texts are hashed side by side.

ghost use Rattle.std.specs.Prelude.{◌≡◌, ◌+◌, ◌++◌, ◌∷◌, ◌≤◌, ◌<◌, [], All, IfOk, OnOk, length, map, slice_get, Some, get_or};
ghost use Rattle.mac_wire.specs.Reply.{IsReply};
ghost use Rattle.mac_decide.specs.Prepared.{AreNext, comes_to, left_of, reply_to_job, signature_of};
ghost use Rattle.mac_decide.specs.Seen.{AreReady, IsReady, due_of};
ghost use Rattle.mac_decide.specs.Viewed.{viewed};

use crate::choosing::{FEWEST, LANES, Step, next_step};
use crate::job::Job;
use crate::job_view::JobView;
use crate::keyed::keys_at;
use crate::looking::{Sight, count_asked, look_at_all, look_at_job};
use crate::one_by_one::replies_one_by_one;
use crate::prepared::Prepared;
use crate::preparing::prepare;
use crate::remembering::note;
use crate::rooms::{RUN, Rooms};
use crate::seen::SeenTokens;
use arrayvec::ArrayVec;
use mac_hmac::{Sig, extend_each, start_each};
use mac_wire::{NoMemory, Reply};
use std::alloc::Global;

/// How many chains a token's texts are folded into at most: one under each of two keys.
const CHAINS: usize = 2;

/// The replies to the jobs, in order. Signatures are computed up to eight side by side: those that
/// verifies compare, and those of tokens that are minted or attenuated.
pub fn answer_all(alloc: Global, jobs: &[Job]) -> Result<Vec<Reply>, NoMemory>
    ensures { IfOk result (λ replies. replies.items ≡ map reply_to_job jobs.now) }
{
    let mut replies = Vec::with_capacity(alloc, jobs.len())?;
    let mut rooms = Rooms::new(alloc, SeenTokens::none());
    for run in jobs.chunks(RUN) {
        let views = views_of(run);
        let answered = answer_run(&mut rooms, alloc, views.as_slice())?;
        append(&mut replies, answered)?;
    }
    Ok(replies)
}

/// The replies to the jobs, in order, where they lie: many runs of [`answer_run`], in rooms of
/// their own beside the memory of tokens.
pub fn answer_views(
    seen: &SeenTokens,
    alloc: Global,
    jobs: &[JobView<'_>],
) -> Result<Vec<Reply>, NoMemory>
    ensures replies { IfOk result (λ replies.
        replies.items ≡ map reply_to_job (map viewed jobs.now)) }
    ensures sendable { IfOk result (λ replies. All IsReply replies.items) }
{
    let mut replies = Vec::with_capacity(alloc, jobs.len())?;
    let mut rooms = Rooms::new(alloc, seen.share()?);
    for run in jobs.chunks(RUN) {
        append(&mut replies, answer_run(&mut rooms, alloc, run)?)?;
    }
    Ok(replies)
}

/// Puts the replies to a run behind those that are there.
fn append(replies: &mut Vec<Reply>, answered: ArrayVec<Reply, RUN>) -> Result<(), NoMemory>
    ensures { OnOk result (replies.new.items ≡ replies.old.items ++ answered.items) }
{
    for reply in answered {
        replies.push(reply)?;
    }
    Ok(())
}

/// The jobs of a run, lent.
fn views_of(run: &[Job]) -> ArrayVec<JobView<'_>, RUN>
    requires { length run.now ≤ RUN }
    ensures { map viewed result.items ≡ run.now }
{
    let mut views = ArrayVec::new();
    for job in run {
        views.push(JobView::of(job));
    }
    views
}

/// The replies to the jobs of a run, in order. Its jobs are answered where they lie: what is not
/// read as JSON and makes no token takes no memory, but for the rooms that base64 text asks for.
pub fn answer_run(
    rooms: &mut Rooms,
    alloc: Global,
    jobs: &[JobView<'_>],
) -> Result<ArrayVec<Reply, RUN>, NoMemory>
    requires { length jobs.now ≤ RUN }
    ensures replies { IfOk result (λ replies.
        replies.items ≡ map reply_to_job (map viewed jobs.now)) }
    ensures sendable { IfOk result (λ replies. All IsReply replies.items) }
{
    let replies = replies_to(rooms, alloc, jobs);
    rooms.give_back(alloc);
    replies
}

/// The same. What a memory tells up to the first job that it doesn't tell asks for no places.
fn replies_to(
    rooms: &mut Rooms,
    alloc: Global,
    jobs: &[JobView<'_>],
) -> Result<ArrayVec<Reply, RUN>, NoMemory>
    requires { length jobs.now ≤ RUN }
    ensures { IfOk result (λ replies.
        replies.items ≡ map reply_to_job (map viewed jobs.now)) }
{
    let mut replies = ArrayVec::new();
    rooms.asked = 0;
    for place in 0..jobs.len() {
        match look_at_job(&rooms.seen, alloc, &jobs[place])? {
            Sight::Told(reply) => replies.push(reply),
            first => {
                let others = replies_from(rooms, alloc, first, &jobs[place + 1..])?;
                join(&mut replies, others);
                return Ok(replies);
            }
        }
    }
    Ok(replies)
}

/// Puts further replies behind those that are there.
fn join(replies: &mut ArrayVec<Reply, RUN>, others: ArrayVec<Reply, RUN>)
    requires { length replies.old.items + length others.items ≤ RUN }
    ensures { replies.new.items ≡ replies.old.items ++ others.items }
{
    for reply in others {
        replies.push(reply);
    }
}

/// The reply to what was seen first, and those to the jobs behind it.
fn replies_from<'a>(
    rooms: &mut Rooms,
    alloc: Global,
    first: Sight<'a>,
    jobs: &[JobView<'a>],
) -> Result<ArrayVec<Reply, RUN>, NoMemory>
    requires { length jobs.now < RUN }
    ensures { IfOk result (λ replies.
        replies.items ≡ due_of first.entry ∷ map reply_to_job (map viewed jobs.now)) }
{
    let mut sights = ArrayVec::new();
    sights.push(first);
    look_at_all(&mut sights, &rooms.seen, alloc, jobs)?;
    rooms.asked = count_asked(sights.as_slice());
    if rooms.asked < FEWEST {
        replies_one_by_one(&mut rooms.held, &rooms.seen, alloc, sights)
    } else {
        replies_side_by_side(&mut rooms.held, &rooms.seen, alloc, sights)
    }
}

/// The replies to what was seen, in order.
fn replies_side_by_side(
    rooms: &mut [Vec<u8>],
    seen: &SeenTokens,
    alloc: Global,
    sights: ArrayVec<Sight<'_>, RUN>,
) -> Result<ArrayVec<Reply, RUN>, NoMemory>
    requires count { length sights.items ≤ RUN }
    requires rooms { length sights.items ≤ length rooms.old }
    ensures { IfOk result (λ replies. replies.items ≡ map due_of sights.entry.items) }
{
    let mut run = ArrayVec::new();
    prepare_all(&mut run, rooms, alloc, sights.as_slice())?;
    walk(run.as_mut_slice());
    replies_when_ready(seen, alloc, sights, run)
}

/// Puts what the replies to what was seen wait for into an empty run.
fn prepare_all<'a>(
    run: &mut ArrayVec<Prepared<'a>, RUN>,
    rooms: &'a mut [Vec<u8>],
    alloc: Global,
    sights: &[Sight<'a>],
) -> Result<(), NoMemory>
    requires empty { run.old.items ≡ [] }
    requires count { length sights.now ≤ RUN }
    requires rooms { length sights.now ≤ length rooms.old }
    ensures ready { OnOk result (AreReady sights.now (map comes_to run.new.items)) }
    ensures each { OnOk result (length run.new.items ≡ length sights.now) }
{
    for (room, sight) in rooms.iter_mut().zip(sights) {
        match sight {
            Sight::Told(_) => run.push(Prepared::default()),
            Sight::Asked(asking) => run.push(prepare(room, alloc, asking)?),
        }
    }
    Ok(())
}

/// The replies to what was seen, in order, once no other needs a text of theirs folded on.
fn replies_when_ready(
    seen: &SeenTokens,
    alloc: Global,
    sights: ArrayVec<Sight<'_>, RUN>,
    run: ArrayVec<Prepared<'_>, RUN>,
) -> Result<ArrayVec<Reply, RUN>, NoMemory>
    requires count { length sights.items ≤ RUN }
    requires each { length sights.items ≤ length run.items }
    requires ready { AreReady sights.items (map comes_to run.items) }
    ensures { IfOk result (λ replies. replies.items ≡ map due_of sights.entry.items) }
{
    let mut replies = ArrayVec::new();
    for (sight, prepared) in sights.into_iter().zip(run) {
        replies.push(reply_when_ready(seen, alloc, sight, prepared)?);
    }
    Ok(replies)
}

/// The reply to what was seen, once no other needs a text of it folded on.
fn reply_when_ready(
    seen: &SeenTokens,
    alloc: Global,
    sight: Sight<'_>,
    prepared: Prepared<'_>,
) -> Result<Reply, NoMemory>
    requires { IsReady sight (comes_to prepared) }
    ensures { IfOk result (λ reply. reply ≡ due_of sight.entry) }
{
    match sight {
        Sight::Told(reply) => Ok(reply),
        Sight::Asked(asking) => {
            let reply = prepared.into_reply(alloc)?;
            note(seen, alloc, &asking, &reply);
            Ok(reply)
        }
    }
}

/// Folds texts on, up to eight side by side, as long as enough of the run have one left.
fn walk(run: &mut [Prepared<'_>])
    ensures { map comes_to run.new ≡ map comes_to run.old }
{
    for _ in 0..texts_left(run).saturating_mul(CHAINS) {
        match next_step(run) {
            Step::Together(places) => {
                let signatures = together(run, &places);
                fold_all(run, &places, &signatures);
            }
            Step::Alone(place) => fold_alone(run, place),
            Step::End => return,
        }
    }
}

/// How many texts the whole run has left.
fn texts_left(run: &[Prepared<'_>]) -> usize {
    let mut texts: usize = 0;
    for prepared in run {
        texts = texts.saturating_add(prepared.left());
    }
    texts
}

/// Folds the next text at this place on, by itself.
fn fold_alone(run: &mut [Prepared<'_>], place: usize)
    ensures { map comes_to run.new ≡ map comes_to run.old }
{
    if place < run.len() {
        run[place].fold_next();
    }
}

/// The signatures after the next texts at these places, side by side.
fn together(run: &[Prepared<'_>], places: &[usize; LANES]) -> [Sig; LANES]
    ensures { AreNext run.now places.now result }
{
    let signatures = [
        signature_at(run, places[0]),
        signature_at(run, places[1]),
        signature_at(run, places[2]),
        signature_at(run, places[3]),
        signature_at(run, places[4]),
        signature_at(run, places[5]),
        signature_at(run, places[6]),
        signature_at(run, places[7]),
    ];
    let texts = [
        text_at(run, places[0]),
        text_at(run, places[1]),
        text_at(run, places[2]),
        text_at(run, places[3]),
        text_at(run, places[4]),
        text_at(run, places[5]),
        text_at(run, places[6]),
        text_at(run, places[7]),
    ];
    match keys_at(run, places) {
        Some(keys) => start_each(&keys, &texts),
        None => extend_each(&signatures, &texts),
    }
}

/// The signature so far at a place of the run; zeros where the run has no such place.
fn signature_at(run: &[Prepared<'_>], place: usize) -> Sig
    ensures { (prepared : Prepared) → slice_get run.now place ≡ Some prepared
        → result ≡ signature_of prepared }
{
    match run.get(place) {
        Some(prepared) => prepared.signature(),
        None => Sig::from_bytes([0; 32]),
    }
}

/// The next text at a place of the run; no bytes where the run has no such place.
fn text_at<'a>(run: &[Prepared<'a>], place: usize) -> &'a [u8]
    ensures { (prepared : Prepared) → slice_get run.now place ≡ Some prepared
        → result.now ≡ get_or (left_of prepared) 0 [] }
{
    match run.get(place) {
        Some(prepared) => prepared.text(),
        None => &[],
    }
}

/// Takes the signatures after the next texts at these places. A place that isn't behind those
/// before it is passed over, so that no text is folded on twice.
fn fold_all(run: &mut [Prepared<'_>], places: &[usize; LANES], signatures: &[Sig; LANES])
    requires { AreNext run.old places.now signatures.now }
    ensures { map comes_to run.new ≡ map comes_to run.old }
{
    let mut next = 0;
    for lane in 0..LANES {
        let place = places[lane];
        if next <= place && place < run.len() {
            run[place].fold(signatures[lane]);
            next = place + 1;
        }
    }
}
