//! Which texts of a run are folded on next: several side by side, or one alone.
//!
//! Side by side each lane takes as long as the longest text. So texts go together whose blocks fill
//! the lanes best: what is short doesn't wait beside what is long, unless a lane would stay empty.

ghost use Rattle.std.specs.Prelude.{◌<◌};

use crate::prepared::Prepared;
use sha256x8::BLOCK;

/// How many texts are folded on side by side.
pub(crate) const LANES: usize = 8;

/// From how many on that costs less than one after the other.
pub(crate) const FEWEST: usize = 4;

/// Eight lanes cost what three and a half texts cost one after the other: PAID halves.
const PAID: usize = 7;

/// The place of a lane that has nothing to do, which no run has.
const NOWHERE: usize = usize::MAX;

/// How many numbers of texts left are told apart. The last stands for all above it too.
const LEVELS: usize = 32;

/// How many sizes of texts are told apart.
const SIZES: usize = 7;

/// The most blocks that an HMAC of each size takes, but for the last: half as many again as the
/// least.
const MOST_BLOCKS: [usize; SIZES - 1] = [6, 10, 16, 25, 38, 58];

/// What is done next.
#[derive(Drop)]
pub(crate) enum Step {
    /// The next texts at these places, in order, are folded on side by side.
    Together([usize; LANES]),
    /// The next text at this place is folded on alone.
    Alone(usize),
    /// Too few have a text left.
    End,
}

/// The step that comes next. Where texts go side by side, those with the most texts behind them
/// are first; where that doesn't pay, the longest goes alone, so that those behind it may join.
pub(crate) fn next_step(run: &[Prepared<'_>]) -> Step {
    let sizes = Sizes::of(run);
    if sizes.count < FEWEST {
        return Step::End;
    }
    let group = sizes.best_group();
    if group.pays() {
        Step::Together(group.places(run))
    } else {
        Step::Alone(place_of_longest(run))
    }
}

/// How many blocks of SHA-256 the HMAC of a text takes: those of its end, and three of pads and
/// digests.
fn block_count(text: &[u8]) -> usize {
    (text.len() + 8) / BLOCK + 4
}

/// The size of a text by the blocks of its HMAC.
fn size_of(blocks: usize) -> usize
    ensures { result < SIZES }
{
    for size in 0..SIZES - 1 {
        if blocks <= MOST_BLOCKS[size] {
            return size;
        }
    }
    SIZES - 1
}

/// The place whose next text is the longest.
fn place_of_longest(run: &[Prepared<'_>]) -> usize {
    let mut longest = 0;
    let mut found = NOWHERE;
    for place in 0..run.len() {
        let blocks = block_count(run[place].text());
        if run[place].left() > 0 && blocks > longest {
            longest = blocks;
            found = place;
        }
    }
    found
}

/// The next texts of a run, by their sizes.
#[derive(Drop)]
struct Sizes {
    /// How many there are.
    count: usize,
    /// How many of each size.
    counts: [usize; SIZES],
    /// The blocks of each size together.
    blocks: [usize; SIZES],
    /// The blocks of the longest of each size.
    longest: [usize; SIZES],
}

impl Sizes {
    fn of(run: &[Prepared<'_>]) -> Sizes {
        let mut count: usize = 0;
        let mut counts: [usize; SIZES] = [0; SIZES];
        let mut blocks: [usize; SIZES] = [0; SIZES];
        let mut longest: [usize; SIZES] = [0; SIZES];
        for prepared in run {
            if prepared.left() > 0 {
                let needed = block_count(prepared.text());
                let size = size_of(needed);
                count = count.saturating_add(1);
                counts[size] = counts[size].saturating_add(1);
                blocks[size] = blocks[size].saturating_add(needed);
                longest[size] = longest[size].max(needed);
            }
        }
        Sizes {
            count,
            counts,
            blocks,
            longest,
        }
    }

    /// The group that fills the lanes best, the one of shorter texts where two fill them alike. It
    /// has no texts only where none is left.
    fn best_group(&self) -> Group {
        let mut best = self.group_up_to(0);
        for size in 1..SIZES {
            if self.counts[size] > 0 {
                let group = self.group_up_to(size);
                if best.longest == 0 || group.fills_better_than(&best) {
                    best = group;
                }
            }
        }
        best
    }

    /// The longest texts up to a size, as many as there are lanes.
    fn group_up_to(&self, greatest: usize) -> Group
        requires { greatest < SIZES }
    {
        let mut group = Group {
            greatest,
            least: greatest,
            spare: 0,
            blocks: 0,
            longest: self.longest[greatest],
        };
        let mut lanes = LANES;
        for size in (0..greatest + 1).rev() {
            let count = self.counts[size];
            if count > 0 && lanes > 0 {
                let taken = count.min(lanes);
                let blocks = self.blocks[size].saturating_mul(taken) / count;
                group.least = size;
                group.spare = taken;
                group.blocks = group.blocks.saturating_add(blocks);
                lanes -= taken;
            }
        }
        group
    }
}

/// Texts that may go side by side: all between two sizes, but of the least one only some.
#[derive(Drop)]
struct Group {
    greatest: usize,
    least: usize,
    /// How many of the least size.
    spare: usize,
    /// The blocks of all together.
    blocks: usize,
    /// The blocks of the longest, which each lane takes.
    longest: usize,
}

impl Group {
    /// Whether more of its lanes' blocks are of use than of the other's.
    fn fills_better_than(&self, other: &Group) -> bool {
        self.blocks.saturating_mul(other.longest) > other.blocks.saturating_mul(self.longest)
    }

    /// Whether side by side costs less than one after the other.
    fn pays(&self) -> bool {
        self.blocks.saturating_mul(2) >= self.longest.saturating_mul(PAID)
    }

    /// The places of its texts, in order; of the least size those with the most texts left.
    fn places(&self, run: &[Prepared<'_>]) -> [usize; LANES] {
        let mut bar = Bar::of(&tally(run, self.least), self.spare);
        let mut places = [NOWHERE; LANES];
        let mut busy = 0;
        for place in 0..run.len() {
            if busy < LANES && self.admits(&run[place], &mut bar) {
                places[busy] = place;
                busy += 1;
            }
        }
        places
    }

    /// Whether the next text is of the group, where the bar is that of the least size.
    fn admits(&self, prepared: &Prepared<'_>, bar: &mut Bar) -> bool {
        let left = prepared.left();
        let size = size_of(block_count(prepared.text()));
        if left == 0 || size < self.least || size > self.greatest {
            return false;
        }
        size > self.least || bar.admits(left)
    }
}

/// Who is chosen of a size: those with more texts left than the level, and so many of those at it.
#[derive(Drop)]
struct Bar {
    level: usize,
    spare: usize,
}

impl Bar {
    /// The bar that so many get over, or all that have a text left.
    fn of(tally: &[u8; LEVELS], count: usize) -> Bar {
        let mut spare = count;
        for level in (1..LEVELS).rev() {
            let here = tally[level] as usize;
            if here > spare {
                return Bar { level, spare };
            }
            spare -= here;
        }
        Bar { level: 0, spare: 0 }
    }

    /// Whether a place with so many texts left gets over it.
    fn admits(&mut self, left: usize) -> bool {
        if left == self.level && self.spare > 0 {
            self.spare -= 1;
            return true;
        }
        left > self.level
    }
}

/// How many next texts of a size have each number of texts left, up to the last that is told apart.
fn tally(run: &[Prepared<'_>], size: usize) -> [u8; LEVELS] {
    let mut tally: [u8; LEVELS] = [0; LEVELS];
    for prepared in run {
        let level = prepared.left().min(LEVELS - 1);
        if size_of(block_count(prepared.text())) == size {
            tally[level] = tally[level].saturating_add(1);
        }
    }
    tally
}
