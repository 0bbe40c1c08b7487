// The check of a list of records: its two sides gathered in tables of its own, small ones where they are enough, and checked.
ghost use Rattle.std.specs.Prelude.{◌+◌, ◌≤◌, length};
ghost use Rattle.sets.specs.Rooms.{max_room};
ghost use Rattle.comparison.specs.Answers.{question_in};
ghost use Rattle.evidence.specs.Evidence.{Checked};
ghost use Rattle.records.specs.Offers.{offer_for};
ghost use Rattle.records.specs.Records.{columns_in};
ghost use Rattle.records.specs.Inner.{Shown, Gathers};

use crate::{PbRecord, SMALL_ROOM};
use evidence::{Answer, Offer};
use pattern::Question;
use sets::States;
use verdict::Refusal;

// One more than a list may have: enough for the check to refuse it in its own order.
const MOST_SHOWN: usize = States::MAX_ROOM + 1;

// How many records are looked at.
pub fn shown(listed: usize) -> usize
    ensures { Shown listed result }
{
    listed.min(MOST_SHOWN)
}

// The sides of the first `n` records. By index: three lists side by side.
pub fn gather(records: &[PbRecord], n: usize, lefts: &mut [u64], rights: &mut [u64])
    requires lefts_fit { n ≤ length lefts.old }
    requires rights_fit { n ≤ length rights.old }
    requires list_fits { n ≤ length records.now }
    ensures { Gathers records.now n lefts.new rights.new }
{
    for i in 0..n {
        lefts[i] = records[i].left;
        rights[i] = records[i].right;
    }
}

// Checks the first `n` records, of which so many are looked at, in sides of its own, of so many places.
#[inline(never)]
fn check_in<const PLACES: usize>(
    question: &Question,
    records: &[PbRecord],
    n: usize,
) -> Result<Answer, Refusal>
    requires places_most { PLACES ≤ max_room + 1 }
    requires sides_fit { n ≤ PLACES }
    requires shown { Shown (length records.now) n }
    ensures { Checked (offer_for (question_in question.now) (columns_in records.now)) result }
{
    let mut lefts = [0u64; PLACES];
    let mut rights = [0u64; PLACES];
    gather(records, n, &mut lefts, &mut rights);
    let offer = Offer {
        pattern: question.pattern,
        x: question.x,
        y: question.y,
        lefts: &lefts[..n],
        rights: &rights[..n],
    };
    offer.check()
}

// Checks the pairs of a list of records as evidence that the sets `x` and `y` have one language.
pub fn check(question: &Question, records: &[PbRecord]) -> Result<Answer, Refusal>
    ensures { Checked (offer_for (question_in question.now) (columns_in records.now)) result }
{
    let n = shown(records.len());
    if n <= SMALL_ROOM {
        return check_in::<SMALL_ROOM>(question, records, n);
    }
    check_in::<MOST_SHOWN>(question, records, n)
}
