// The comparison and the one-way question over a list of records: in tables of its own, small ones first.
ghost use Rattle.std.specs.Prelude.{◌≡◌, ◌≤◌, length};
ghost use Rattle.sets.specs.Rooms.{max_room};
ghost use Rattle.walk.specs.Columns.{Fit};
ghost use Rattle.comparison.specs.Answers.{question_in};
ghost use Rattle.records.specs.Answers.{compare_answer, inclusion_answer};
ghost use Rattle.records.specs.Records.{ComparedRecords, IncludedRecords};
ghost use Rattle.records.specs.Inner.{columns_lent, filled, Asked, Tried};

use crate::{PbRecord, SMALL_ROOM};
use comparison::inclusion::{Inclusion, joined};
use comparison::{Answer, Tables};
use pattern::Question;
use sets::States;
use verdict::Refusal;

// The room to ask for in tables of so many places: as much as they have, and one that is refused where the room itself is to be.
fn asked(room: usize, places: usize, listed: usize, bytes: usize) -> usize
    ensures { Asked room places listed bytes result }
{
    if room > States::MAX_ROOM || listed < room || bytes < room {
        return States::MAX_ROOM + 1;
    }
    room.min(places)
}

// Writes the first `n` records of the tables. By index: five lists side by side.
pub fn fill(tables: &Tables, n: usize, records: &mut [PbRecord])
    requires columns_fit { Fit n (columns_lent tables.now) }
    requires list_fits { n ≤ length records.old }
    ensures { records.new ≡ filled (columns_lent tables.now) records.old n }
{
    for i in 0..n {
        records[i] = PbRecord {
            left: tables.lefts[i],
            right: tables.rights[i],
            parent: tables.parents[i],
            letter: tables.taken[i],
        };
    }
}

// Compares in tables of its own, of so many places, and writes the records that are kept; none where the tables are full and the room is not.
#[inline(never)]
fn compare_in<const PLACES: usize>(
    question: &Question,
    room: usize,
    records: &mut [PbRecord],
    sequence: &mut [u8],
) -> Result<Answer, Refusal>
    requires { PLACES ≤ max_room }
    ensures { Tried (question_in question.now) room PLACES records.old sequence.old (compare_answer result) records.new sequence.new }
{
    let asks = asked(room, PLACES, records.len(), sequence.len());
    let mut tables = Tables {
        lefts: &mut [0; PLACES],
        rights: &mut [0; PLACES],
        parents: &mut [0; PLACES],
        taken: &mut [0; PLACES],
        sequence,
    };
    let answer = comparison::compare(question, asks, &mut tables)?;
    if PLACES < room && answer.is_full() {
        return Ok(answer);
    }
    fill(&tables, answer.kept(), records);
    Ok(answer)
}

// Compares two sets of states in a given room, and writes the records that are kept.
pub fn compare(
    question: &Question,
    room: usize,
    records: &mut [PbRecord],
    sequence: &mut [u8],
) -> Result<Answer, Refusal>
    ensures { ComparedRecords (question_in question.now) room records.old sequence.old (compare_answer result) records.new sequence.new }
{
    match compare_in::<SMALL_ROOM>(question, room, records, sequence) {
        Ok(Answer::Full { .. }) if SMALL_ROOM < room => {
            compare_in::<{ States::MAX_ROOM }>(question, room, records, sequence)
        }
        answer => answer,
    }
}

// Asks in a given room whether all that is accepted from `x` is accepted from `y`: the comparison of `x`+`y` with `y`.
pub fn within(
    question: &Question,
    room: usize,
    records: &mut [PbRecord],
    sequence: &mut [u8],
) -> Result<Inclusion, Refusal>
    ensures { IncludedRecords (question_in question.now) room records.old sequence.old (inclusion_answer result) records.new sequence.new }
{
    let either = joined(question);
    let answer = compare(&either, room, records, sequence)?;
    Ok(Inclusion::from(answer))
}
