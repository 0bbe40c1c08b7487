// The comparison of two sets of states: the walk of the scope (§5) over lent number slices.
#![tactic(auto)]

ghost use Rattle.std.specs.Prelude.{◌≡◌, ◌≤◌, leb, length, take, Ok};
ghost use Rattle.verdict.specs.Tests.{Decides, need, each};
ghost use Rattle.verdict.specs.Verdict.Verdict.{Fine};
ghost use Rattle.verdict.specs.Refusals.{said};
ghost use Rattle.sets.specs.Rooms.{default_room};
ghost use Rattle.comparison.specs.Answers.{number_of, values_of, question_in, call_in, compare_test, Compares};
ghost use Rattle.comparison.specs.Inner.{Spellable, Spells, Proposable, Proposed, Ready, Deals};

pub mod inclusion; // inclusion.rt: the one-way question

use congruence::Pairs;
use pattern::{Question, Shaped};
use sets::States;
use verdict::Refusal;

// What a comparison answers: kept, examined and, for DIFFERENT, length.
#[derive(Clone, Copy)]
pub enum Answer {
    Same {
        kept: usize,
        examined: usize,
    },
    Different {
        kept: usize,
        examined: usize,
        length: usize,
    },
    Full {
        kept: usize,
        examined: usize,
    },
}

impl Answer {
    // How many records are kept.
    pub fn kept(&self) -> usize
        ensures { result ≡ (values_of (Ok self.now)).kept }
    {
        match *self {
            Answer::Same { kept, .. }
            | Answer::Different { kept, .. }
            | Answer::Full { kept, .. } => kept,
        }
    }

    // Whether it is FULL.
    pub fn is_full(&self) -> bool
        ensures { Decides (number_of (Ok self.now) ≡ 2) result }
    {
        matches!(self, Answer::Full { .. })
    }
}

// What a comparison is lent: a list for each column of the records, and the sequence bytes.
#[derive(Drop)]
pub struct Tables<'a> {
    pub lefts: &'a mut [u64],
    pub rights: &'a mut [u64],
    pub parents: &'a mut [u16],
    pub taken: &'a mut [u8],
    pub sequence: &'a mut [u8],
}

impl Tables<'_> {
    ghost use Rattle.comparison.specs.Inner.{Lists};

    // The two sides of the first `kept` records.
    fn listed(&self, kept: usize) -> Pairs<'_>
        requires lefts { kept ≤ length self.now.lefts.now }
        requires rights { kept ≤ length self.now.rights.now }
        ensures { Lists self.now kept result }
    {
        Pairs {
            lefts: &self.lefts[..kept],
            rights: &self.rights[..kept],
        }
    }
}

// BAD-ROOM: the room is at most each of the bounds.
fn room_test(room: usize, bounds: &[usize]) -> Result<(), Refusal>
    ensures { said result ≡ each (λ most. need (leb room most) 13) bounds.now }
{
    verdict::every(bounds, |most| verdict::need(room <= most, Refusal::BadRoom))
}

// The tests of a comparison, in the scope's order.
fn compare_test(question: &Question, room: usize, tables: &Tables) -> Result<(), Refusal>
    ensures { said result ≡ compare_test (call_in question.now room tables.now) }
{
    let pattern = question.pattern;
    pattern.shape_test()?;
    let bounds = [
        States::MAX_ROOM,
        tables.sequence.len(),
        tables.lefts.len(),
        tables.rights.len(),
        tables.parents.len(),
        tables.taken.len(),
    ];
    room_test(room, &bounds)?;
    pattern.masks_test()?;
    pattern::set_test(pattern.states, question.x)?;
    pattern::set_test(pattern.states, question.y)
}

// A candidate: its two sets, and the record and the letter that they came from.
#[derive(Clone, Copy)]
struct Candidate {
    left: u64,
    right: u64,
    parent: usize,
    letter: usize,
}

// Candidate number `examined`, by the records whose sides are listed.
fn propose(question: &Question, listed: &Pairs, examined: usize) -> Candidate
    requires { Proposable (question_in question.now).pattern listed.now.lefts.now examined }
    ensures { Proposed (question_in question.now) listed.now.lefts.now listed.now.rights.now examined result }
{
    let Some(e) = examined.checked_sub(1) else {
        return Candidate {
            left: question.x,
            right: question.y,
            parent: 0,
            letter: 0,
        };
    };
    let pattern = question.pattern;
    let parent = e / pattern.letters;
    let letter = e % pattern.letters;
    let shaped = Shaped { pattern };
    Candidate {
        left: shaped.next(listed.lefts[parent], letter),
        right: shaped.next(listed.rights[parent], letter),
        parent,
        letter,
    }
}

// Writes the letters from the start to record `from`, one of the first `kept`, and `last` after them; gives how many they are.
// The way up is gone twice, to count the letters and then to write them from the end: no second buffer. By `while`: each record names the next.
fn spell(tables: &mut Tables, kept: usize, from: usize, last: u8) -> usize
    requires { Spellable (take kept tables.old.parents.now) (take kept tables.old.taken.now) from tables.old.sequence.now }
    ensures { Spells tables.old kept from last result tables.new }
{
    let mut count = 0;
    let mut i = from;
    while i != 0 {
        i = usize::from(tables.parents[i]);
        count += 1;
    }
    tables.sequence[count] = last;
    let mut at = count;
    let mut j = from;
    while j != 0 {
        at -= 1;
        tables.sequence[at] = tables.taken[j];
        j = usize::from(tables.parents[j]);
    }
    count + 1
}

// What became of one candidate: the walk goes on with so many records kept, or it stops.
#[derive(Clone, Copy)]
enum Dealt {
    On(usize),
    Different(usize),
    Full,
}

// Deals with candidate number `examined`, which is there, where `kept` records are kept: rules 1 to 4 in their order.
#[inline(always)]
fn deal(
    question: &Question,
    room: usize,
    kept: usize,
    examined: usize,
    tables: &mut Tables,
) -> Dealt
    requires { Ready (call_in question.now room tables.old) kept examined }
    ensures { Deals question.now room kept examined tables.old result tables.new }
{
    let listed = tables.listed(kept);
    let next = propose(question, &listed, examined);
    let Candidate {
        left,
        right,
        parent,
        letter,
    } = next;
    if listed.congruent(left, right) {
        return Dealt::On(kept);
    }
    let finals = question.pattern.finals;
    let a = sets::meets(left, finals);
    let b = sets::meets(right, finals);
    if a != b {
        if examined == 0 {
            return Dealt::Different(0);
        }
        let length = spell(tables, kept, parent, letter as u8);
        return Dealt::Different(length);
    }
    if kept >= room {
        return Dealt::Full;
    }
    tables.lefts[kept] = left;
    tables.rights[kept] = right;
    tables.parents[kept] = parent as u16;
    tables.taken[kept] = letter as u8;
    Dealt::On(kept + 1)
}

// The walk of a question that is not refused: one candidate after another, until none is left. By `while`: each record kept adds candidates.
#[inline(always)]
fn run(question: &Question, room: usize, tables: &mut Tables) -> Answer
    requires { compare_test (call_in question.now room tables.old) ≡ Fine }
    ensures { Compares question.now room tables.old (Ok result) tables.new }
{
    let mut kept = 0;
    let mut examined = 0;
    while examined < 1 + question.pattern.letters * kept {
        let dealt = deal(question, room, kept, examined, tables);
        examined += 1;
        match dealt {
            Dealt::On(more) => kept = more,
            Dealt::Different(length) => {
                return Answer::Different {
                    kept,
                    examined,
                    length,
                };
            }
            Dealt::Full => return Answer::Full { kept, examined },
        }
    }
    Answer::Same { kept, examined }
}

// Compares two sets of states of a pattern in a given room.
#[inline(always)]
pub fn compare(question: &Question, room: usize, tables: &mut Tables) -> Result<Answer, Refusal>
    ensures { Compares question.now room tables.old result tables.new }
{
    compare_test(question, room, tables)?;
    Ok(run(question, room, tables))
}

// The short form: the default room.
pub fn compare_default(question: &Question, tables: &mut Tables) -> Result<Answer, Refusal>
    ensures { Compares question.now default_room tables.old result tables.new }
{
    compare(question, States::DEFAULT_ROOM, tables)
}
