// Patterns: their tests, their successor sets, and the judging of one sequence.
#![tactic(auto)]

ghost use Rattle.std.specs.Prelude.{◌≡◌, ◌*◌, ◌≤◌, ◌<◌, length};
ghost use Rattle.verdict.specs.Tests.{each};
ghost use Rattle.verdict.specs.Refusals.{said};
ghost use Rattle.pattern.specs.Pattern.{Sized};
ghost use Rattle.pattern.specs.Tests.{size_test, table_test, set_test, shape_test, masks_test, pattern_test};
ghost use Rattle.pattern.specs.Judge.{letter_test};

use sets::States;
use verdict::{Refusal, need};

// The bits of a mask: from so many states on, every mask is a set of states.
const MASK_BITS: usize = 64;

// A pattern as it is lent: its numbers, and the rows by state and letter.
#[derive(Clone, Copy)]
pub struct Pattern<'a> {
    pub states: usize,
    pub letters: usize,
    pub finals: u64,
    pub rows: &'a [u64],
}

// Two sets of states of one pattern, as they are lent.
#[derive(Clone, Copy)]
pub struct Question<'a> {
    pub pattern: Pattern<'a>,
    pub x: u64,
    pub y: u64,
}

// A pattern of at most 64 states with a row for each state and letter, as every pattern is that `shape_test` lets through.
#[derive(Clone, Copy)]
pub struct Shaped<'a> {
    pub pattern: Pattern<'a>,
    ghost states_bound: { pattern.states ≤ 64 },
    ghost rows_len: { length pattern.rows.now ≡ pattern.states * pattern.letters },
}

// BAD-SIZE: a number of states or letters.
pub fn size_test(most: usize, v: usize) -> Result<(), Refusal>
    ensures { said result ≡ size_test most v }
{
    need((1..=most).contains(&v), Refusal::BadSize)
}

// BAD-TABLE: so many rows.
fn table_test(states: usize, letters: usize, count: usize) -> Result<(), Refusal>
    requires { Sized states letters }
    ensures { said result ≡ table_test states letters count }
{
    need(count == states * letters, Refusal::BadTable)
}

// BAD-SET: one mask.
pub fn set_test(states: usize, mask: u64) -> Result<(), Refusal>
    ensures { said result ≡ set_test states mask }
{
    if MASK_BITS <= states {
        return Ok(());
    }
    need(mask >> states == 0, Refusal::BadSet)
}

// BAD-SET: each mask of a list.
pub fn sets_test(states: usize, masks: &[u64]) -> Result<(), Refusal>
    ensures { said result ≡ each (set_test states) masks.now }
{
    verdict::every(masks, |mask| set_test(states, mask))
}

// BAD-LETTER: one letter.
fn letter_test(letters: usize, letter: u8) -> Result<(), Refusal>
    ensures { said result ≡ letter_test letters letter }
{
    need(usize::from(letter) < letters, Refusal::BadLetter)
}

// BAD-LETTER: each letter of a sequence.
fn letters_test(letters: usize, sequence: &[u8]) -> Result<(), Refusal>
    ensures { said result ≡ each (letter_test letters) sequence.now }
{
    verdict::every(sequence, |letter| letter_test(letters, letter))
}

impl Pattern<'_> {
    ghost use Rattle.pattern.specs.Lent.{pattern_in};
    ghost use Rattle.pattern.specs.Judge.{judge_test, judged, told};

    // BAD-SIZE and BAD-TABLE, which every call looks at first.
    pub fn shape_test(&self) -> Result<(), Refusal>
        ensures { said result ≡ shape_test (pattern_in self.now) }
    {
        size_test(64, self.states)?;
        size_test(32, self.letters)?;
        table_test(self.states, self.letters, self.rows.len())
    }

    // BAD-SET for the pattern's own masks.
    pub fn masks_test(&self) -> Result<(), Refusal>
        ensures { said result ≡ masks_test (pattern_in self.now) }
    {
        set_test(self.states, self.finals)?;
        sets_test(self.states, self.rows)
    }

    // Judges a pattern: what is against it, if anything.
    pub fn pattern_test(&self) -> Result<(), Refusal>
        ensures { said result ≡ pattern_test (pattern_in self.now) }
    {
        self.shape_test()?;
        self.masks_test()
    }

    // The tests of `judge`, in the scope's order.
    fn judge_test(&self, set: u64, sequence: &[u8]) -> Result<(), Refusal>
        ensures { said result ≡ judge_test (pattern_in self.now) set sequence.now }
    {
        self.pattern_test()?;
        set_test(self.states, set)?;
        letters_test(self.letters, sequence)
    }

    // Judges one sequence from one set: whether it is accepted.
    pub fn judge(&self, set: u64, sequence: &[u8]) -> Result<bool, Refusal>
        ensures { told result ≡ judged (pattern_in self.now) set sequence.now }
    {
        self.judge_test(set, sequence)?;
        let end = Shaped { pattern: *self }.reached(set, sequence);
        Ok(sets::meets(end, self.finals))
    }
}

impl Shaped<'_> {
    ghost use Rattle.pattern.specs.Language.{reach, Over};
    ghost use Rattle.pattern.specs.Language;
    ghost use Rattle.pattern.specs.Lent.{pattern_in};

    // The set that `letter` takes `set` to. By `while` over the states that are left: a `for` would look at the others too.
    pub fn next(&self, set: u64, letter: usize) -> u64
        requires { letter < self.now.pattern.letters }
        ensures { result ≡ Language.next (pattern_in self.now.pattern) set letter }
    {
        let Pattern {
            states,
            letters,
            rows,
            ..
        } = self.pattern;
        let mut reached = States::empty().mask;
        let mut left = set;
        while left != 0 {
            let s = left.trailing_zeros() as usize;
            if s >= states {
                return reached;
            }
            reached |= rows[s * letters + letter];
            left &= left - 1;
        }
        reached
    }

    // The set that a sequence leads to.
    fn reached(&self, set: u64, sequence: &[u8]) -> u64
        requires { Over self.now.pattern.letters sequence.now }
        ensures { result ≡ reach (pattern_in self.now.pattern) set sequence.now }
    {
        let mut at = set;
        for letter in sequence {
            at = self.next(at, usize::from(*letter));
        }
        at
    }
}
