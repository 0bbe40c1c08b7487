// Evidence: the check of a list of pairs that somebody else offers.
#![tactic(auto)]

ghost use Rattle.std.specs.Prelude.{◌≡◌, ◌↔◌, IsTrue};
ghost use Rattle.verdict.specs.Refusals.{said};
ghost use Rattle.pattern.specs.Lent.{pattern_in};
ghost use Rattle.evidence.specs.Evidence.{list_test, Holds, ByPairs};

use congruence::Pairs;
use pattern::{Pattern, Shaped};
use sets::States;
use verdict::{Refusal, need};

// What the check of an offer answers that is not refused; NOT-PROVED has its place. No `Option`: these are the scope's two words.
#[derive(Clone, Copy)]
pub enum Answer {
    Proved,
    NotProved(usize),
}

// What is offered: a pattern, X and Y, and the two sides of a list of pairs.
#[derive(Clone, Copy)]
pub struct Offer<'a> {
    pub pattern: Pattern<'a>,
    pub x: u64,
    pub y: u64,
    pub lefts: &'a [u64],
    pub rights: &'a [u64],
}

// BAD-LIST: a list has at most as many pairs as the largest room, and two sides of one length.
#[tactic(auto, unfolding(crate::specs::Evidence::list_test), using(verdict::proofs::Refusals::said_held))]
fn list_test(lefts: usize, rights: usize) -> Result<(), Refusal>
    ensures { said result ≡ list_test lefts rights }
{
    need(
        lefts <= States::MAX_ROOM && lefts == rights,
        Refusal::BadList,
    )
}

// Whether the pair (a, b) agrees on the empty sequence and has successors congruent by the list.
fn holds(pattern: &Shaped, pairs: &Pairs, a: u64, b: u64) -> bool
    ensures { IsTrue result ↔ Holds (pattern_in pattern.now.pattern) pairs.now.lefts.now pairs.now.rights.now a b }
{
    let finals = pattern.pattern.finals;
    if sets::meets(a, finals) != sets::meets(b, finals) {
        return false;
    }
    for letter in 0..pattern.pattern.letters {
        if !pairs.congruent(pattern.next(a, letter), pattern.next(b, letter)) {
            return false;
        }
    }
    true
}

// The answer to an offer that starts: the lowest failing pair, if any, decides.
fn by_pairs(pattern: &Shaped, pairs: &Pairs) -> Answer
    ensures { ByPairs (pattern_in pattern.now.pattern) pairs.now.lefts.now pairs.now.rights.now result }
{
    for place in 0..pairs.lefts.len() {
        if !holds(pattern, pairs, pairs.lefts[place], pairs.rights[place]) {
            return Answer::NotProved(place);
        }
    }
    Answer::Proved
}

impl Offer<'_> {
    ghost use Rattle.evidence.specs.Lent.{offer_in};
    ghost use Rattle.evidence.specs.Evidence.{pairs_test, check_test, Checked};

    // BAD-SET: the starting pair and all listed ones.
    fn pairs_test(&self) -> Result<(), Refusal>
        ensures { said result ≡ pairs_test self.now.pattern.states self.now.x self.now.y self.now.lefts.now self.now.rights.now }
    {
        let states = self.pattern.states;
        pattern::set_test(states, self.x)?;
        pattern::set_test(states, self.y)?;
        pattern::sets_test(states, self.lefts)?;
        pattern::sets_test(states, self.rights)
    }

    // The tests of `check`, in the scope's order.
    pub fn check_test(&self) -> Result<(), Refusal>
        ensures { said result ≡ check_test (offer_in self.now) }
    {
        self.pattern.shape_test()?;
        list_test(self.lefts.len(), self.rights.len())?;
        self.pattern.masks_test()?;
        self.pairs_test()
    }

    // Checks an offered list of pairs: the starting pair first, then the pairs in their order.
    pub fn check(&self) -> Result<Answer, Refusal>
        ensures { Checked (offer_in self.now) result }
    {
        self.check_test()?;
        let pairs = Pairs {
            lefts: self.lefts,
            rights: self.rights,
        };
        if !pairs.congruent(self.x, self.y) {
            return Ok(Answer::NotProved(self.lefts.len()));
        }
        let pattern = Shaped {
            pattern: self.pattern,
        };
        Ok(by_pairs(&pattern, &pairs))
    }
}
