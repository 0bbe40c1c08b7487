// Closing a set by a list of pairs, and congruence decided by it.
#![tactic(auto)]

ghost use Rattle.std.specs.Prelude.{◌≡◌, length};
ghost use Rattle.verdict.specs.Tests.{Decides};
ghost use Rattle.pattern.specs.Pattern.{AllGood};
ghost use Rattle.congruence.specs.Congruence.{Congruent};
ghost use Rattle.congruence.specs.Closing.{added, Closes, Passes, Toward};

// A list of pairs, as its two sides.
#[derive(Clone, Copy)]
pub struct Pairs<'a> {
    pub lefts: &'a [u64],
    pub rights: &'a [u64],
    ghost paired: { length lefts.now ≡ length rights.now },
}

// Where `a` lies within the mask, `b` is added.
fn added(a: u64, b: u64, mask: u64) -> u64
    ensures { result ≡ added a b mask }
{
    if sets::within(a, mask) {
        return sets::union(b, mask);
    }
    mask
}

// Every mask is a set of 64 states, by its type. It does nothing, and tells so much of a slice in a field.
fn all_fit(masks: &[u64])
    ensures { AllGood 64 masks.now }
{}

impl Pairs<'_> {
    ghost use Rattle.congruence.specs.Lent.{listed_in};

    // One pass over the listed pairs: where one side of a pair lies within the set, the other is added. It ends once the goal lies within,
    // and most pairs add nothing: the goal is looked at where one has, and at the start.
    pub fn pass(&self, set: u64, goal: u64) -> u64
        ensures { Passes (listed_in self.now) set goal result }
    {
        if sets::within(goal, set) {
            return set;
        }
        let mut mask = set;
        for (a, b) in self.lefts.iter().zip(self.rights) {
            if sets::within(*a, mask) || sets::within(*b, mask) {
                mask = added(*a, *b, mask);
                mask = added(*b, *a, mask);
                if sets::within(goal, mask) {
                    return mask;
                }
            }
        }
        mask
    }

    // The set grown by the listed pairs toward a goal: passes until one adds nothing, as it does where the goal lies within.
    // By `loop`: how many passes that takes shows only when it ends.
    pub fn grow(&self, set: u64, goal: u64) -> u64
        ensures { Toward (listed_in self.now) set goal result }
    {
        let mut mask = set;
        loop {
            let before = mask;
            mask = self.pass(before, goal);
            if mask == before {
                break mask;
            }
        }
    }

    // The set closed by the listed pairs: grown toward every state, so until no pair adds anything.
    pub fn close(&self, set: u64) -> u64
        ensures { Closes (listed_in self.now) set result }
    {
        all_fit(self.lefts);
        all_fit(self.rights);
        self.grow(set, u64::MAX)
    }

    // Whether two sets are congruent by the listed pairs: each grows until the other lies within. Leaves as soon as the first does not.
    pub fn congruent(&self, a: u64, b: u64) -> bool
        ensures { Decides (Congruent (listed_in self.now) a b) result }
    {
        if !sets::within(b, self.grow(a, b)) {
            return false;
        }
        sets::within(a, self.grow(b, a))
    }
}
