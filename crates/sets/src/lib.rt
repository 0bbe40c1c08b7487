// Sets of states, as masks of 64 bits: bit s for state s.
#![tactic(auto)]

ghost use Rattle.std.specs.Prelude.{◌≡◌, ◌<◌, ◌^◌};
ghost use Rattle.std.specs.Int.Bits.{bit_or};
ghost use Rattle.verdict.specs.Tests.{Decides};
ghost use Rattle.sets.specs.Sets;
ghost use Rattle.sets.specs.Sets.{Within};

// A set of states as a value of its own, and the two numbers that go with lists of pairs of them.
#[derive(Drop)]
pub struct States {
    pub mask: u64,
}

impl States {
    // The largest room that may be asked for.
    pub const MAX_ROOM: usize = 1024;

    // The room of a comparison that names none.
    pub const DEFAULT_ROOM: usize = 1024;

    // The set of no states.
    pub fn empty() -> States
        ensures { result.mask ≡ 0 }
    {
        States { mask: 0 }
    }

    // The set of the one state `s`.
    pub fn single(s: usize) -> States
        requires { s < 64 }
        ensures { result.mask ≡ 2 ^ s }
    {
        States { mask: 1u64 << s }
    }
}

// The states of either set.
pub fn union(a: u64, b: u64) -> u64
    ensures { result ≡ bit_or a b }
{
    a | b
}

// Whether each state of `a` is in `c`.
pub fn within(a: u64, c: u64) -> bool
    ensures { Decides (Within a c) result }
{
    a & c == a
}

// Whether two sets have a state in common.
pub fn meets(a: u64, b: u64) -> bool
    ensures { result ≡ Sets.meets a b }
{
    a & b != 0
}
