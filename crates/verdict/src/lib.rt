// The refusals of the scope (§7), and a test that holds or refuses.
#![tactic(auto)]

ghost use Rattle.std.specs.Prelude.{◌≡◌};
ghost use Rattle.verdict.specs.Tests.{held};
ghost use Rattle.verdict.specs.Refusals.{number, TestsEach};

// Why a call is refused, by the scope's names and numbers.
#[derive(Clone, Copy)]
pub enum Refusal {
    BadSize = 10,
    BadTable = 11,
    BadSet = 12,
    BadRoom = 13,
    NoRoom = 14,
    BadLetter = 15,
    BadList = 16,
    Cut = 20,
    Padded = 21,
    Tail = 22,
    TooBig = 23,
    Syntax = 30,
    TooMany = 31,
    TooDeep = 32,
}

impl From<Refusal> for u8 {
    ghost from_gives = { λ why n. n ≡ number why };

    fn from(why: Refusal) -> u8 {
        why as u8
    }
}

// A refusal with a place: the byte of a file or of a text at which the fault stands.
#[derive(Clone, Copy)]
pub struct Fault {
    pub why: Refusal,
    pub place: usize,
}

// A refusal of the whole, which has no place of its own, stands at 0.
impl From<Refusal> for Fault {
    ghost from_gives = { λ why fault. fault ≡ record { why = why; place = 0 } };

    fn from(why: Refusal) -> Fault {
        Fault { why, place: 0 }
    }
}

// A test that holds has nothing against it; one that fails is refused.
#[tactic(auto, unfolding(crate::specs::Tests::held))]
pub fn need<E: Drop>(holds: bool, why: E) -> Result<(), E>
    ensures { result ≡ held holds why }
{
    if holds {
        return Ok(());
    }
    Err(why)
}

// One test of each value of a list: the first that fails refuses.
pub fn every<T: Copy, F: Fn(T) -> Result<(), Refusal>>(values: &[T], test: F) -> Result<(), Refusal>
    requires { F.IsAlwaysCallable test }
    ensures { TestsEach (λ v r. F.post test v r) values.now result }
{
    for value in values {
        test(*value)?;
    }
    Ok(())
}
