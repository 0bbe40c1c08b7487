// Exports for tests alone: what the host does not call. Numbers and lists stand in a call one by one: the C interface.
#![tactic(auto)]

ghost use Rattle.std.specs.Prelude.{◌≡◌, ◌^◌};
ghost use Rattle.std.specs.Int.Bits.{bit_or};
ghost use Rattle.verdict.specs.Tests.{Decides};
ghost use Rattle.sets.specs.Sets.{Within, meets};
ghost use Rattle.pattern.specs.Pattern.{pattern_of};
ghost use Rattle.pattern.specs.Lent.{pattern_in};
ghost use Rattle.pattern.specs.Tests.{pattern_test};
ghost use Rattle.pattern.specs.Language as Language;
ghost use Rattle.numbers.specs.Numbers.{read_at};
ghost use Rattle.numbers.specs.Told.{told_read};
ghost use Rattle.probes.specs.Probes.{probed_by, Probes, ProbesNext, ProbesClosing, ProbesCongruence, state_test, next_test};
ghost use Rattle.probes.specs.Numbers.{probed_number, WritesNumber};

use congruence::Pairs;
use lent::Page;
use numbers::Taken;
use pattern::{Pattern, Shaped};
use sets::States;
use verdict::{Fault, Refusal};

// 7 and a value, or a refusal and 0.
#[repr(C)]
#[derive(Drop)]
pub struct Probed {
    pub answer: u8,
    pub value: u64,
}

impl From<Result<u64, Refusal>> for Probed {
    ghost from_gives = { λ probed r. r ≡ probed_by probed };

    fn from(probed: Result<u64, Refusal>) -> Probed {
        match probed {
            Ok(value) => Probed { answer: 7, value },
            Err(why) => Probed {
                answer: u8::from(why),
                value: 0,
            },
        }
    }
}

// 7 with a number and how many bytes it took, or a fault with its place; the rest is 0.
#[repr(C)]
#[derive(Drop)]
pub struct ProbedNumber {
    pub answer: u8,
    pub value: u64,
    pub took: usize,
    pub place: usize,
}

impl From<Result<Taken, Fault>> for ProbedNumber {
    ghost from_gives = { λ number r. r ≡ probed_number (told_read number) };

    fn from(number: Result<Taken, Fault>) -> ProbedNumber {
        match number {
            Ok(Taken { value, took }) => ProbedNumber {
                answer: 7,
                value,
                took,
                place: 0,
            },
            Err(Fault { why, place }) => ProbedNumber {
                answer: u8::from(why),
                value: 0,
                took: 0,
                place,
            },
        }
    }
}

#[unsafe(no_mangle)]
pub extern "C" fn probe_union(a: u64, b: u64) -> u64
    ensures { result ≡ bit_or a b }
{
    sets::union(a, b)
}

#[unsafe(no_mangle)]
pub extern "C" fn probe_within(a: u64, c: u64) -> bool
    ensures { Decides (Within a c) result }
{
    sets::within(a, c)
}

#[unsafe(no_mangle)]
pub extern "C" fn probe_meets(a: u64, b: u64) -> bool
    ensures { result ≡ meets a b }
{
    sets::meets(a, b)
}

// The set of one state.
#[unsafe(no_mangle)]
pub extern "C" fn probe_single(s: usize) -> Probed
    ensures { Probes (state_test s) (λ v. v ≡ 2 ^ s) result }
{
    if s < 64 {
        return Probed::from(Ok(States::single(s).mask));
    }
    Probed::from(Err(Refusal::BadSet))
}

// What is against a pattern.
#[unsafe(no_mangle)]
pub extern "C" fn probe_pattern(states: usize, letters: usize, finals: u64, rows: &[u64]) -> Probed
    ensures { Probes (pattern_test (pattern_of states letters finals rows.now)) (λ v. v ≡ 0) result }
{
    let pattern = Pattern {
        states,
        letters,
        finals,
        rows,
    };
    Probed::from(pattern.pattern_test().map(|_| 0))
}

// The set that a letter takes a set to.
#[unsafe(no_mangle)]
pub extern "C" fn probe_next(
    states: usize,
    letters: usize,
    rows: &[u64],
    set: u64,
    letter: u8,
) -> Probed
    ensures { ProbesNext states letters rows.now set letter result }
{
    let pattern = Pattern {
        states,
        letters,
        finals: 0,
        rows,
    };
    Probed::from(next(&pattern, set, usize::from(letter)))
}

// The same of a pattern of the code.
fn next(pattern: &Pattern, set: u64, letter: usize) -> Result<u64, Refusal>
    ensures { Probes (next_test (pattern_in pattern.now) letter) (λ v. v ≡ Language.next (pattern_in pattern.now) set letter) (probed_by result) }
{
    pattern.shape_test()?;
    verdict::need(letter < pattern.letters, Refusal::BadLetter)?;
    let shaped = Shaped { pattern: *pattern };
    Ok(shaped.next(set, letter))
}

// A set closed by a list of pairs.
#[unsafe(no_mangle)]
pub extern "C" fn probe_close(lefts: &[u64], rights: &[u64], set: u64) -> Probed
    ensures { ProbesClosing lefts.now rights.now set result }
{
    if lefts.len() != rights.len() {
        return Probed::from(Err(Refusal::BadList));
    }
    let pairs = Pairs { lefts, rights };
    Probed::from(Ok(pairs.close(set)))
}

// Whether two sets are congruent by a list of pairs: 1 or 0.
#[unsafe(no_mangle)]
pub extern "C" fn probe_congruent(lefts: &[u64], rights: &[u64], a: u64, b: u64) -> Probed
    ensures { ProbesCongruence lefts.now rights.now a b result }
{
    if lefts.len() != rights.len() {
        return Probed::from(Err(Refusal::BadList));
    }
    let pairs = Pairs { lefts, rights };
    Probed::from(Ok(u64::from(pairs.congruent(a, b))))
}

// The number at a place of some bytes.
#[unsafe(no_mangle)]
pub extern "C" fn probe_read_number(bytes: &[u8], at: usize) -> ProbedNumber
    ensures { result ≡ probed_number (read_at bytes.now at) }
{
    ProbedNumber::from(numbers::read(bytes, at))
}

// A number put at a place of a lent buffer: 7 and the place after it, or 14 where it does not fit.
#[unsafe(no_mangle)]
pub extern "C" fn probe_write_number(out: &mut [u8], at: usize, value: u64) -> Probed
    ensures { WritesNumber out.old at value result out.new }
{
    let size = numbers::size(value);
    if out.len() < at || out.len() - at < size {
        return Probed::from(Err(Refusal::NoRoom));
    }
    let mut page = Page { out, at };
    numbers::write(&mut page, value);
    Probed::from(Ok(page.at as u64))
}
