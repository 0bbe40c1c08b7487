// Numbers in groups of seven bits: read at a place, put on a page, one or a list of them.
#![tactic(auto)]

ghost use Rattle.std.specs.Prelude.{◌≡◌, length};
ghost use Rattle.verdict.specs.Refusals.{said};
ghost use Rattle.lent.specs.Page.{HasRoomFor, Puts};
ghost use Rattle.numbers.specs.Numbers.{byte_test, read_at, encode};
ghost use Rattle.numbers.specs.Format.{encode_all};
ghost use Rattle.numbers.specs.Told.{told_read, HoldsTo, EndsAt};

use lent::Page;
use verdict::{Fault, Refusal, need};

// A number that was read: its value, and how many bytes it took.
#[derive(Clone, Copy)]
pub struct Taken {
    pub value: u64,
    pub took: usize,
}

// A number of a file: its value, and the place after it, from which the file goes on.
#[derive(Clone, Copy)]
pub struct Placed {
    pub value: u64,
    pub next: usize,
}

// Byte number i of a number, counted from 0.
fn byte_test(i: usize, b: u64) -> Result<(), Refusal>
    ensures { said result ≡ byte_test i b }
{
    if b == 0 {
        return need(i == 0, Refusal::Padded);
    }
    need(i < 9 || b == 1, Refusal::TooBig)
}

// Who goes on behind the number adds how many bytes it took to its place. Bytes and a place, no cursor: a refusal names the place.
pub fn read(bytes: &[u8], at: usize) -> Result<Taken, Fault>
    ensures { told_read result ≡ read_at bytes.now at }
{
    let mut value: u64 = 0;
    let mut weight: u64 = 1;
    for place in at..bytes.len() {
        let i = place - at;
        let b = u64::from(bytes[place]);
        byte_test(i, b).map_err(|why| Fault { why, place: at })?;
        if b < 128 {
            return Ok(Taken {
                value: value + b * weight,
                took: i + 1,
            });
        }
        value += (b - 128) * weight;
        weight *= 128;
    }
    Err(Fault {
        why: Refusal::Cut,
        place: at,
    })
}

// Reads a number and holds it to a test.
pub fn read_held<F: Fn(u64) -> Result<(), Refusal>>(
    bytes: &[u8],
    at: usize,
    test: F,
) -> Result<Placed, Fault>
    requires { F.IsAlwaysCallable test }
    ensures { HoldsTo (λ v r. F.post test v r) bytes.now at result }
{
    let Taken { value, took } = read(bytes, at)?;
    test(value).map_err(|why| Fault { why, place: at })?;
    Ok(Placed {
        value,
        next: at + took,
    })
}

// TAIL: no byte stands behind a place.
#[tactic(auto, unfolding(verdict::specs::Tests::held))]
pub fn no_tail(bytes: &[u8], place: usize) -> Result<(), Fault>
    ensures { EndsAt bytes.now place result }
{
    need(
        bytes.len() <= place,
        Fault {
            why: Refusal::Tail,
            place,
        },
    )
}

// How many bytes v takes. By `while`, as in `write`: what is left of v says whether a byte follows.
pub fn size(v: u64) -> usize
    ensures { result ≡ length (encode v) }
{
    let mut rest = v;
    let mut n: usize = 1;
    while rest >= 128 {
        rest /= 128;
        n += 1;
    }
    n
}

// Puts v's bytes.
pub fn write(page: &mut Page, v: u64)
    requires { HasRoomFor page.old (encode v) }
    ensures { Puts page.old (encode v) page.new }
{
    let mut rest = v;
    while rest >= 128 {
        page.put_byte((128 + rest % 128) as u8);
        rest /= 128;
    }
    page.put_byte(rest as u8);
}

// How many bytes a list of numbers takes.
pub fn size_all(list: &[u64]) -> usize
    ensures { result ≡ length (encode_all list.now) }
{
    list.iter().map(|v| size(*v)).sum()
}

// Puts the bytes of a list of numbers.
pub fn write_all(page: &mut Page, list: &[u64])
    requires { HasRoomFor page.old (encode_all list.now) }
    ensures { Puts page.old (encode_all list.now) page.new }
{
    for v in list {
        write(page, *v);
    }
}
