// Decimals and lines put on a page.
#![tactic(auto)]

ghost use Rattle.std.specs.Prelude.{List, ℕ, ◌∷◌, [], map, ◌≡◌, ◌<◌};
ghost use Rattle.lent.specs.Page.{HasRoomFor, Puts};
ghost use Rattle.text.specs.Text.{word, decimal, digit as Text·digit, spaced, joined, line, refusal_text};

use lent::Page;

fn digit(d: u64) -> u8
    requires { d < 10 }
    ensures { result ≡ Text·digit d }
{
    b'0' + d as u8
}

// A number in decimal. By hand: the library's `itoa` would be one more crate to believe for these six lines.
#[tactic(auto, using(crate::proofs::Decimal::last_length, crate::proofs::Decimal::more_length, lent::proofs::Filling::puts_length))]
pub fn put_decimal(page: &mut Page, v: u64)
    requires { HasRoomFor page.old (decimal v) }
    ensures { Puts page.old (decimal v) page.new }
{
    if v < 10 {
        page.put_byte(digit(v));
        return;
    }
    put_decimal(page, v / 10);
    page.put_byte(digit(v % 10));
}

// How values of a type are put, each as one word.
pub trait Words {
    type Value: Copy;

    ghost word_of: { Self.Value → List ℕ };

    fn put(page: &mut Page, value: Self::Value)
        requires { HasRoomFor page.old (word_of value) }
        ensures { Puts page.old (word_of value) page.new };
}

// Numbers in decimal.
pub struct Decimals;

impl Words for Decimals {
    type Value = u64;

    ghost word_of = { decimal };

    fn put(page: &mut Page, value: u64) {
        put_decimal(page, value);
    }
}

// Words, each with a space in front.
pub fn put_spaced<W: Words>(page: &mut Page, values: &[W::Value])
    requires { HasRoomFor page.old (spaced (map W.word_of values.now)) }
    ensures { Puts page.old (spaced (map W.word_of values.now)) page.new }
{
    for value in values {
        page.put_byte(b' ');
        W::put(page, *value);
    }
}

// Words with single spaces between them.
fn put_joined<W: Words>(page: &mut Page, values: &[W::Value])
    requires { HasRoomFor page.old (joined (map W.word_of values.now)) }
    ensures { Puts page.old (joined (map W.word_of values.now)) page.new }
{
    if let Some((first, rest)) = values.split_first() {
        W::put(page, *first);
        put_spaced::<W>(page, rest);
    }
}

fn end_line(page: &mut Page)
    requires { HasRoomFor page.old (word "\n") }
    ensures { Puts page.old (word "\n") page.new }
{
    page.put_byte(b'\n');
}

// A line of words; an empty line where there are none.
pub fn put_line<W: Words>(page: &mut Page, values: &[W::Value])
    requires { HasRoomFor page.old (line (map W.word_of values.now)) }
    ensures { Puts page.old (line (map W.word_of values.now)) page.new }
{
    put_joined::<W>(page, values);
    end_line(page);
}

// A line of a name and its numbers.
#[tactic(auto, using(crate::proofs::Lines::whole_length, lent::proofs::Filling::puts_length))]
pub fn put_head(page: &mut Page, name: &[u8], numbers: &[u64])
    requires { HasRoomFor page.old (line (name.now ∷ map decimal numbers.now)) }
    ensures { Puts page.old (line (name.now ∷ map decimal numbers.now)) page.new }
{
    page.put_bytes(name);
    put_spaced::<Decimals>(page, numbers);
    end_line(page);
}

// The line of a refusal.
#[tactic(auto, unfolding(crate::specs::Text::refusal_text))]
pub fn put_refusal(page: &mut Page, number: u8, place: usize)
    requires { HasRoomFor page.old (refusal_text number place) }
    ensures { Puts page.old (refusal_text number place) page.new }
{
    put_head(page, b"REFUSED", &[number as u64, place as u64]);
}
