// The pattern file: n, k, finals, the n * k rows, X, Y; read and written.
#![tactic(auto)]

ghost use Rattle.std.specs.Prelude.{◌≡◌, ◌≤◌, ◌*◌, length, take};
ghost use Rattle.verdict.specs.Refusals.{said};
ghost use Rattle.lent.specs.Page.{HasRoomFor, Puts};
ghost use Rattle.pattern.specs.Lent.{pattern_in};
ghost use Rattle.pattern.specs.Tests.{size_test, set_test};
ghost use Rattle.numbers.specs.Numbers.{number_at};
ghost use Rattle.numbers.specs.Format.{held_to, reading, many, ended};
ghost use Rattle.numbers.specs.Told.{told_number};
ghost use Rattle.patternfile.specs.PatternFile.{file_bytes};
ghost use Rattle.patternfile.specs.Reader.{with_rows, Reads};
ghost use Rattle.patternfile.specs.Writer.{write_test, Writes};
ghost use Rattle.patternfile.specs.Parts.{Judges, Passes, Filled};

use lent::Page;
use numbers::Placed;
use pattern::{Pattern, Question};
use verdict::{Fault, Refusal, need};

// The numbers of a file beside its rows.
#[derive(Clone, Copy)]
pub struct PatternNumbers {
    pub states: usize,
    pub letters: usize,
    pub finals: u64,
    pub x: u64,
    pub y: u64,
}

impl PatternNumbers {
    // The pattern of the numbers and of its rows, the first of those that the file was read into.
    pub fn pattern<'a>(&self, rows: &'a [u64]) -> Pattern<'a>
        requires { self.now.states * self.now.letters ≤ length rows.now }
        ensures { pattern_in result ≡ with_rows self.now (take (self.now.states * self.now.letters) rows.now) }
    {
        Pattern {
            states: self.states,
            letters: self.letters,
            finals: self.finals,
            rows: &rows[..self.states * self.letters],
        }
    }
}

// What the first pass finds: the pattern's numbers, and the place after them.
#[derive(Clone, Copy)]
pub struct PatternPart {
    pub numbers: PatternNumbers,
    pub end: usize,
}

fn read_size(bytes: &[u8], at: usize, most: usize) -> Result<Placed, Fault>
    ensures { told_number result ≡ held_to (size_test most) at (number_at bytes.now at) }
{
    numbers::read_held(bytes, at, |v| pattern::size_test(most, v as usize))
}

fn read_set(bytes: &[u8], at: usize, states: usize) -> Result<Placed, Fault>
    ensures { told_number result ≡ held_to (set_test states) at (number_at bytes.now at) }
{
    numbers::read_held(bytes, at, |v| pattern::set_test(states, v))
}

// Judges so many sets from a place on, and returns the place after them. In its caller's frame: the stack that a read needs is said beside the export.
#[inline(always)]
pub fn pass_sets(bytes: &[u8], at: usize, states: usize, count: usize) -> Result<usize, Fault>
    ensures { Passes (reading (many count (set_test states) ended) bytes.now at) result }
{
    let mut place = at;
    for _ in 0..count {
        place = read_set(bytes, place, states)?.next;
    }
    Ok(place)
}

// The first pass: the pattern's numbers, for a row buffer of so many entries; bytes after them are not looked at.
pub fn judge(bytes: &[u8], room: usize) -> Result<PatternPart, Fault>
    ensures { Judges bytes.now room result }
{
    let n = read_size(bytes, 0, 64)?;
    let k = read_size(bytes, n.next, 32)?;
    let states = n.value as usize;
    let letters = k.value as usize;
    let count = states * letters;
    need(
        count <= room,
        Fault {
            why: Refusal::NoRoom,
            place: k.next,
        },
    )?;
    let finals = read_set(bytes, k.next, states)?;
    let at_x = pass_sets(bytes, finals.next, states, count)?;
    let x = read_set(bytes, at_x, states)?;
    let y = read_set(bytes, x.next, states)?;
    Ok(PatternPart {
        numbers: PatternNumbers {
            states,
            letters,
            finals: finals.value,
            x: x.value,
            y: y.value,
        },
        end: y.next,
    })
}

// The second pass: numbers from a place on go into the rows, as far as they can be read.
pub fn fill(bytes: &[u8], at: usize, rows: &mut [u64])
    ensures { Filled bytes.now at (length rows.old) rows.old rows.new }
{
    let mut place = at;
    for row in rows {
        let Ok(number) = numbers::read(bytes, place) else {
            return;
        };
        *row = number.value;
        place += number.took;
    }
}

// Reads a pattern file. n and k are one byte each, so the rows stand two bytes and the finals' bytes behind the start.
pub fn read(bytes: &[u8], rows: &mut [u64]) -> Result<PatternNumbers, Fault>
    ensures { Reads bytes.now rows.old result rows.new }
{
    let part = judge(bytes, rows.len())?;
    numbers::no_tail(bytes, part.end)?;
    let found = part.numbers;
    let at = 2 + numbers::size(found.finals);
    fill(bytes, at, &mut rows[..found.states * found.letters]);
    Ok(found)
}

// How many bytes the file takes.
pub fn file_size(question: &Question) -> usize
    ensures { result ≡ length (file_bytes (pattern_in question.now.pattern) question.now.x question.now.y) }
{
    let pattern = &question.pattern;
    let head = [
        pattern.states as u64,
        pattern.letters as u64,
        pattern.finals,
    ];
    numbers::size_all(&head)
        + numbers::size_all(pattern.rows)
        + numbers::size_all(&[question.x, question.y])
}

// The writer's tests in their order, for a byte buffer of so many bytes.
fn write_test(question: &Question, room: usize) -> Result<(), Refusal>
    ensures { said result ≡ write_test (pattern_in question.now.pattern) question.now.x question.now.y room }
{
    let pattern = &question.pattern;
    pattern.pattern_test()?;
    pattern::set_test(pattern.states, question.x)?;
    pattern::set_test(pattern.states, question.y)?;
    need(file_size(question) <= room, Refusal::NoRoom)
}

// Puts the bytes of the file.
pub fn put_pattern(page: &mut Page, question: &Question)
    requires { HasRoomFor page.old (file_bytes (pattern_in question.now.pattern) question.now.x question.now.y) }
    ensures { Puts page.old (file_bytes (pattern_in question.now.pattern) question.now.x question.now.y) page.new }
{
    let pattern = &question.pattern;
    let head = [
        pattern.states as u64,
        pattern.letters as u64,
        pattern.finals,
    ];
    numbers::write_all(page, &head);
    numbers::write_all(page, pattern.rows);
    numbers::write_all(page, &[question.x, question.y]);
}

// Writes a pattern file, and returns how many bytes.
pub fn write(question: &Question, out: &mut [u8]) -> Result<usize, Refusal>
    ensures { Writes (pattern_in question.now.pattern) question.now.x question.now.y out.old result out.new }
{
    write_test(question, out.len())?;
    let mut page = Page { out, at: 0 };
    put_pattern(&mut page, question);
    Ok(page.at)
}
