// The exact bytes that `compare` prints, put into a lent buffer.
#![tactic(auto)]

ghost use Rattle.std.specs.Prelude.{◌≡◌, ◌≤◌, length};
ghost use Rattle.lent.specs.Page.{HasRoomFor, Puts};
ghost use Rattle.numbers.specs.Numbers.{AreBytes};
ghost use Rattle.comparison.specs.Answers.{lent_in};
ghost use Rattle.asking.specs.Asking.{Suffices};
ghost use Rattle.report.specs.Report.{longest, Reported, Leaves};
ghost use Rattle.report.specs.Inner.{pair_lines, answer_text, Printable};

use comparison::{Answer, Tables};
use events::EventNames;
use lent::Page;
use text::{Decimals, put_head, put_line, put_refusal};
use verdict::Fault;

// A line for each record.
fn put_records(page: &mut Page, lefts: &[u64], rights: &[u64])
    requires { HasRoomFor page.old (pair_lines lefts.now rights.now) }
    ensures { Puts page.old (pair_lines lefts.now rights.now) page.new }
{
    for (left, right) in lefts.iter().zip(rights) {
        put_line::<Decimals>(page, &[*left, *right]);
    }
}

// Every byte of a sequence is one, by its type. It does nothing, and tells so much of a slice in a field.
fn all_bytes(sequence: &[u8])
    ensures { AreBytes sequence.now }
{}

// The text of the comparison's answer, by what it left in the tables.
fn put_answer(page: &mut Page, answer: Answer, tables: &Tables)
    requires { Printable answer tables.now.lefts.now tables.now.rights.now tables.now.sequence.now page.old }
    ensures { Puts page.old (answer_text answer tables.now.lefts.now tables.now.rights.now tables.now.sequence.now) page.new }
{
    all_bytes(tables.sequence);
    match answer {
        Answer::Same { kept, examined } => {
            put_head(page, b"SAME", &[kept as u64, examined as u64]);
            put_records(page, &tables.lefts[..kept], &tables.rights[..kept]);
        }
        Answer::Different {
            kept,
            examined,
            length,
        } => {
            put_head(
                page,
                b"DIFFERENT",
                &[kept as u64, examined as u64, length as u64],
            );
            put_line::<EventNames>(page, &tables.sequence[..length]);
        }
        Answer::Full { kept, examined } => {
            put_head(page, b"FULL", &[kept as u64, examined as u64]);
        }
    }
}

// What `compare` prints for the bytes that it took in: asks their question in a room, and puts the text.
pub fn report(
    bytes: &[u8],
    room: usize,
    rows: &mut [u64],
    tables: &mut Tables,
    out: &mut [u8],
) -> usize
    requires lends { Suffices room rows.old (lent_in tables.old) }
    requires room_in_bounds { longest room ≤ length out.old }
    ensures reports { Reported room bytes.now out.old result out.new }
    ensures leaves { Leaves bytes.now room rows.old tables.old rows.new tables.new }
{
    let mut page = Page { out, at: 0 };
    match asking::ask(bytes, room, rows, tables) {
        Ok(answer) => put_answer(&mut page, answer, tables),
        Err(Fault { why, place }) => put_refusal(&mut page, u8::from(why), place),
    }
    page.at
}
