// The question of an evidence file: read, checked, and answered by the one line that `check` prints, put into a lent buffer.
#![tactic(auto)]

ghost use Rattle.std.specs.Prelude.{◌≤◌, length};
ghost use Rattle.lent.specs.Page.{HasRoomFor, Puts};
ghost use Rattle.evidencefile.specs.EvidenceFile.{lists_of};
ghost use Rattle.checking.specs.Checking.{Suffices, Answers, longest, Reported, Leaves};
ghost use Rattle.checking.specs.Inner.{answer_text};

use evidence::{Answer, Offer};
use lent::Page;
use text::{put_head, put_refusal};
use verdict::Fault;

// Reads the file and checks its pairs; a file that was read is never refused by the check.
pub fn ask(
    bytes: &[u8],
    rows: &mut [u64],
    lefts: &mut [u64],
    rights: &mut [u64],
) -> Result<Answer, Fault>
    requires { Suffices (lists_of rows.old lefts.old rights.old) }
    ensures { Answers bytes.now (lists_of rows.old lefts.old rights.old) result (lists_of rows.new lefts.new rights.new) }
{
    let file = evidencefile::read(bytes, rows, lefts, rights)?;
    let offer = Offer {
        pattern: file.pattern.pattern(rows),
        x: file.pattern.x,
        y: file.pattern.y,
        lefts: &lefts[..file.pairs],
        rights: &rights[..file.pairs],
    };
    Ok(offer.check()?)
}

// The line of the check's answer.
#[tactic(auto, unfolding(crate::specs::Checking::proved_text))]
fn put_answer(page: &mut Page, answer: Answer)
    requires { HasRoomFor page.old (answer_text answer) }
    ensures { Puts page.old (answer_text answer) page.new }
{
    match answer {
        Answer::Proved => put_head(page, b"PROVED", &[]),
        Answer::NotProved(place) => put_head(page, b"NOT-PROVED", &[place as u64]),
    }
}

// What `check` prints for the bytes that it took in.
pub fn report(
    bytes: &[u8],
    rows: &mut [u64],
    lefts: &mut [u64],
    rights: &mut [u64],
    out: &mut [u8],
) -> usize
    requires lends { Suffices (lists_of rows.old lefts.old rights.old) }
    requires room_in_bounds { longest ≤ length out.old }
    ensures reports { Reported bytes.now out.old result out.new }
    ensures leaves { Leaves bytes.now (lists_of rows.old lefts.old rights.old) (lists_of rows.new lefts.new rights.new) }
{
    let mut page = Page { out, at: 0 };
    match ask(bytes, rows, lefts, rights) {
        Ok(answer) => put_answer(&mut page, answer),
        Err(Fault { why, place }) => put_refusal(&mut page, u8::from(why), place),
    }
    page.at
}
