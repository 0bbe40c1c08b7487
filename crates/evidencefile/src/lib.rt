// The evidence file: the numbers of a pattern file, then how many pairs, then left and right of each; read and written.
#![tactic(auto)]

ghost use Rattle.std.specs.Prelude.{◌≡◌, ◌≤◌, length};
ghost use Rattle.verdict.specs.Refusals.{said};
ghost use Rattle.lent.specs.Page.{HasRoomFor, Puts};
ghost use Rattle.numbers.specs.Numbers.{number_at};
ghost use Rattle.numbers.specs.Format.{held_to, reading, encode_all};
ghost use Rattle.numbers.specs.Told.{told_number};
ghost use Rattle.evidence.specs.Lent.{offer_in};
ghost use Rattle.evidence.specs.Evidence.{ValidOffer};
ghost use Rattle.evidencefile.specs.EvidenceFile.{count_test, pair_room_test, pairs_format, alternating, file_bytes, lists_of};
ghost use Rattle.evidencefile.specs.Reader.{Reads};
ghost use Rattle.evidencefile.specs.Writer.{write_test, Writes};
ghost use Rattle.evidencefile.specs.Parts.{Counts, FilledPairs};

use congruence::Pairs;
use evidence::Offer;
use lent::Page;
use numbers::Placed;
use pattern::Question;
use patternfile::PatternNumbers;
use sets::States;
use verdict::{Fault, Refusal, need};

// The numbers of a file beside its rows and the sides of its pairs.
#[derive(Clone, Copy)]
pub struct EvidenceNumbers {
    pub pattern: PatternNumbers,
    pub pairs: usize,
}

// BAD-LIST: at most as many pairs as the largest room.
#[tactic(auto, unfolding(crate::specs::EvidenceFile::count_test), using(verdict::proofs::Refusals::said_held))]
fn count_test(pairs: usize) -> Result<(), Refusal>
    ensures { said result ≡ count_test pairs }
{
    need(pairs <= States::MAX_ROOM, Refusal::BadList)
}

fn read_count(bytes: &[u8], at: usize) -> Result<Placed, Fault>
    ensures { told_number result ≡ held_to count_test at (number_at bytes.now at) }
{
    numbers::read_held(bytes, at, |m| count_test(m as usize))
}

// NO-ROOM: both side buffers have room for so many numbers.
#[tactic(auto, unfolding(crate::specs::EvidenceFile::pair_room_test), using(verdict::proofs::Refusals::said_held))]
fn pair_room_test(lefts: usize, rights: usize, pairs: usize) -> Result<(), Refusal>
    ensures { said result ≡ pair_room_test lefts rights pairs }
{
    need(pairs <= lefts && pairs <= rights, Refusal::NoRoom)
}

// The first pass behind the pattern's numbers: the count and the pairs, for side buffers of so many numbers; bytes after them are not looked at.
fn judge_pairs(
    bytes: &[u8],
    at: usize,
    states: usize,
    lefts: usize,
    rights: usize,
) -> Result<Placed, Fault>
    ensures { Counts (reading (pairs_format states lefts rights) bytes.now at) result }
{
    let count = read_count(bytes, at)?;
    let pairs = count.value as usize;
    let at_pairs = count.next;
    pair_room_test(lefts, rights, pairs).map_err(|why| Fault {
        why,
        place: at_pairs,
    })?;
    let end = patternfile::pass_sets(bytes, at_pairs, states, 2 * pairs)?;
    Ok(Placed {
        value: count.value,
        next: end,
    })
}

// The second pass: so many pairs from a place on go into the two sides, as far as they can be read.
// By index: what a loop writes through a zip of two slices is lost to the proof.
fn fill_pairs(bytes: &[u8], at: usize, lefts: &mut [u64], rights: &mut [u64], count: usize)
    requires lefts_fit { count ≤ length lefts.old }
    requires rights_fit { count ≤ length rights.old }
    ensures { FilledPairs bytes.now at count lefts.old rights.old lefts.new rights.new }
{
    let mut place = at;
    for i in 0..count {
        let Ok(left) = numbers::read(bytes, place) else {
            return;
        };
        let at_right = place + left.took;
        let Ok(right) = numbers::read(bytes, at_right) else {
            return;
        };
        lefts[i] = left.value;
        rights[i] = right.value;
        place = at_right + right.took;
    }
}

// Reads an evidence file. The rows stand where they stand in a pattern file, and the pairs behind the pattern's numbers and the count.
pub fn read(
    bytes: &[u8],
    rows: &mut [u64],
    lefts: &mut [u64],
    rights: &mut [u64],
) -> Result<EvidenceNumbers, Fault>
    ensures { Reads bytes.now (lists_of rows.old lefts.old rights.old) result (lists_of rows.new lefts.new rights.new) }
{
    let part = patternfile::judge(bytes, rows.len())?;
    let found = part.numbers;
    let count = judge_pairs(bytes, part.end, found.states, lefts.len(), rights.len())?;
    numbers::no_tail(bytes, count.next)?;
    let pairs = count.value as usize;
    let at_rows = 2 + numbers::size(found.finals);
    let at_pairs = part.end + numbers::size(count.value);
    patternfile::fill(bytes, at_rows, &mut rows[..found.states * found.letters]);
    fill_pairs(bytes, at_pairs, lefts, rights, pairs);
    Ok(EvidenceNumbers {
        pattern: found,
        pairs,
    })
}

// How many bytes the file of an offer takes that is not refused.
fn file_size(offer: &Offer) -> usize
    requires { ValidOffer (offer_in offer.now) }
    ensures { result ≡ length (file_bytes (offer_in offer.now)) }
{
    let question = Question {
        pattern: offer.pattern,
        x: offer.x,
        y: offer.y,
    };
    patternfile::file_size(&question)
        + numbers::size(offer.lefts.len() as u64)
        + numbers::size_all(offer.lefts)
        + numbers::size_all(offer.rights)
}

// The writer's tests in their order, for a byte buffer of so many bytes.
fn write_test(offer: &Offer, room: usize) -> Result<(), Refusal>
    ensures { said result ≡ write_test (offer_in offer.now) room }
{
    offer.check_test()?;
    need(file_size(offer) <= room, Refusal::NoRoom)
}

// Puts left and right of each pair.
fn put_pairs(page: &mut Page, pairs: &Pairs)
    requires { HasRoomFor page.old (encode_all (alternating pairs.now.lefts.now pairs.now.rights.now)) }
    ensures { Puts page.old (encode_all (alternating pairs.now.lefts.now pairs.now.rights.now)) page.new }
{
    for (left, right) in pairs.lefts.iter().zip(pairs.rights) {
        numbers::write(page, *left);
        numbers::write(page, *right);
    }
}

// Writes an evidence file, and returns how many bytes.
pub fn write(offer: &Offer, out: &mut [u8]) -> Result<usize, Refusal>
    ensures { Writes (offer_in offer.now) out.old result out.new }
{
    write_test(offer, out.len())?;
    let question = Question {
        pattern: offer.pattern,
        x: offer.x,
        y: offer.y,
    };
    let pairs = Pairs {
        lefts: offer.lefts,
        rights: offer.rights,
    };
    let mut page = Page { out, at: 0 };
    patternfile::put_pattern(&mut page, &question);
    numbers::write(&mut page, offer.lefts.len() as u64);
    put_pairs(&mut page, &pairs);
    Ok(page.at)
}
