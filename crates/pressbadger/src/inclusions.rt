// The one-way question: over a lent list of records, and over lists of numbers for a host that has no table of its own.
ghost use Rattle.pressbadger.specs.Inclusions.{IncludesRecords, IncludesLists};

use comparison::{Tables, inclusion};
use records::PbRecord;
use records::answers::PbCompared;

// Asks in a given room whether all that is accepted from `x` is accepted from `y`, and writes the records that are kept.
#[unsafe(no_mangle)]
pub extern "C" fn pb_within(
    states: usize,
    letters: usize,
    finals: u64,
    rows: &[u64],
    x: u64,
    y: u64,
    room: usize,
    records: &mut [PbRecord],
    sequence: &mut [u8],
) -> PbCompared
    ensures { IncludesRecords states letters finals rows.now x y room records sequence result }
{
    let question = crate::asked(states, letters, finals, rows, x, y);
    let answer = records::compares::within(&question, room, records, sequence);
    PbCompared::from(answer)
}

// The same, with a list of numbers for each column of the records.
#[unsafe(no_mangle)]
pub extern "C" fn pb_within_lists(
    states: usize,
    letters: usize,
    finals: u64,
    rows: &[u64],
    x: u64,
    y: u64,
    room: usize,
    lefts: &mut [u64],
    rights: &mut [u64],
    parents: &mut [u16],
    taken: &mut [u8],
    sequence: &mut [u8],
) -> PbCompared
    ensures { IncludesLists states letters finals rows.now x y room lefts rights parents taken sequence result }
{
    let question = crate::asked(states, letters, finals, rows, x, y);
    let mut tables = Tables {
        lefts,
        rights,
        parents,
        taken,
        sequence,
    };
    let answer = inclusion::within(&question, room, &mut tables);
    PbCompared::from(answer)
}
