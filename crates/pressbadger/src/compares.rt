// The comparison: over a lent list of records, and over lists of numbers for a host that has no table of its own.
ghost use Rattle.sets.specs.Rooms.{default_room};
ghost use Rattle.pressbadger.specs.Compares.{ComparesRecords, ComparesLists};

use comparison::Tables;
use records::PbRecord;
use records::answers::PbCompared;
use sets::States;

// Compares the sets `x` and `y` of states of a pattern in a given room, and writes the records that are kept. In its caller's frame: the stack it needs is said in the header.
#[inline(always)]
#[unsafe(no_mangle)]
pub extern "C" fn pb_compare(
    states: usize,
    letters: usize,
    finals: u64,
    rows: &[u64],
    x: u64,
    y: u64,
    room: usize,
    records: &mut [PbRecord],
    sequence: &mut [u8],
) -> PbCompared
    ensures { ComparesRecords states letters finals rows.now x y room records sequence result }
{
    let question = crate::asked(states, letters, finals, rows, x, y);
    let answer = records::compares::compare(&question, room, records, sequence);
    PbCompared::from(answer)
}

// The short form: the default room.
#[unsafe(no_mangle)]
pub extern "C" fn pb_compare_default(
    states: usize,
    letters: usize,
    finals: u64,
    rows: &[u64],
    x: u64,
    y: u64,
    records: &mut [PbRecord],
    sequence: &mut [u8],
) -> PbCompared
    ensures { ComparesRecords states letters finals rows.now x y default_room records sequence result }
{
    pb_compare(
        states,
        letters,
        finals,
        rows,
        x,
        y,
        States::DEFAULT_ROOM,
        records,
        sequence,
    )
}

// Compares the sets `x` and `y`, with a list of numbers for each column of the records.
#[unsafe(no_mangle)]
pub extern "C" fn pb_compare_lists(
    states: usize,
    letters: usize,
    finals: u64,
    rows: &[u64],
    x: u64,
    y: u64,
    room: usize,
    lefts: &mut [u64],
    rights: &mut [u64],
    parents: &mut [u16],
    taken: &mut [u8],
    sequence: &mut [u8],
) -> PbCompared
    ensures { ComparesLists states letters finals rows.now x y room lefts rights parents taken sequence result }
{
    let question = crate::asked(states, letters, finals, rows, x, y);
    let mut tables = Tables {
        lefts,
        rights,
        parents,
        taken,
        sequence,
    };
    let answer = comparison::compare(&question, room, &mut tables);
    PbCompared::from(answer)
}
