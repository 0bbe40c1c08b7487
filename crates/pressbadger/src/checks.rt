// Evidence: pairs checked, in two lists of numbers or in a list of records.
ghost use Rattle.pressbadger.specs.Checks.{ChecksLists, ChecksRecords};

use evidence::Offer;
use pattern::Pattern;
use records::PbRecord;
use records::answers::PbChecked;

// Checks the pairs of `lefts` and `rights` as evidence that `x` and `y` have one language.
#[unsafe(no_mangle)]
pub extern "C" fn pb_check(
    states: usize,
    letters: usize,
    finals: u64,
    rows: &[u64],
    x: u64,
    y: u64,
    lefts: &[u64],
    rights: &[u64],
) -> PbChecked
    ensures { ChecksLists states letters finals rows.now x y lefts.now rights.now result }
{
    let pattern = Pattern {
        states,
        letters,
        finals,
        rows,
    };
    let offer = Offer {
        pattern,
        x,
        y,
        lefts,
        rights,
    };
    PbChecked::from(offer.check())
}

// Checks the pairs of a list of records, as SAME leaves it, as evidence that the sets `x` and `y` have one language.
#[unsafe(no_mangle)]
pub extern "C" fn pb_check_records(
    states: usize,
    letters: usize,
    finals: u64,
    rows: &[u64],
    x: u64,
    y: u64,
    records: &[PbRecord],
) -> PbChecked
    ensures { ChecksRecords states letters finals rows.now x y records.now result }
{
    let question = crate::asked(states, letters, finals, rows, x, y);
    PbChecked::from(records::checks::check(&question, records))
}
