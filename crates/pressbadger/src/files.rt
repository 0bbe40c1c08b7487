// Pattern files for the host: read and written.
ghost use Rattle.std.specs.Prelude.{◌≡◌};
ghost use Rattle.pattern.specs.Pattern.{pattern_of};
ghost use Rattle.pressbadger.specs.Files.{pattern_answer, ReadPattern, written_answer, WrittenPattern};

use patternfile::PatternNumbers;
use verdict::{Fault, Refusal};

// The answer to `pb_read_pattern`: 7 and the file's numbers, or a refusal and its place.
#[repr(C)]
#[derive(Clone, Copy)]
pub struct PbPattern {
    pub answer: u8,
    pub states: usize,
    pub letters: usize,
    pub finals: u64,
    pub x: u64,
    pub y: u64,
    pub place: usize,
}

impl From<Result<PatternNumbers, Fault>> for PbPattern {
    ghost from_gives = { λ read r. r ≡ pattern_answer read };

    fn from(read: Result<PatternNumbers, Fault>) -> PbPattern {
        match read {
            Ok(
                PatternNumbers {
                    states,
                    letters,
                    finals,
                    x,
                    y,
                },
            ) => PbPattern {
                answer: 7,
                states,
                letters,
                finals,
                x,
                y,
                place: 0,
            },
            Err(Fault { why, place }) => PbPattern {
                answer: u8::from(why),
                states: 0,
                letters: 0,
                finals: 0,
                x: 0,
                y: 0,
                place,
            },
        }
    }
}

// The answer to `pb_write_pattern`: 7 and how many bytes were written, or a refusal and 0.
#[repr(C)]
#[derive(Clone, Copy)]
pub struct PbWritten {
    pub answer: u8,
    pub count: usize,
}

impl From<Result<usize, Refusal>> for PbWritten {
    ghost from_gives = { λ written r. r ≡ written_answer written };

    fn from(written: Result<usize, Refusal>) -> PbWritten {
        match written {
            Ok(count) => PbWritten { answer: 7, count },
            Err(why) => PbWritten {
                answer: u8::from(why),
                count: 0,
            },
        }
    }
}

// Reads a pattern file; its rows go into `rows`.
#[unsafe(no_mangle)]
pub extern "C" fn pb_read_pattern(bytes: &[u8], rows: &mut [u64]) -> PbPattern
    ensures { ReadPattern bytes.now rows.old result rows.new }
{
    PbPattern::from(patternfile::read(bytes, rows))
}

// Writes the pattern file of a pattern and two sets into `bytes`.
#[unsafe(no_mangle)]
pub extern "C" fn pb_write_pattern(
    states: usize,
    letters: usize,
    finals: u64,
    rows: &[u64],
    x: u64,
    y: u64,
    bytes: &mut [u8],
) -> PbWritten
    ensures { WrittenPattern (pattern_of states letters finals rows.now) x y bytes.old result bytes.new }
{
    let question = crate::asked(states, letters, finals, rows, x, y);
    PbWritten::from(patternfile::write(&question, bytes))
}
