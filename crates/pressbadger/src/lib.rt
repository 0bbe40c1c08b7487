// The host's face: the calls that C and Rust programs make. `include/pressbadger.h` is their manual.
// Numbers and lists stand in a call one by one, and what a field does not tell is 0: that is the C interface.
#![tactic(auto)]

ghost use Rattle.std.specs.Prelude.{◌≡◌};
ghost use Rattle.walk.specs.Walk.{question_of};
ghost use Rattle.pattern.specs.Judge.{told};
ghost use Rattle.comparison.specs.Answers.{question_in};
ghost use Rattle.pressbadger.specs.Judges.{judge_answer, Judges};

use pattern::{Pattern, Question};
use verdict::Refusal;

pub mod checks; // checks.rt: evidence checked, in two lists or in a list of records
pub mod compares; // compares.rt: the comparison over a list of records, and over lists of numbers
pub mod inclusions; // inclusions.rt: the one-way question over a list of records, and over lists of numbers
pub mod files; // files.rt: pattern files, read and written
pub mod texts; // texts.rt: two texts made into one pattern

// The answer to `pb_judge`.
#[repr(C)]
#[derive(Clone, Copy)]
pub struct PbJudged {
    pub answer: u8,
}

impl From<Result<bool, Refusal>> for PbJudged {
    ghost from_gives = { λ judged r. r ≡ judge_answer (told judged) };

    fn from(judged: Result<bool, Refusal>) -> PbJudged {
        match judged {
            Ok(true) => PbJudged { answer: 3 },
            Ok(false) => PbJudged { answer: 4 },
            Err(why) => PbJudged {
                answer: u8::from(why),
            },
        }
    }
}

// The numbers that a host passes, as a question.
fn asked<'a>(
    states: usize,
    letters: usize,
    finals: u64,
    rows: &'a [u64],
    x: u64,
    y: u64,
) -> Question<'a>
    ensures { question_in result ≡ question_of states letters finals rows.now x y }
{
    let pattern = Pattern {
        states,
        letters,
        finals,
        rows,
    };
    Question { pattern, x, y }
}

// Judges one sequence from one set of states.
#[unsafe(no_mangle)]
pub extern "C" fn pb_judge(
    states: usize,
    letters: usize,
    finals: u64,
    rows: &[u64],
    set: u64,
    sequence: &[u8],
) -> PbJudged
    ensures { Judges states letters finals rows.now set sequence.now result }
{
    let pattern = Pattern {
        states,
        letters,
        finals,
        rows,
    };
    PbJudged::from(pattern.judge(set, sequence))
}

// The version of this interface.
#[unsafe(no_mangle)]
pub extern "C" fn pb_version() -> u32
    ensures { result ≡ 2 }
{
    2
}
