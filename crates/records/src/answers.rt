// The answers as a host reads them: the scope's number of each (§7), and the numbers returned with it.
ghost use Rattle.std.specs.Prelude.{◌≡◌};
ghost use Rattle.records.specs.Answers.{compare_answer, inclusion_answer, check_answer};

use comparison::Answer as Compared;
use comparison::inclusion::Inclusion;
use evidence::Answer as Checked;
use verdict::Refusal;

// The answer to a comparison, and to the one-way question.
#[repr(C)]
#[derive(Clone, Copy)]
pub struct PbCompared {
    pub answer: u8,
    pub kept: usize,
    pub examined: usize,
    pub length: usize,
}

fn counted(answer: u8, kept: usize, examined: usize, length: usize) -> PbCompared
    ensures { result ≡ record { answer = answer; kept = kept; examined = examined; length = length } }
{
    PbCompared {
        answer,
        kept,
        examined,
        length,
    }
}

impl From<Result<Compared, Refusal>> for PbCompared {
    ghost from_gives = { λ answer r. r ≡ compare_answer answer };

    fn from(answer: Result<Compared, Refusal>) -> PbCompared {
        match answer {
            Ok(Compared::Same { kept, examined }) => counted(0, kept, examined, 0),
            Ok(
                Compared::Different {
                    kept,
                    examined,
                    length,
                },
            ) => counted(1, kept, examined, length),
            Ok(Compared::Full { kept, examined }) => counted(2, kept, examined, 0),
            Err(why) => counted(u8::from(why), 0, 0, 0),
        }
    }
}

impl From<Result<Inclusion, Refusal>> for PbCompared {
    ghost from_gives = { λ answer r. r ≡ inclusion_answer answer };

    fn from(answer: Result<Inclusion, Refusal>) -> PbCompared {
        match answer {
            Ok(Inclusion::Within { kept, examined }) => counted(8, kept, examined, 0),
            Ok(
                Inclusion::NotWithin {
                    kept,
                    examined,
                    length,
                },
            ) => counted(9, kept, examined, length),
            Ok(Inclusion::Full { kept, examined }) => counted(2, kept, examined, 0),
            Err(why) => counted(u8::from(why), 0, 0, 0),
        }
    }
}

// The answer to a check: PROVED or NOT-PROVED with its place, or a refusal and 0.
#[repr(C)]
#[derive(Clone, Copy)]
pub struct PbChecked {
    pub answer: u8,
    pub place: usize,
}

impl From<Result<Checked, Refusal>> for PbChecked {
    ghost from_gives = { λ answer r. r ≡ check_answer answer };

    fn from(answer: Result<Checked, Refusal>) -> PbChecked {
        match answer {
            Ok(Checked::Proved) => PbChecked {
                answer: 5,
                place: 0,
            },
            Ok(Checked::NotProved(place)) => PbChecked { answer: 6, place },
            Err(why) => PbChecked {
                answer: u8::from(why),
                place: 0,
            },
        }
    }
}
