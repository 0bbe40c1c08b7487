// The one-way question, whether every event sequence that is accepted from X is accepted from Y: the comparison of X+Y with Y.
ghost use Rattle.std.specs.Prelude.{◌≡◌};
ghost use Rattle.walk.specs.Inclusion.{joined};
ghost use Rattle.comparison.specs.Answers.{question_in};
ghost use Rattle.comparison.specs.Inclusion.{inclusion_of, Includes};

use crate::{Answer, Tables};
use pattern::Question;
use verdict::Refusal;

// What the one-way question answers: kept, examined and, for NOT-WITHIN, length.
#[derive(Clone, Copy)]
pub enum Inclusion {
    Within {
        kept: usize,
        examined: usize,
    },
    NotWithin {
        kept: usize,
        examined: usize,
        length: usize,
    },
    Full {
        kept: usize,
        examined: usize,
    },
}

// The answer, by that of the comparison of X+Y with Y.
impl From<Answer> for Inclusion {
    ghost from_gives = { λ answer r. r ≡ inclusion_of answer };

    fn from(answer: Answer) -> Inclusion {
        match answer {
            Answer::Same { kept, examined } => Inclusion::Within { kept, examined },
            Answer::Different {
                kept,
                examined,
                length,
            } => Inclusion::NotWithin {
                kept,
                examined,
                length,
            },
            Answer::Full { kept, examined } => Inclusion::Full { kept, examined },
        }
    }
}

// The comparison that the one-way question is: X+Y with Y.
pub fn joined<'a>(question: &Question<'a>) -> Question<'a>
    ensures { question_in result ≡ joined (question_in question.now) }
{
    Question {
        x: sets::union(question.x, question.y),
        ..*question
    }
}

// Asks in a given room whether all that is accepted from `x` is accepted from `y`. X+Y and Y are refused exactly as X and Y are.
pub fn within(question: &Question, room: usize, tables: &mut Tables) -> Result<Inclusion, Refusal>
    ensures { Includes question.now room tables.old result tables.new }
{
    let answer = crate::compare(&joined(question), room, tables)?;
    Ok(Inclusion::from(answer))
}
