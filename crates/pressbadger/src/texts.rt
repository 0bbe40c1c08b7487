// Texts for the host: two of them made into one pattern.
ghost use Rattle.std.specs.Prelude.{◌≡◌};
ghost use Rattle.pressbadger.specs.Texts.{expressed_answer, ExpressedTexts};

use expressions::{TextFault, TextPattern};

// The answer to `pb_expressions`: 7 and the pattern's numbers, or a refusal with its place and its text.
#[repr(C)]
#[derive(Clone, Copy)]
pub struct PbExpressed {
    pub answer: u8,
    pub states: usize,
    pub letters: usize,
    pub finals: u64,
    pub x: u64,
    pub y: u64,
    pub place: usize,
    pub text: u8,
}

impl From<Result<TextPattern, TextFault>> for PbExpressed {
    ghost from_gives = { λ made r. r ≡ expressed_answer made };

    fn from(made: Result<TextPattern, TextFault>) -> PbExpressed {
        match made {
            Ok(
                TextPattern {
                    states,
                    finals,
                    x,
                    y,
                },
            ) => PbExpressed {
                answer: 7,
                states,
                letters: 32,
                finals,
                x,
                y,
                place: 0,
                text: 0,
            },
            Err(TextFault { fault, text }) => PbExpressed {
                answer: u8::from(fault.why),
                states: 0,
                letters: 0,
                finals: 0,
                x: 0,
                y: 0,
                place: fault.place,
                text,
            },
        }
    }
}

// Makes one pattern of two texts; its rows go into `rows`.
#[unsafe(no_mangle)]
pub extern "C" fn pb_expressions(one: &[u8], two: &[u8], rows: &mut [u64]) -> PbExpressed
    ensures { ExpressedTexts one.now two.now rows.old result rows.new }
{
    PbExpressed::from(expressions::expressions(one, two, rows))
}
