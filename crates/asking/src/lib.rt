// The question of a pattern file, asked in a room: bytes in; the answer, the rows, the records and the sequence out.
#![tactic(auto)]

ghost use Rattle.comparison.specs.Answers.{lent_in};
ghost use Rattle.asking.specs.Asking.{Suffices, AnswersFile};

use comparison::{Answer, Tables};
use pattern::Question;
use verdict::Fault;

// Reads the file and compares its two sets; a file that was read is never refused by the comparison.
pub fn ask(
    bytes: &[u8],
    room: usize,
    rows: &mut [u64],
    tables: &mut Tables,
) -> Result<Answer, Fault>
    requires { Suffices room rows.old (lent_in tables.old) }
    ensures { AnswersFile bytes.now room rows.old tables.old result rows.new tables.new }
{
    let file = patternfile::read(bytes, rows)?;
    let question = Question {
        pattern: file.pattern(rows),
        x: file.x,
        y: file.y,
    };
    Ok(comparison::compare(&question, room, tables)?)
}
