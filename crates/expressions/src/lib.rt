// Patterns as expressions: two texts become one pattern of 32 letters by the position construction.
#![tactic(auto)]

ghost use Rattle.std.specs.Prelude.{◌≡◌, ◌≤◌, ◌*◌, length, bytes_eq};
ghost use Rattle.events.specs.Events.{event_name};
ghost use Rattle.expressions.specs.Grammar.Level.{alternation, sequence};
ghost use Rattle.expressions.specs.Positions.{when};
ghost use Rattle.expressions.specs.Texts.{in_name, sign_item, name_item, look_up};
ghost use Rattle.expressions.specs.Pieces.{Coded, begins, loops, takes_empty, Linked, Chained, Parted, Looks, Peeked, Skipped, RunEnd, Marked, Asks, Told, ToldFactor};
ghost use Rattle.expressions.specs.Languages.{Answered};
ghost use Rattle.expressions.specs.Both.{Judged, Crowded, finals_from, Filled};

use events::put_name;
use lent::Page;
use verdict::{Fault, Refusal};

// What a pattern may have, and how many parentheses may be open at once.
const MOST_STATES: usize = 64;

const MOST_OPEN: usize = 32;

// A postfix mark: `*`, `+` or `?`.
#[derive(Clone, Copy, PartialEq, Eq)]
enum Mark {
    Star,
    Plus,
    Maybe,
}

impl Mark {
    // `*` and `+` lead from the last positions back to the first.
    fn loops(self) -> bool
        ensures { result ≡ loops self }
    {
        matches!(self, Mark::Star | Mark::Plus)
    }

    // `*` and `?` take the empty sequence.
    fn takes_empty(self) -> bool
        ensures { result ≡ takes_empty self }
    {
        matches!(self, Mark::Star | Mark::Maybe)
    }
}

// A name, which is an event's by its letter, `1` or `0`; a sign; the end of the text; or what is neither name nor sign.
#[derive(Clone, Copy, PartialEq, Eq)]
enum Token {
    Event(u8),
    One,
    Zero,
    Postfix(Mark),
    Bar,
    Open,
    Close,
    End,
    Unknown,
}

impl Token {
    // Whether a factor begins so: with a name or an open parenthesis.
    fn begins(self) -> bool
        ensures { result ≡ begins self }
    {
        matches!(
            self,
            Token::Event(_) | Token::One | Token::Zero | Token::Open
        )
    }
}

// What stands next, its place and the place after it.
#[derive(Clone, Copy)]
struct Look {
    token: Token,
    place: usize,
    past: usize,
}

// A part that was read: whether it takes the empty sequence, its first and last positions, the states taken, and what stands next.
#[derive(Clone, Copy)]
struct Piece {
    null: bool,
    first: u64,
    last: u64,
    used: usize,
    next: Look,
}

// What may come right after each position, and the positions that carry each letter.
#[derive(Drop)]
struct Tables {
    follow: [u64; 64],
    named: [u64; 32],
}

impl Tables {
    // The positions of `firsts` may come right after each of `lasts`.
    fn link(&mut self, lasts: u64, firsts: u64)
        ensures { Linked lasts firsts self.old self.new }
    {
        for (s, next) in self.follow.iter_mut().enumerate() {
            if (lasts >> s) & 1 == 1 {
                *next |= firsts;
            }
        }
    }

    // The rows of the first n states: what may come next, by letter.
    fn fill(&self, n: usize, rows: &mut [u64])
        requires few { n ≤ 64 }
        requires room { n * 32 ≤ length rows.old }
        ensures { Filled (n * 32) self.now rows.old rows.new }
    {
        for (i, row) in rows[..n * 32].iter_mut().enumerate() {
            *row = self.follow[i / 32] & self.named[i % 32];
        }
    }
}

// The mask where the test holds, else nothing.
#[tactic(auto, unfolding(crate::specs::Positions::when))]
fn kept(test: bool, mask: u64) -> u64
    ensures { result ≡ when test mask }
{
    if test { mask } else { 0 }
}

// One part after the other.
fn chained(x: Piece, y: Piece) -> Piece
    ensures { Chained x y result }
{
    let more = kept(x.null, y.first);
    let less = kept(y.null, x.last);
    Piece {
        null: x.null && y.null,
        first: x.first | more,
        last: less | y.last,
        ..y
    }
}

// One part or the other.
fn parted(x: Piece, y: Piece) -> Piece
    ensures { Parted x y result }
{
    Piece {
        null: x.null || y.null,
        first: x.first | y.first,
        last: x.last | y.last,
        ..y
    }
}

// Whether a byte is a capital or a digit.
fn in_name(b: u8) -> bool
    ensures { result ≡ in_name b }
{
    matches!(b, b'0'..=b'9' | b'A'..=b'Z')
}

// The first place from `at` on that has no space.
fn skip(text: &[u8], at: usize) -> usize
    requires { at ≤ length text.now }
    ensures { Skipped text.now at result }
{
    at + text[at..].iter().take_while(|b| **b == b' ').count()
}

// The place after the longest run of capitals and digits from `at` on.
fn run_end(text: &[u8], at: usize) -> usize
    requires { at ≤ length text.now }
    ensures { RunEnd text.now at result }
{
    at + text[at..].iter().take_while(|b| in_name(**b)).count()
}

// A sign, or neither name nor sign.
#[tactic(auto, unfolding(crate::specs::Texts::sign_item))]
fn sign_token(b: u8) -> Token
    requires { b ≡ 32 → ⊥ }
    ensures { Coded (sign_item b) result }
{
    match b {
        b'*' => Token::Postfix(Mark::Star),
        b'+' => Token::Postfix(Mark::Plus),
        b'?' => Token::Postfix(Mark::Maybe),
        b'|' => Token::Bar,
        b'(' => Token::Open,
        b')' => Token::Close,
        _ => Token::Unknown,
    }
}

// Whether the run is the name of a letter.
fn name_is(run: &[u8], letter: u8) -> bool
    ensures { result ≡ bytes_eq run.now (event_name letter) }
{
    let mut name = [0; 9];
    let mut page = Page {
        out: &mut name,
        at: 0,
    };
    put_name(&mut page, letter);
    let end = page.at;
    run == &page.out[..end]
}

// The letter of an event name, or neither name nor sign.
fn find(run: &[u8]) -> Token
    ensures { Coded (look_up run.now 32 0) result }
{
    for letter in 0..32 {
        if name_is(run, letter) {
            return Token::Event(letter);
        }
    }
    Token::Unknown
}

// A name: an event's, `1` or `0`; or neither name nor sign.
fn name_token(run: &[u8]) -> Token
    ensures { Coded (name_item run.now) result }
{
    if run == b"1".as_slice() {
        return Token::One;
    }
    if run == b"0".as_slice() {
        return Token::Zero;
    }
    find(run)
}

// What stands next from a place on, spaces passed over.
fn peek(text: &[u8], at: usize) -> Look
    requires { at ≤ length text.now }
    ensures { Peeked text.now at result }
{
    let place = skip(text, at);
    if place == text.len() {
        return Look {
            token: Token::End,
            place,
            past: place,
        };
    }
    let b = text[place];
    if in_name(b) {
        let past = run_end(text, place);
        let token = name_token(&text[place..past]);
        return Look { token, place, past };
    }
    Look {
        token: sign_token(b),
        place,
        past: place + 1,
    }
}

// The marks after a factor. By `while`, as in `sequence` and `alternation`: each token says whether another part follows.
fn marks(text: &[u8], mut x: Piece, tables: &mut Tables) -> Piece
    requires { Looks text.now x.next }
    ensures { Marked text.now x tables.old tables.new result }
{
    while let Token::Postfix(mark) = x.next.token {
        if mark.loops() {
            tables.link(x.last, x.first);
        }
        x.null |= mark.takes_empty();
        x.next = peek(text, x.next.past);
    }
    x
}

// A name, or an alternation in parentheses, and its marks.
#[cycle(readers)]
fn factor(
    text: &[u8],
    next: Look,
    used: usize,
    depth: usize,
    tables: &mut Tables,
) -> Result<Piece, Fault>
    requires asks { Asks text.now next.place used depth }
    requires looks { Looks text.now next }
    ensures { ToldFactor text.now next depth used tables.old tables.new result }
{
    let x = match next.token {
        Token::Event(letter) => {
            if used >= MOST_STATES {
                return Err(Fault {
                    why: Refusal::TooMany,
                    place: next.place,
                });
            }
            let one = 1u64 << used;
            tables.named[usize::from(letter)] |= one;
            Piece {
                null: false,
                first: one,
                last: one,
                used: used + 1,
                next: peek(text, next.past),
            }
        }
        Token::One => Piece {
            null: true,
            first: 0,
            last: 0,
            used,
            next: peek(text, next.past),
        },
        Token::Zero => Piece {
            null: false,
            first: 0,
            last: 0,
            used,
            next: peek(text, next.past),
        },
        Token::Open => {
            if depth >= MOST_OPEN {
                return Err(Fault {
                    why: Refusal::TooDeep,
                    place: next.place,
                });
            }
            let inner = alternation(text, next.past, used, depth + 1, tables)?;
            if inner.next.token != Token::Close {
                return Err(Fault {
                    why: Refusal::Syntax,
                    place: inner.next.place,
                });
            }
            Piece {
                next: peek(text, inner.next.past),
                ..inner
            }
        }
        _ => {
            return Err(Fault {
                why: Refusal::Syntax,
                place: next.place,
            });
        }
    };
    Ok(marks(text, x, tables))
}

// Factors, one after the other. In its caller's frame: the stack that a text needs is said beside the export.
#[inline(always)]
#[cycle(readers)]
fn sequence(
    text: &[u8],
    at: usize,
    used: usize,
    depth: usize,
    tables: &mut Tables,
) -> Result<Piece, Fault>
    requires { Asks text.now at used depth }
    ensures { Told sequence text.now at depth used tables.old tables.new result }
{
    let next = peek(text, at);
    let mut x = factor(text, next, used, depth, tables)?;
    while x.next.token.begins() {
        let y = factor(text, x.next, x.used, depth, tables)?;
        tables.link(x.last, y.first);
        x = chained(x, y);
    }
    Ok(x)
}

// Sequences with bars between them.
#[cycle(readers)]
fn alternation(
    text: &[u8],
    at: usize,
    used: usize,
    depth: usize,
    tables: &mut Tables,
) -> Result<Piece, Fault>
    requires { Asks text.now at used depth }
    ensures { Told alternation text.now at depth used tables.old tables.new result }
{
    let mut x = sequence(text, at, used, depth, tables)?;
    while x.next.token == Token::Bar {
        let y = sequence(text, x.next.past, x.used, depth, tables)?;
        x = parted(x, y);
    }
    Ok(x)
}

// A whole text, its first name at position `used`.
fn read_text(text: &[u8], used: usize, tables: &mut Tables) -> Result<Piece, Fault>
    requires { Asks text.now 0 used 0 }
    ensures { Judged text.now used tables.old tables.new result }
{
    let x = alternation(text, 0, used, 0, tables)?;
    if x.next.token != Token::End {
        return Err(Fault {
            why: Refusal::Syntax,
            place: x.next.place,
        });
    }
    Ok(x)
}

// The pattern of two texts: the number of its states, its finals and the two starts.
#[derive(Clone, Copy)]
pub struct TextPattern {
    pub states: usize,
    pub finals: u64,
    pub x: u64,
    pub y: u64,
}

// Why two texts are refused: the fault and the text that has it, 1 or 2; place and text are 0 where no text has it.
#[derive(Clone, Copy)]
pub struct TextFault {
    pub fault: Fault,
    pub text: u8,
}

// The second text where no state is left for its start: only a fault of syntax at its first byte goes before that.
fn crowded(second: Result<Piece, Fault>) -> TextFault
    ensures { Crowded second result }
{
    match second {
        Err(fault) if fault.place == 0 => TextFault { fault, text: 2 },
        _ => TextFault {
            fault: Fault {
                why: Refusal::TooMany,
                place: 0,
            },
            text: 2,
        },
    }
}

// The final states of both.
#[tactic(auto, unfolding(crate::specs::Both::finals_from))]
fn finals(x: Piece, y: Piece, start: u64) -> u64
    ensures { result ≡ finals_from x y start }
{
    let a = kept(x.null, 1);
    let b = kept(y.null, start);
    (x.last | a) | (y.last | b)
}

// Two texts as one pattern of 32 letters.
pub fn expressions(one: &[u8], two: &[u8], rows: &mut [u64]) -> Result<TextPattern, TextFault>
    ensures { Answered one.now two.now rows.old rows.new result }
{
    let mut tables = Tables {
        follow: [0; 64],
        named: [0; 32],
    };
    let x = read_text(one, 1, &mut tables).map_err(|fault| TextFault { fault, text: 1 })?;
    if x.used >= MOST_STATES {
        return Err(crowded(read_text(two, MOST_STATES, &mut tables)));
    }
    let y = read_text(two, x.used + 1, &mut tables).map_err(|fault| TextFault { fault, text: 2 })?;
    if rows.len() < y.used * 32 {
        return Err(TextFault {
            fault: Fault {
                why: Refusal::NoRoom,
                place: 0,
            },
            text: 0,
        });
    }
    let start = 1u64 << x.used;
    tables.link(1, x.first);
    tables.link(start, y.first);
    tables.fill(y.used, rows);
    Ok(TextPattern {
        states: y.used,
        finals: finals(x, y, start),
        x: 1,
        y: start,
    })
}
