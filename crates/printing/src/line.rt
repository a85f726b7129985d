// The printed lines, and how one is written into a print buffer.
ghost use Rattle.std.specs.Prelude.{◌≡◌, ◌++◌};
ghost use Rattle.printing.specs.Lines.{spaced, refusal_of, outcome_of, opening_of, words_of, line_of, Fitted};
ghost use Rattle.printing.specs.Numerals.{DecimalsAreRight};

use crate::sink::{Place, Room, Sink};
use records::numbers::SequentNumber;
use records::refusal::Refusal;

// The one cause for which an open is refused: the number of principals is not 1 to 8.
#[derive(Clone, Copy, PartialEq, Eq, Debug)]
pub struct WrongCount;

// A printed line: a case for each call, with the number that it speaks of and how it ended, and the stop.
#[derive(Clone, Copy, PartialEq, Eq, Debug)]
pub enum Line {
    // `open P ok` or `open P 1 0`
    Open(u16, Result<(), WrongCount>),
    // `enter M ok` or `enter - N S`
    Enter(Result<SequentNumber, Refusal>),
    // `prove M ok` or `prove M N S`
    Prove(SequentNumber, Result<(), Refusal>),
    // `refute M ok` or `refute M N S`
    Refute(SequentNumber, Result<(), Refusal>),
    // `stop`
    Stop,
}

// Puts a number with a space before it.
#[inline(always)]
fn put_spaced<S: Sink>(sink: &mut S, n: u16)
    requires { S.can_take sink.old (spaced n) }
    ensures { S.takes sink.old (spaced n) sink.new }
{
    sink.put(b" ");
    sink.put_number(n);
}

// Puts a refusal's two numbers.
#[inline(always)]
fn put_refusal<S: Sink>(sink: &mut S, e: Refusal)
    requires { S.can_take sink.old (refusal_of e) }
    ensures { S.takes sink.old (refusal_of e) sink.new }
{
    let first = e.number();
    let second = e.second();
    put_spaced(sink, first);
    put_spaced(sink, second);
}

// Puts how a call ended.
#[inline(always)]
fn put_outcome<S: Sink>(sink: &mut S, done: Result<(), Refusal>)
    requires { S.can_take sink.old (outcome_of done) }
    ensures { S.takes sink.old (outcome_of done) sink.new }
{
    match done {
        Ok(()) => sink.put(b" ok"),
        Err(e) => put_refusal(sink, e),
    }
}

// Puts a call's words: its name, the number that it speaks of, and how it ended.
#[inline(always)]
fn put_call<S: Sink>(sink: &mut S, name: &[u8], number: u16, done: Result<(), Refusal>)
    requires { S.can_take sink.old (name.now ++ spaced number ++ outcome_of done) }
    ensures { S.takes sink.old (name.now ++ spaced number ++ outcome_of done) sink.new }
{
    sink.put(name);
    put_spaced(sink, number);
    put_outcome(sink, done);
}

// How an open ended, as a call's end.
#[tactic(auto, using(crate::proofs::Refused::count_refused))]
fn opening(done: Result<(), WrongCount>) -> Result<(), Refusal>
    ensures { outcome_of result ≡ opening_of done }
{
    done.map_err(|_| Refusal::PrincipalCount)
}

// Puts `words` with a refusal behind them.
#[inline(always)]
fn put_refused<S: Sink>(sink: &mut S, words: &[u8], e: Refusal)
    requires { S.can_take sink.old (words.now ++ refusal_of e) }
    ensures { S.takes sink.old (words.now ++ refusal_of e) sink.new }
{
    sink.put(words);
    put_refusal(sink, e);
}

// Puts a line without its end.
#[inline(always)]
fn put_words<S: Sink>(sink: &mut S, line: Line)
    requires { S.can_take sink.old (words_of line) }
    ensures { S.takes sink.old (words_of line) sink.new }
{
    match line {
        Line::Open(p, done) => put_call(sink, b"open", p, opening(done)),
        Line::Enter(Ok(m)) => put_call(sink, b"enter", m.0, Ok(())),
        Line::Enter(Err(e)) => put_refused(sink, b"enter -", e),
        Line::Prove(m, done) => put_call(sink, b"prove", m.0, done),
        Line::Refute(m, done) => put_call(sink, b"refute", m.0, done),
        Line::Stop => sink.put(b"stop"),
    }
}

// Puts a line.
#[inline(always)]
fn put_line<S: Sink>(sink: &mut S, line: Line)
    requires { S.can_take sink.old (line_of line) }
    ensures { S.takes sink.old (line_of line) sink.new }
{
    put_words(sink, line);
    sink.put(b"\n");
}

// Writes the line into `buf` from the place `at` and answers the next free place; where the line does not fit, nothing is written.
// Buffer and place come apart: they are the caller's, and become one inside.
pub fn write_line(buf: &mut [u8], at: usize, line: Line) -> Result<usize, Refusal>
    ensures line { Fitted buf.old at (line_of line) result buf.new }
    ensures numbers { DecimalsAreRight }
{
    let mut room = Room {
        left: buf.len().checked_sub(at),
    };
    put_line(&mut room, line);
    if room.left.is_none() {
        return Err(Refusal::LineTooLong);
    }
    let mut place = Place { buf, at };
    put_line(&mut place, line);
    Ok(place.at)
}
