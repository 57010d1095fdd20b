// Digit runs: the whole number that the digits under a reader's cursor are. The first other byte stays untaken.
ghost use Rattle.std.specs.Prelude.{◌≡◌, true, cond, ◌+◌, ◌≤◌, ◌<◌, ◌^◌, eqb, length};
ghost use Rattle.reader.specs.Reading.{syntax_for, reading_with, reading_for, has_any_flag, passed_at};
ghost use Rattle.reader.specs.Calls.{next_of};
ghost use Rattle.reader.specs.ZeroSkip.{skip_refusal};
ghost use Rattle.cells.specs.DigitRun.{error_number, run_outcome_of, digit_run_of};
ghost use Rattle.cells.specs.Code.Steps.{step_behind, Stands, StepTold, still_refused, ended_run};

use crate::value::with_digit;
use reader::answer::Answer;
use reader::iterator::admit_run;
use reader::passing::{Syntax, syntax_for};
use reader::rule::Flags;
use reader::skip::{next, peek};
use reader::state::{Numbered, Reader, Refusal, State, moved, with_count};
use word::digit::char_is_digit_by_table;

// Why a run has no value.
#[derive(Clone, Copy, Debug, PartialEq, Eq)]
pub enum RunError {
    NoDigit,
    AboveWidth,
    Refused(Refusal),
}

// What a run comes to: its exact value.
pub type Run = Result<u64, RunError>;

impl RunError {
    // Its number in the log.
    pub fn number(self) -> u32
        ensures { result ≡ error_number self }
    {
        match self {
            RunError::NoDigit => 23,
            RunError::AboveWidth => 24,
            RunError::Refused(refusal) => refusal.number(),
        }
    }
}

impl Numbered for RunError {
    ghost number_as = { error_number };

    fn told_number(self) -> u32 {
        self.number()
    }
}

// A step of a run: a byte taken, with the place and the reader's count behind it and how many separators were passed; or the end of the
// run, with its place and what the last peek passed. Parts without names: it is taken apart right behind each call.
#[derive(Clone, Copy, Debug, PartialEq, Eq)]
pub enum Step {
    Taken(u8, usize, usize, usize),
    Over(usize, usize),
}

// The take behind a peek that saw a digit and passed so many, from the state that the peek left.
fn take_seen(s: &[u8], seen: State, reader: Reader, over: usize) -> Step
    requires { (over ≤ seen.cursor) × (seen.cursor ≤ length s.now) }
    ensures { result ≡ step_behind reader over (next_of (reading_for seen reader) s.now seen reader) }
{
    let took = next(s, seen, reader);
    let all = over + took.report.passed;
    let to = took.state.cursor;
    let behind = took.state.count(reader);
    match took.byte() {
        Some(c) => Step::Taken(c, to, behind, all),
        None => Step::Over(to, all),
    }
}

// A step from a separator, by the reader's own peek and take. The syntax is that of the state, handed on: to read it out of the word costs
// more than a step.
fn separator_step(
    s: &[u8],
    state: State,
    syntax: Syntax,
    reader: Reader,
    at: usize,
    count: usize,
) -> Step
    requires { (syntax ≡ syntax_for state reader) × Stands syntax.flags s.now reader state at count }
    ensures { StepTold (reading_with syntax) s.now reader state at count result }
{
    let here = with_count(moved(state, at), reader, count);
    let seen = peek(s, here, reader);
    let over = seen.report.passed;
    let left = seen.state;
    match seen.byte() {
        Some(b) => {
            if char_is_digit_by_table(b, syntax.radix) {
                return take_seen(s, left, reader, over);
            }
            Step::Over(left.cursor, over)
        }
        None => Step::Over(left.cursor, over),
    }
}

// The reader's count behind a digit: with any flag it is one more.
fn count_past(flags: Flags, count: usize) -> usize
    requires { count + 1 < 2 ^ 64 }
    ensures { result ≡ cond (has_any_flag flags) (count + 1) count }
{
    let counts = flags.has_any();
    if counts {
        return count + 1;
    }
    count
}

// A step from a place. Most places have no separator, or one that is known to be refused: there nothing is passed, and no call is made.
fn step_at(
    s: &[u8],
    state: State,
    syntax: Syntax,
    reader: Reader,
    refused: bool,
    at: usize,
    count: usize,
) -> Step
    requires { (syntax ≡ syntax_for state reader) × Stands syntax.flags s.now reader state at count × (refused ≡ true → passed_at (reading_with syntax) s.now (eqb count 0) at ≡ 0) }
    ensures { StepTold (reading_with syntax) s.now reader state at count result }
{
    if s.len() <= at {
        return Step::Over(at, 0);
    }
    let b = s[at];
    if (b != syntax.separator) | refused {
        if char_is_digit_by_table(b, syntax.radix) {
            let to = at + 1;
            let behind = count_past(syntax.flags, count);
            return Step::Taken(b, to, behind, 0);
        }
        return Step::Over(at, 0);
    }
    separator_step(s, state, syntax, reader, at, count)
}

// Whether the separator at the next place is known to be refused. Only a separator that is itself a digit is ever taken (words that the
// check refuses); with the consecutive flag the rest of its run is refused as it was, and need not be looked through again.
fn stays_refused(syntax: Syntax, c: u8, over: usize, count: usize) -> bool
    ensures { result ≡ still_refused syntax c over count }
{
    syntax.flags.consecutive & (c == syntax.separator) & (over == 0) & (count != 0)
}

// The answer of a run from `state` that is over at `end`.
fn ended(state: State, value: u64, taken: usize, passed: usize, end: State) -> Answer<Run>
    ensures { run_outcome_of result ≡ ended_run state value taken passed end }
{
    if taken == 0 {
        return Answer::refused(RunError::NoDigit, state);
    }
    Answer::new(value, taken, passed, end)
}

// The run of a state that is not refused. The loop keeps numbers only, and makes the state at its end.
fn take_digits(s: &[u8], state: State, syntax: Syntax, reader: Reader) -> Answer<Run>
    requires { (syntax ≡ syntax_for state reader) × (skip_refusal syntax.flags s.now state reader ≡ 0) }
    ensures { run_outcome_of result ≡ digit_run_of syntax s.now state reader }
{
    let mut at = state.cursor;
    let mut count = state.count(reader);
    let mut value: u64 = 0;
    let mut taken: usize = 0;
    let mut passed: usize = 0;
    let mut refused = false;
    // No `for`: how far a step goes on is known once it is made.
    loop {
        let step = step_at(s, state, syntax, reader, refused, at, count);
        match step {
            Step::Taken(c, to, behind, over) => {
                let Some(grown) = with_digit(value, syntax.radix, c) else {
                    return Answer::refused(RunError::AboveWidth, state);
                };
                refused = stays_refused(syntax, c, over, count);
                value = grown;
                taken += 1;
                passed += over;
                at = to;
                count = behind;
            }
            Step::Over(to, over) => {
                let all = passed + over;
                let end = with_count(moved(state, to), reader, count);
                return ended(state, value, taken, all, end);
            }
        }
    }
}

// Takes the digits under the cursor, until a peek sees another byte or the end: their exact value.
pub fn digit_run(s: &[u8], state: State, reader: Reader) -> Answer<Run>
    ensures { run_outcome_of result ≡ digit_run_of (syntax_for state reader) s.now state reader }
{
    match admit_run(s, state, reader) {
        Ok(()) => take_digits(s, state, syntax_for(state, reader), reader),
        Err(refusal) => Answer::refused(RunError::Refused(refusal), state),
    }
}
