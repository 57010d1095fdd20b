// The cursor that passes digit separators: peek, take and block take. After lexical-util's skip.rs.
ghost use Rattle.std.specs.Prelude.{◌≡◌, ◌+◌, ◌-◌, ◌^◌, ◌<◌, ◌≤◌, min, ◌&&◌, length, if◌then◌else◌, nat_eq, Ok};
ghost use Rattle.word.specs.Digit.{is_digit};
ghost use Rattle.word.specs.Word.{digit_separator, mantissa_radix};
ghost use Rattle.reader.specs.Place.{is_separator};
ghost use Rattle.reader.specs.Reading.{reading_with, reading_for};
ghost use Rattle.reader.specs.State.{count_sum};
ghost use Rattle.reader.specs.Code.Looks.{look_outcome, LookFits};
ghost use Rattle.reader.specs.Code.TakeSums.{take_sums_from};
ghost use Rattle.reader.specs.Answer.{outcome_of, count_outcome_of, block_outcome_of};
ghost use Rattle.reader.specs.Calls.{peek_of, next_of, next_all_of, taken_from, shown_count, current_count_of, peeked, refusal_with};
ghost use Rattle.reader.specs.Block.{block_from, take_n_of, BlockPart};

use crate::answer::{Answer, Block, Seen};
use crate::passing::{Syntax, landing, past_taken, separator_landing, syntax_for};
use crate::rule::{Flags, later_rule};
use crate::state::{
    Reader, Refusal, State, admit, admit_block, admit_place, counted, counts_digits, moved,
    own_count, with_count,
};
use word::digit::char_is_digit_by_table;
use word::format_flags::Format;

// What a look at the cursor finds: the byte, if there is one, the place that the cursor moves to, and how many separators it passes.
#[derive(Clone, Copy, Debug, PartialEq, Eq)]
pub struct Sight {
    pub byte: Option<u8>,
    pub place: usize,
    pub passed: usize,
}

// What takes to the end come to, as numbers: the place, the reader's count, and how many separators were passed.
#[derive(Clone, Copy, Debug, PartialEq, Eq)]
pub struct TakeSums {
    pub at: usize,
    pub count: usize,
    pub passed: usize,
}

pub fn is_digit(format: Format, c: u8) -> bool
    ensures { result ≡ is_digit c (mantissa_radix format) }
{
    word::digit::char_is_digit_const(c, format.mantissa_radix())
}

pub fn is_digit_separator(format: Format, c: u8) -> bool
    ensures { result ≡ is_separator (digit_separator format) c }
{
    let separator = format.digit_separator();
    (separator != 0) & (c == separator)
}

// Passes what the reader may pass at the cursor, and looks at the byte then under it. All calls begin so. Slice, state, syntax and reader
// stay four arguments of the functions below: a call makes its syntax once, and only few of them are about all four.
pub(crate) fn look(s: &[u8], state: State, syntax: Syntax, reader: Reader) -> Result<Sight, Refusal>
    ensures outcome { look_outcome state result ≡ peek_of (reading_with syntax) s.now state reader }
    ensures fits { LookFits s.now state result }
{
    admit(s, state, syntax.flags, reader)?;
    Ok(look_past(s, state, syntax, reader))
}

// The same of a state that is not refused.
fn look_past(s: &[u8], state: State, syntax: Syntax, reader: Reader) -> Sight
    requires { (state.cursor ≤ length s.now) × (count_sum state ≤ state.cursor) }
    ensures outcome { look_outcome state (Ok result) ≡ peeked (reading_with syntax) s.now state reader }
    ensures fits { LookFits s.now state (Ok result) }
{
    let at = state.cursor;
    let place = landing(s, syntax, state.count(reader) == 0, at);
    let passed = place - at;
    let byte = s.get(place).copied();
    Sight {
        byte,
        place,
        passed,
    }
}

// A peek given the reader's syntax. The laws of the calls are about a syntax, whatever word it comes from; so each call has such a part.
fn peek_in(s: &[u8], state: State, syntax: Syntax, reader: Reader) -> Answer<Seen>
    ensures { outcome_of result ≡ peek_of (reading_with syntax) s.now state reader }
{
    match look(s, state, syntax, reader) {
        Ok(seen) => Answer::new(seen.byte, 0, seen.passed, moved(state, seen.place)),
        Err(refusal) => Answer::refused(refusal, state),
    }
}

// The byte under the cursor, after passing what the reader may pass.
pub fn peek(s: &[u8], state: State, reader: Reader) -> Answer<Seen>
    ensures { outcome_of result ≡ peek_of (reading_for state reader) s.now state reader }
{
    let syntax = syntax_for(state, reader);
    peek_in(s, state, syntax, reader)
}

// The state behind a byte that the reader takes: a reader with any flag counts a digit.
fn past_byte(state: State, syntax: Syntax, reader: Reader, b: u8) -> State
    requires { (state.cursor + 1 < 2 ^ 64) × (count_sum state ≤ state.cursor) }
    ensures { result ≡ taken_from (reading_with syntax) reader b state }
{
    let next = moved(state, state.cursor + 1);
    if syntax.flags.has_any() & char_is_digit_by_table(b, syntax.radix) {
        return counted(next, reader);
    }
    next
}

// A take given the reader's syntax.
fn next_in(s: &[u8], state: State, syntax: Syntax, reader: Reader) -> Answer<Seen>
    ensures { outcome_of result ≡ next_of (reading_with syntax) s.now state reader }
{
    match look(s, state, syntax, reader) {
        Ok(seen) => {
            let there = moved(state, seen.place);
            match seen.byte {
                Some(b) => Answer::new(
                    Some(b),
                    1,
                    seen.passed,
                    past_byte(there, syntax, reader, b),
                ),
                None => Answer::new(None, 0, seen.passed, there),
            }
        }
        Err(refusal) => Answer::refused(refusal, state),
    }
}

// Takes the byte under the cursor, after passing what the reader may pass.
pub fn next(s: &[u8], state: State, reader: Reader) -> Answer<Seen>
    ensures { outcome_of result ≡ next_of (reading_for state reader) s.now state reader }
{
    let syntax = syntax_for(state, reader);
    next_in(s, state, syntax, reader)
}

// The reader's count after a byte that it takes. Whether it counts is a test of its own, so that a loop makes it once.
fn count_past(counts: bool, b: u8, radix: u8, count: usize) -> usize
    requires { count + 1 < 2 ^ 64 }
    ensures { result ≡ (if counts && is_digit b radix then count + 1 else count) }
{
    if !counts {
        return count;
    }
    if char_is_digit_by_table(b, radix) {
        return count + 1;
    }
    count
}

// The count behind so many bytes of one kind, from what it is behind the first of them.
fn count_behind(more: usize, count: usize, taken: usize) -> usize
    requires { count + taken < 2 ^ 64 }
    ensures { result ≡ (if nat_eq more count then count else count + taken) }
{
    if more == count {
        return count;
    }
    count + taken
}

// Takes until there is no byte, on plain numbers: from a place, with the reader's count there, which digits raise if it counts them.
// Most bytes are no separator, so that compare stands first; a run of separators that is refused is taken at once.
pub(crate) fn take_run(
    s: &[u8],
    syntax: Syntax,
    counts: bool,
    start: usize,
    counted: usize,
) -> TakeSums
    requires { (start ≤ length s.now) × (counted ≤ start) }
    ensures sums { result ≡ take_sums_from (reading_with syntax) s.now counts start counted }
    ensures fits { (start + result.passed ≤ result.at) × (result.at ≤ length s.now) × (result.count ≤ result.at) }
{
    let separator = syntax.separator;
    let radix = syntax.radix;
    let later = later_rule(syntax.flags);
    let mut at = start;
    let mut count = counted;
    let mut passed: usize = 0;
    // No `for`: a turn may go over a whole run of separators.
    while at < s.len() {
        let b = s[at];
        if b != separator {
            count = count_past(counts, b, radix, count);
            at += 1;
            continue;
        }
        let place = separator_landing(s, syntax, later, count == 0, at);
        let over = place - at;
        if s.len() <= place {
            let total = passed + over;
            return TakeSums {
                at: place,
                count,
                passed: total,
            };
        }
        let c = s[place];
        let more = count_past(counts, c, radix, count);
        let refused = (over == 0) & ((more == count) | (count != 0));
        at = past_taken(s, syntax, refused, place);
        count = count_behind(more, count, at - place);
        passed += over;
    }
    TakeSums { at, count, passed }
}

// The same from a state that is not refused, and the state at the end.
fn take_all(s: &[u8], state: State, syntax: Syntax, reader: Reader) -> Answer<Seen>
    requires { refusal_with syntax.flags s.now state reader ≡ 0 }
    ensures { outcome_of result ≡ next_all_of (reading_with syntax) s.now state reader }
{
    let start = state.cursor;
    let counts = counts_digits(syntax.flags, reader);
    let run = take_run(s, syntax, counts, start, state.count(reader));
    let end = with_count(moved(state, run.at), reader, run.count);
    let taken = run.at - start - run.passed;
    Answer::new(None, taken, run.passed, end)
}

// Takes until there is no byte, given the reader's syntax.
fn next_all_in(s: &[u8], state: State, syntax: Syntax, reader: Reader) -> Answer<Seen>
    ensures { outcome_of result ≡ next_all_of (reading_with syntax) s.now state reader }
{
    match admit(s, state, syntax.flags, reader) {
        Ok(()) => take_all(s, state, syntax, reader),
        Err(refusal) => Answer::refused(refusal, state),
    }
}

// Takes to the end of the buffer in one call.
pub fn next_all(s: &[u8], state: State, reader: Reader) -> Answer<Seen>
    ensures { outcome_of result ≡ next_all_of (reading_for state reader) s.now state reader }
{
    let syntax = syntax_for(state, reader);
    next_all_in(s, state, syntax, reader)
}

// The count that the crate shows where a reader has no flag.
fn unflagged_count(state: State, separator: u8) -> usize
    requires { count_sum state < 2 ^ 64 }
    ensures { result ≡ (if nat_eq separator 0 then state.cursor else count_sum state) }
{
    let unset = separator == 0;
    if unset {
        return state.cursor;
    }
    state.integer.0 + state.fraction.0 + state.exponent.0
}

// What the crate's `current_count` shows.
fn shown_count(state: State, syntax: Syntax, reader: Reader) -> usize
    requires { count_sum state < 2 ^ 64 }
    ensures { result ≡ shown_count (reading_with syntax) state reader }
{
    if syntax.flags.has_any() {
        return state.count(reader);
    }
    own_count(reader, unflagged_count(state, syntax.separator))
}

// How many digits the reader has counted, as the crate shows it.
pub fn current_count(s: &[u8], state: State, reader: Reader) -> Result<usize, Refusal>
    ensures { count_outcome_of result ≡ current_count_of (reading_for state reader) s.now state reader }
{
    admit_place(s, state)?;
    Ok(shown_count(state, syntax_for(state, reader), reader))
}

// How many of n bytes there are from the cursor on. No sum of n and the cursor is formed, so any n will do.
fn bytes_left(s: &[u8], cursor: usize, n: usize) -> usize
    requires { cursor ≤ length s.now }
    ensures { result ≡ min n (length s.now - cursor) }
{
    n.min(s.len() - cursor)
}

// The block of a state that is not refused.
fn block_from(s: &[u8], state: State, flags: Flags, n: usize) -> Answer<Block>
    requires { state.cursor ≤ length s.now }
    ensures { block_outcome_of result ≡ block_from flags s.now state n }
{
    if flags.has_any() {
        return Answer::new(None, 0, 0, state);
    }
    let cursor = state.cursor;
    let taken = bytes_left(s, cursor, n);
    Answer::new(Some(taken), taken, 0, moved(state, cursor + taken))
}

// Takes up to n bytes at once, by a reader without flags; one with any flag answers none and stays.
pub fn take_n(s: &[u8], state: State, reader: Reader, n: usize) -> Answer<Block>
    ensures { block_outcome_of result ≡ take_n_of (reading_for state reader) s.now state reader n }
{
    match admit_block(s, state, reader) {
        Ok(()) => block_from(s, state, syntax_for(state, reader).flags, n),
        Err(refusal) => Answer::refused(refusal, state),
    }
}

// The part of the buffer that `take_n` takes, for the same arguments; empty for none or a refusal.
pub fn take_n_part(s: &[u8], state: State, reader: Reader, n: usize) -> &[u8]
    ensures { BlockPart s.entry state reader n result }
{
    let answer = take_n(s, state, reader, n);
    let report = answer.report;
    match report.found {
        Ok(Some(_)) => {
            let start = state.cursor;
            let end = answer.state.cursor;
            &s[start..end]
        }
        // Two arms, for the proof asks which it is.
        Ok(None) => &s[0..0],
        Err(_) => &s[0..0],
    }
}
