// Take to the end over a column of cells in one call. Most cells of a column are ordinary: they begin with a digit and do not end with
// a separator. Stretches of such cells are counted as if they were one, many bytes at a time; any other cell is taken byte by byte.
ghost use Rattle.std.specs.Prelude.{◌≡◌, ◌+◌, ◌^◌, ◌<◌, ◌≤◌, min, max, true, length};
ghost use Rattle.reader.specs.Reading.{reading_with, reading_of};
ghost use Rattle.reader.specs.State.{fresh_of};
ghost use Rattle.reader.specs.Calls.{refusal_with};
ghost use Rattle.reader.specs.Column.{add_totals, cell_totals, column_from, column_of, column_outcome_of};
ghost use Rattle.reader.specs.Code.OrdinaryCells.{Countable, Ordinary, Stretch, fills_of, is_served, is_quick, passing as passing_of, doubles as doubles_of, before_digits, ordinary_totals};

use crate::pairs::{Pairs, count_pairs};
use crate::passing::{Syntax, syntax_of};
use crate::rule::{Neighbour, later_rule};
use crate::skip::take_run;
use crate::state::{Reader, Refusal, State, admit, counts_digits, own_count};
use word::digit::char_is_digit_by_table;
use word::format_flags::Format;

// What is summed over the cells.
#[derive(Clone, Copy, Debug, Default, PartialEq, Eq)]
pub struct Totals {
    pub taken: usize,
    pub passed: usize,
    pub digits: usize,
}

// How many cells a walk has gone over, and where the next one begins.
#[derive(Clone, Copy, Debug, PartialEq, Eq)]
pub struct Reached {
    pub cell: usize,
    pub at: usize,
}

// Where a cell ends, with its end brought within bounds. A test tells an end that is out of order: by the larger of the two each cell would
// wait for the one before it, and cells of no byte or of one took a quarter more.
fn bound_of(size: usize, start: usize, end: usize) -> usize
    ensures { result ≡ min (max end start) size }
{
    if end < start {
        return start.min(size);
    }
    end.min(size)
}

// No `+`: that the sums fit is asked here, and `Add` would want a member of its own for it.
fn add_totals(a: Totals, b: Totals) -> Totals
    requires { (a.taken + b.taken < 2 ^ 64) × (a.passed + b.passed < 2 ^ 64) × (a.digits + b.digits < 2 ^ 64) }
    ensures { result ≡ add_totals a b }
{
    Totals {
        taken: a.taken + b.taken,
        passed: a.passed + b.passed,
        digits: a.digits + b.digits,
    }
}

// The pairs of a separator that is passed once the reader has counted, and the byte behind it. This and the next two are literals: a maker of
// all three would be given as many parts.
fn passing_pairs(syntax: Syntax) -> Pairs
    ensures { result ≡ passing_of syntax }
{
    let later = later_rule(syntax.flags);
    let digit = Neighbour {
        exists: true,
        digit: true,
        separator: false,
    };
    let separator = Neighbour {
        exists: true,
        digit: false,
        separator: true,
    };
    let other = Neighbour {
        exists: true,
        digit: false,
        separator: false,
    };
    Pairs {
        separator: syntax.separator,
        radix: syntax.radix,
        any: false,
        digits: later.passes_before(digit),
        separators: later.passes_before(separator),
        others: later.passes_before(other),
    }
}

fn double_pairs(syntax: Syntax) -> Pairs
    ensures { result ≡ doubles_of syntax }
{
    Pairs {
        separator: syntax.separator,
        radix: syntax.radix,
        any: false,
        digits: false,
        separators: true,
        others: false,
    }
}

fn digit_pairs(syntax: Syntax) -> Pairs
    ensures { result ≡ before_digits syntax }
{
    Pairs {
        separator: syntax.separator,
        radix: syntax.radix,
        any: true,
        digits: true,
        separators: false,
        others: false,
    }
}

// Whether the cells take up the buffer to its end. What a column answers does not depend on it, only how fast.
fn fills(s: &[u8], ends: &[usize]) -> bool
    ensures { result ≡ fills_of s.now ends.now }
{
    match ends.last() {
        Some(last) => s.len() <= *last,
        None => false,
    }
}

// Whether the word and the reader are such that ordinary cells may be counted together.
fn serves(syntax: Syntax, reader: Reader) -> bool
    ensures { result ≡ is_served syntax reader }
{
    let counts = counts_digits(syntax.flags, reader);
    let digit = char_is_digit_by_table(syntax.separator, syntax.radix);
    counts & (syntax.separator != 0) & !digit
}

// Whether ordinary cells of this buffer are counted together. Where runs are passed the whole buffer is looked through for one, so
// only where the cells fill it.
fn is_quick(s: &[u8], filled: bool, syntax: Syntax, reader: Reader) -> bool
    ensures { result ≡ is_quick syntax reader s.now filled }
{
    if !serves(syntax, reader) {
        return false;
    }
    if !syntax.flags.consecutive {
        return true;
    }
    let apart = !filled;
    if apart {
        return false;
    }
    count_pairs(double_pairs(syntax), s) == 0
}

fn is_ordinary(s: &[u8], syntax: Syntax) -> bool
    ensures { result ≡ true → Ordinary syntax s.now }
{
    if s.is_empty() {
        return true;
    }
    let first_byte = s[0];
    let last_byte = s[s.len() - 1];
    char_is_digit_by_table(first_byte, syntax.radix) & (last_byte != syntax.separator)
}

// How far ordinary cells go from the first of these on. The reader is asked for the contract's sake alone, as is the format below.
fn past_ordinary(
    s: &[u8],
    ends: &[usize],
    syntax: Syntax,
    reader: Reader,
    quick: bool,
    start: usize,
) -> Reached
    requires { (quick ≡ true → Countable syntax reader s.now) × (start ≤ length s.now) }
    ensures { Stretch syntax reader s.now ends.now 0 start result }
{
    if !quick {
        return Reached { cell: 0, at: start };
    }
    let mut at = start;
    for (cell, &given) in ends.iter().enumerate() {
        let end = bound_of(s.len(), at, given);
        if !is_ordinary(&s[at..end], syntax) {
            return Reached { cell, at };
        }
        at = end;
    }
    Reached {
        cell: ends.len(),
        at,
    }
}

// What a stretch of ordinary cells adds.
fn stretch_totals(s: &[u8], syntax: Syntax) -> Totals
    ensures { result ≡ ordinary_totals syntax s.now }
{
    let passed = count_pairs(passing_pairs(syntax), s);
    let taken = s.len() - passed;
    if s.is_empty() {
        return Totals::default();
    }
    let begins = char_is_digit_by_table(s[0], syntax.radix);
    let digits = usize::from(begins) + count_pairs(digit_pairs(syntax), s);
    Totals {
        taken,
        passed,
        digits,
    }
}

// What one cell adds, byte by byte.
fn cell_totals(s: &[u8], format: Format, syntax: Syntax, reader: Reader) -> Totals
    requires { refusal_with syntax.flags s.now (fresh_of format) reader ≡ 0 }
    ensures totals { result ≡ cell_totals (reading_with syntax) format reader s.now }
    ensures fits { (result.taken + result.passed ≤ length s.now) × (result.digits ≤ length s.now) }
{
    let counts = counts_digits(syntax.flags, reader);
    let run = take_run(s, syntax, counts, 0, 0);
    Totals {
        taken: run.at - run.passed,
        passed: run.passed,
        digits: own_count(reader, run.count),
    }
}

// The sums over a column that is not refused.
fn column_totals(
    s: &[u8],
    ends: &[usize],
    filled: bool,
    format: Format,
    syntax: Syntax,
    reader: Reader,
) -> Totals
    requires { refusal_with syntax.flags s.now (fresh_of format) reader ≡ 0 }
    ensures { result ≡ column_from (reading_with syntax) format reader s.now 0 ends.now }
{
    let quick = is_quick(s, filled, syntax, reader);
    let mut sums = Totals::default();
    let mut left = ends;
    let mut at: usize = 0;
    // No `for`: a stretch goes over several cells at a time.
    while let Some((&told, behind)) = left.split_first() {
        let to = past_ordinary(s, left, syntax, reader, quick, at);
        if to.cell != 0 {
            let end = to.at;
            sums = add_totals(sums, stretch_totals(&s[at..end], syntax));
            left = &left[to.cell..];
            at = end;
            continue;
        }
        let end = bound_of(s.len(), at, told);
        let one = cell_totals(&s[at..end], format, syntax, reader);
        sums = add_totals(sums, one);
        left = behind;
        at = end;
    }
    sums
}

// Takes every cell of a column to its end, each from a fresh state: the cells lie one after the other in the buffer, and `ends` are the
// places where they end.
pub fn next_all_column(
    s: &[u8],
    ends: &[usize],
    format: Format,
    reader: Reader,
) -> Result<Totals, Refusal>
    ensures { column_outcome_of result ≡ column_of (reading_of format reader) format reader s.now ends.now }
{
    let syntax = syntax_of(format, reader);
    admit(s, State::fresh(format), syntax.flags, reader)?;
    Ok(column_totals(s, ends, fills(s, ends), format, syntax, reader))
}
