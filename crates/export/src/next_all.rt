// Takes to the end of a cell. Most cells are taken from a fresh state, and each of their separators stands right before a digit, none
// before the first one: such cells go by numbers, and nothing is asked of the rule table.
ghost use Rattle.std.specs.Prelude.{◌≡◌, cond, [], ◌∷◌, ◌+◌, ◌-◌, ◌<◌, ◌≤◌, ◌^◌, length, slice_index, IfOk};
ghost use Rattle.word.specs.Digit.{is_digit};
ghost use Rattle.export.specs.State.{state_words};
ghost use Rattle.export.specs.Answer.{byte_words};
ghost use Rattle.export.specs.Calls.{taken_all_by};
ghost use Rattle.export.specs.Code.FreshWords.{end_words};
ghost use Rattle.export.specs.Code.GroupedCell.{GroupedCell};

use crate::fresh::{fresh_format, put_counted};
use crate::reply::served;
use crate::spaced::next_all_runs;
use reader::skip::next_all;
use word::digit::char_is_digit_by_range;
use word::format_flags::mantissa_radix_byte;

// As the reader answers it. It is called at each way out of the quick way: behind all of them at once, it would have registers saved on the
// quick way too (docs/DECISIONS.md, 52).
pub(crate) fn next_all_any(s: &[u8], reader: u8, state: &mut [u64; 8], answer: &mut [u64; 4]) -> u32
    ensures number { result ≡ (taken_all_by reader state.old s.now).refusal }
    ensures moved { state.new ≡ state_words state.old (taken_all_by reader state.old s.now).state }
    ensures written { answer.new ≡ byte_words answer.old (taken_all_by reader state.old s.now) }
{
    served(
        reader,
        &mut *state,
        &mut *answer,
        |here, x| next_all(s, here, x),
    )
}

// What a cell taken by numbers comes to: its digits and the separators passed.
#[derive(Clone, Copy, Debug, PartialEq, Eq)]
pub struct Grouped {
    pub count: usize,
    pub passed: usize,
}

// What keeps a cell from being grouped: two separators side by side, or anything else.
#[derive(Clone, Copy, Debug, PartialEq, Eq)]
pub enum NotGrouped {
    HasRun,
    Other,
}

// The count behind a byte.
pub(crate) fn count_past(b: u8, radix: u8, count: usize) -> usize
    requires { count + 1 < 2 ^ 64 }
    ensures { result ≡ cond (is_digit b radix) (count + 1) count }
{
    if char_is_digit_by_range(b, radix) {
        return count + 1;
    }
    count
}

// The loop jumps over a separator with the byte behind it, so it goes by an index: an iterator with two bytes of sight is no plainer.
// `spaced_cell` and `grouped_run` have loops of their own: one that is called from two places is compiled into neither.
fn grouped_cell(s: &[u8], separator: u8, radix: u8) -> Result<Grouped, NotGrouped>
    ensures { IfOk result (λ cell. (cell.passed ≤ length s.now) × GroupedCell separator radix s.now cell.count cell.passed) }
{
    let mut at: usize = 0;
    let mut count: usize = 0;
    let mut passed: usize = 0;
    while at < s.len() {
        let b = s[at];
        if b != separator {
            count = count_past(b, radix, count);
            at += 1;
            continue;
        }
        let n = at + 1;
        if s.len() <= n {
            return Err(NotGrouped::Other);
        }
        let early = count == 0;
        if early {
            return Err(NotGrouped::Other);
        }
        let c = s[n];
        let double = c == separator;
        if double {
            return Err(NotGrouped::HasRun);
        }
        let before_digit = char_is_digit_by_range(c, radix);
        if !before_digit {
            return Err(NotGrouped::Other);
        }
        count += 1;
        passed += 1;
        at = n + 1;
    }
    Ok(Grouped { count, passed })
}

// Writes what takes to the end of a cell of so many bytes have come to, from a fresh state.
pub(crate) fn put_end(
    reader: u8,
    size: usize,
    cell: Grouped,
    state: &mut [u64; 8],
    answer: &mut [u64; 4],
) -> u32
    requires { cell.passed ≤ size }
    ensures number { result ≡ 0 }
    ensures moved { state.new ≡ end_words reader size cell.count state.old }
    ensures written { answer.new ≡ (0 ∷ slice_index answer.old 1 ∷ (size - cell.passed) ∷ cell.passed ∷ []) }
{
    put_counted(reader, size, cell.count, &mut *state);
    let end = size as u64;
    let over = cell.passed as u64;
    let taken = end - over;
    let old = answer[1];
    *answer = [0, old, taken, over];
    0
}

// Takes until there is no byte. Taken and passed are the sums of all the takes.
#[unsafe(no_mangle)]
pub extern "C" fn pawhetino_next_all(
    s: &[u8],
    reader: u8,
    state: &mut [u64; 8],
    answer: &mut [u64; 4],
) -> u32
    ensures number { result ≡ (taken_all_by reader state.old s.now).refusal }
    ensures moved { state.new ≡ state_words state.old (taken_all_by reader state.old s.now).state }
    ensures written { answer.new ≡ byte_words answer.old (taken_all_by reader state.old s.now) }
{
    let Some(format) = fresh_format(reader, &*state) else {
        return next_all_any(&s[..], reader, &mut *state, &mut *answer);
    };
    let separator = format.digit_separator();
    let size = s.len();
    match grouped_cell(s, separator, mantissa_radix_byte(format)) {
        Ok(cell) => put_end(reader, size, cell, &mut *state, &mut *answer),
        Err(NotGrouped::HasRun) => next_all_runs(&s[..], reader, &mut *state, &mut *answer),
        Err(NotGrouped::Other) => next_all_any(&s[..], reader, &mut *state, &mut *answer),
    }
}
