// Takes to the end of a cell that is padded with runs of separators. A reader that passes a run at once, up to a digit, goes by numbers
// there too: the run's end is all that is sought.
ghost use Rattle.std.specs.Prelude.{◌≡◌, ◌<◌, ◌≤◌, length, IfSome};
ghost use Rattle.export.specs.State.{state_words};
ghost use Rattle.export.specs.Answer.{byte_words};
ghost use Rattle.export.specs.Calls.{taken_all_by};
ghost use Rattle.export.specs.Code.FreshWords.{FreshWords};
ghost use Rattle.export.specs.Code.GroupedCell.{SpacedCell};

use crate::next_all::{Grouped, count_past, next_all_any, put_end};
use crate::over::has_consecutive;
use crate::state::format_in;
use reader::search::search_run;
use word::digit::char_is_digit_by_range;
use word::format_flags::mantissa_radix_byte;

// A cell each of whose runs stands right before a digit, none before the first one. The loop jumps over a run, so it goes by an index.
fn spaced_cell(s: &[u8], separator: u8, radix: u8) -> Option<Grouped>
    requires { 0 < separator }
    ensures { IfSome result (λ cell. (cell.passed ≤ length s.now) × SpacedCell separator radix s.now cell.count cell.passed) }
{
    let mut at: usize = 0;
    let mut count: usize = 0;
    let mut passed: usize = 0;
    while at < s.len() {
        let b = s[at];
        if b != separator {
            count = count_past(b, radix, count);
            at += 1;
            continue;
        }
        let early = count == 0;
        if early {
            return None;
        }
        let end = search_run(s, separator, at).end;
        if s.len() <= end {
            return None;
        }
        let c = s[end];
        let before_digit = char_is_digit_by_range(c, radix);
        if !before_digit {
            return None;
        }
        count += 1;
        passed += end - at;
        at = end + 1;
    }
    Some(Grouped { count, passed })
}

// A cell with runs of separators, by numbers too where the reader passes them at once.
pub(crate) fn next_all_runs(
    s: &[u8],
    reader: u8,
    state: &mut [u64; 8],
    answer: &mut [u64; 4],
) -> u32
    requires { FreshWords reader state.old }
    ensures number { result ≡ (taken_all_by reader state.old s.now).refusal }
    ensures moved { state.new ≡ state_words state.old (taken_all_by reader state.old s.now).state }
    ensures written { answer.new ≡ byte_words answer.old (taken_all_by reader state.old s.now) }
{
    let format = format_in(&*state);
    let consecutive = has_consecutive(format, reader);
    if !consecutive {
        return next_all_any(&s[..], reader, &mut *state, &mut *answer);
    }
    let size = s.len();
    match spaced_cell(s, format.digit_separator(), mantissa_radix_byte(format)) {
        Some(cell) => put_end(reader, size, cell, &mut *state, &mut *answer),
        None => next_all_any(&s[..], reader, &mut *state, &mut *answer),
    }
}
