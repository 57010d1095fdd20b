// A fresh state lent as words, from which the quick ways of cells begin: takes to the end and digit runs.
ghost use Rattle.std.specs.Prelude.{◌≡◌, cond, nat_eq, IfSome};
ghost use Rattle.export.specs.State.{state_in};
ghost use Rattle.export.specs.Code.FreshWords.{FreshWords, end_words};

use crate::over::has_internal;
use crate::state::format_in;
use word::format_flags::Format;

// The format word, where the state is fresh, of a known edition, and the reader counts and may pass between digits.
pub(crate) fn fresh_format(reader: u8, state: &[u64; 8]) -> Option<Format>
    ensures { IfSome result (λ format. (format ≡ (state_in state.now).format) × FreshWords reader state.now) }
{
    let cursor = state[2];
    let edition = state[7];
    let other = (2 < reader) | (cursor != 0) | (edition != 0);
    if other {
        return None;
    }
    let integer = state[3];
    let fraction = state[4];
    let exponent = state[5];
    let counted = (integer != 0) | (fraction != 0) | (exponent != 0);
    if counted {
        return None;
    }
    let format = format_in(state);
    let unset = format.digit_separator() == 0;
    if unset {
        return None;
    }
    if !has_internal(format, reader) {
        return None;
    }
    Some(format)
}

// The count for the reader that it is, 0 for another: by its number, so that nothing is asked of it.
fn own(reader: u8, which: u8, count: u64) -> u64
    ensures { result ≡ cond (nat_eq reader which) count 0 }
{
    if reader == which { count } else { 0 }
}

// Writes a state that was fresh at a place, with so many digits counted.
pub(crate) fn put_counted(reader: u8, at: usize, count: usize, state: &mut [u64; 8])
    ensures { state.new ≡ end_words reader at count state.old }
{
    let lo = state[0];
    let hi = state[1];
    let end = at as u64;
    let digits = count as u64;
    let by_integer = own(reader, 0, digits);
    let by_fraction = own(reader, 1, digits);
    let by_exponent = own(reader, 2, digits);
    let kept = state[6];
    let edition = state[7];
    *state = [
        lo,
        hi,
        end,
        by_integer,
        by_fraction,
        by_exponent,
        kept,
        edition,
    ];
}
