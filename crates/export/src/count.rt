// The count that a reader shows.
ghost use Rattle.std.specs.Prelude.{◌≡◌};
ghost use Rattle.export.specs.Answer.{or_old};
ghost use Rattle.export.specs.Calls.{counted_for};

use crate::state::{reader_on, state_in};
use reader::skip::current_count;

// How many digits a reader has counted, as lexical-util shows it. A refusal leaves the count as it was.
#[unsafe(no_mangle)]
pub extern "C" fn pawhetino_current_count(
    s: &[u8],
    reader: u8,
    state: &[u64; 8],
    count: &mut usize,
) -> u32
    ensures number { result ≡ (counted_for reader state.now s.now).refusal }
    ensures written { count.new ≡ or_old count.old (counted_for reader state.now s.now).count }
{
    // Two errors of two types. As a result with `map_err` and `?`, like a column's, its proof would be the longer one.
    let by = reader_on(reader, state[7]);
    match by {
        Ok(x) => match current_count(s, state_in(state), x) {
            Ok(n) => {
                *count = n;
                0
            }
            Err(refusal) => refusal.number(),
        },
        Err(unknown) => unknown.number(),
    }
}
