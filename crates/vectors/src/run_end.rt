// A recorded search for the end of a run, made anew: the record's fields are packed numbers.
ghost use Rattle.std.specs.Prelude.{◌≡◌};
ghost use Rattle.vectors.specs.RunEnd.{long_buffer_of, packed_search, searched_of};

use crate::packed::low_byte;
use reader::search::{RunSearch, search_run};

// How many packed numbers hold a recorded buffer.
pub const NUMBERS: usize = 5;

// The most bytes of a recorded buffer.
const MOST: usize = 40;

// The bytes of the numbers one behind the other, of each the lowest first. A loop over `chunks_exact_mut` was tried: what it lends wants an
// invariant, and with that the proof did not close.
fn long_buffer_of(numbers: [u64; NUMBERS]) -> [u8; MOST]
    ensures { result ≡ long_buffer_of numbers }
{
    let mut buffer = [0; MOST];
    buffer[0..8].copy_from_slice(&numbers[0].to_le_bytes());
    buffer[8..16].copy_from_slice(&numbers[1].to_le_bytes());
    buffer[16..24].copy_from_slice(&numbers[2].to_le_bytes());
    buffer[24..32].copy_from_slice(&numbers[3].to_le_bytes());
    buffer[32..40].copy_from_slice(&numbers[4].to_le_bytes());
    buffer
}

// As the record has it: the end, the steps over eight bytes and over one, and zeros up to the lowest byte.
fn pack_search(found: RunSearch) -> u64
    ensures { result ≡ packed_search found }
{
    let end = low_byte(found.end);
    let eights = low_byte(found.eights);
    let ones = low_byte(found.ones);
    u64::from_be_bytes([end, eights, ones, 0, 0, 0, 0, 0])
}

// The search that `what` describes: the separator, the buffer's length, and the place that it begins at.
pub fn search_again(what: u64, numbers: [u64; NUMBERS]) -> Option<u64>
    ensures { result ≡ searched_of what numbers }
{
    let buffer = long_buffer_of(numbers);
    let whole: &[u8] = &buffer;
    let asked = what.to_be_bytes();
    let end = usize::from(asked[1]);
    if end > whole.len() {
        return None;
    }
    let separator = asked[0];
    let at = usize::from(asked[2]);
    let found = search_run(&whole[0..end], separator, at);
    Some(pack_search(found))
}
