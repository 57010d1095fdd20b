// Takes to the end of every cell of a column in one call. There is no state: each cell has a fresh one of its own.
ghost use Rattle.std.specs.Prelude.{◌≡◌};
ghost use Rattle.export.specs.Column.{column_written, column_read_by, column_held, held_of};

use reader::column::{Totals, next_all_column};
use reader::state::Reader;
use word::format_flags::Format;

// The sums over a column, or the number of its refusal.
fn read_column(s: &[u8], ends: &[usize], lo: u64, hi: u64, reader: u8) -> Result<Totals, u32>
    ensures { held_of result ≡ column_written (column_read_by reader (record { lo = lo; hi = hi }) s.now ends.now) }
{
    let format = Format { lo, hi };
    let by = Reader::try_from(reader).map_err(|unknown| unknown.number())?;
    next_all_column(s, ends, format, by).map_err(|refusal| refusal.number())
}

// Takes every cell of a column to its end, each from a fresh state. The cells lie one after the other in the buffer, and end at `ends`;
// an end before the last one or past the buffer counts as that bound. Written are the sums over all cells, 0 where it is refused.
#[unsafe(no_mangle)]
pub extern "C" fn pawhetino_next_all_column(
    s: &[u8],
    ends: &[usize],
    lo: u64,
    hi: u64,
    reader: u8,
    taken: &mut usize,
    passed: &mut usize,
    digits: &mut usize,
) -> u32
    ensures { column_held result taken.new passed.new digits.new ≡ column_written (column_read_by reader (record { lo = lo; hi = hi }) s.now ends.now) }
{
    match read_column(s, ends, lo, hi, reader) {
        Ok(totals) => {
            *taken = totals.taken;
            *passed = totals.passed;
            *digits = totals.digits;
            0
        }
        Err(number) => {
            *taken = 0;
            *passed = 0;
            *digits = 0;
            number
        }
    }
}
