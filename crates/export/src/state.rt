// A state as a caller lends it: eight words of 64 bits, which are the format word's lower and upper half, the cursor, the counts of
// integer, fraction and exponent, a word that is kept as it is, and the number of an edition.
ghost use Rattle.std.specs.Prelude.{◌≡◌, ok_or};
ghost use Rattle.export.specs.State.{state_in, words_of, state_words, reader_on, fresh_number, fresh_words};

use reader::open::open;
use reader::state::{ExponentCount, FractionCount, IntegerCount, Reader, State, UnknownReader};
use word::format_flags::Format;

// The format word that they hold.
pub(crate) fn format_in(w: &[u64; 8]) -> Format
    ensures { result ≡ (state_in w.now).format }
{
    let lo = w[0];
    let hi = w[1];
    Format { lo, hi }
}

// The state that the words hold. The last two are no part of it. Here and in the whole crate u64 and usize are cast:
// std has no `From` between them.
pub(crate) fn state_in(w: &[u64; 8]) -> State
    ensures { result ≡ state_in w.now }
{
    let format = format_in(w);
    let cursor = w[2] as usize;
    let integer = w[3] as usize;
    let fraction = w[4] as usize;
    let exponent = w[5] as usize;
    State {
        format,
        cursor,
        integer: IntegerCount(integer),
        fraction: FractionCount(fraction),
        exponent: ExponentCount(exponent),
    }
}

// Writes a state with these last two words.
fn put_words(w: &mut [u64; 8], state: State, kept: u64, edition: u64)
    ensures { w.new ≡ words_of state kept edition }
{
    let format = state.format;
    let cursor = state.cursor as u64;
    let integer = state.integer.0 as u64;
    let fraction = state.fraction.0 as u64;
    let exponent = state.exponent.0 as u64;
    *w = [
        format.lo, format.hi, cursor, integer, fraction, exponent, kept, edition,
    ];
}

// Writes a state; the last two words stay.
pub(crate) fn put_state(w: &mut [u64; 8], state: State)
    ensures { w.new ≡ state_words w.old state }
{
    let kept = w[6];
    let edition = w[7];
    put_words(&mut *w, state, kept, edition);
}

// The reader that a byte names, on a state that names an edition. Document 01 has one number, 19, for an unknown reader and an unknown
// edition, and so one error stands for both.
pub(crate) fn reader_on(reader: u8, edition: u64) -> Result<Reader, UnknownReader>
    ensures { result ≡ ok_or (reader_on reader edition) (record { 0 = reader }) }
{
    if edition != 0 {
        return Err(UnknownReader(reader));
    }
    Reader::try_from(reader)
}

// A fresh state of an edition, for a word that the full check accepts. Otherwise nothing is written.
#[unsafe(no_mangle)]
pub extern "C" fn pawhetino_fresh(lo: u64, hi: u64, edition: u64, state: &mut [u64; 8]) -> u32
    ensures number { result ≡ fresh_number lo hi edition }
    ensures written { state.new ≡ fresh_words lo hi edition state.old }
{
    if edition != 0 {
        return 19; // document 01's number for an unknown edition
    }
    let opened = open(lo, hi);
    match opened {
        Ok(fresh) => {
            put_words(&mut *state, fresh, 0, edition);
            0
        }
        Err(error) => error.number(),
    }
}
