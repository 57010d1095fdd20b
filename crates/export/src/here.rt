// The quick way of the calls of one byte: most of them find a byte that is no separator under the cursor of a counted reader, or the end,
// and nothing is passed there. Whatever else there is, the reader's own call looks into.
ghost use Rattle.std.specs.Prelude.{◌≡◌, [], ◌∷◌, ◌+◌, ◌/◌, ◌<◌, ◌≤◌, ◌^◌, nat_le, slice_index};
ghost use Rattle.export.specs.Code.Here.{here_of, own_flags, place_words, words_at};

use crate::state::format_in;
use reader::rule::Flags;
use word::format_flags::{
    INTEGER_CONSECUTIVE_DIGIT_SEPARATOR, INTEGER_INTERNAL_DIGIT_SEPARATOR,
    INTEGER_LEADING_DIGIT_SEPARATOR, INTEGER_TRAILING_DIGIT_SEPARATOR, bit_at,
};

// What is under the cursor of a reader that counts and is not refused, on a state of a known edition; for any other it is not told.
#[derive(Clone, Copy, Debug, PartialEq, Eq)]
pub enum Here {
    // A byte other than the word's separator.
    Byte(u8),
    End,
    // The byte of the word's separator, which is none where it is 0.
    Separator,
    Other,
}

// The reader's own flags at the places of the first reader's. A reader that counts stays the caller's byte, with what is asked of it in
// the contracts: flags and counts are found by that number, and a type for it would be opened again at each of these uses.
pub(crate) fn own_bits(lo: u64, reader: u8) -> u64
    requires { reader ≤ 2 }
    ensures shifted { result ≡ lo / 2 ^ reader }
    ensures small { lo < 2 ^ 64 }
{
    lo >> (u32::from(reader))
}

// The flags in them.
pub(crate) fn own_flags(own: u64) -> Flags
    ensures { result ≡ own_flags own }
{
    Flags {
        internal: bit_at(own, INTEGER_INTERNAL_DIGIT_SEPARATOR),
        leading: bit_at(own, INTEGER_LEADING_DIGIT_SEPARATOR),
        trailing: bit_at(own, INTEGER_TRAILING_DIGIT_SEPARATOR),
        consecutive: bit_at(own, INTEGER_CONSECUTIVE_DIGIT_SEPARATOR),
    }
}

// Whether the counts together are within the cursor. Nothing is added up, so nothing can overflow. It asks the lent words, where
// reader::state's test of the same name would have a State read out of them whole.
pub(crate) fn counts_fit(cursor: u64, integer: u64, fraction: u64, exponent: u64) -> bool
    ensures { result ≡ nat_le (integer + fraction + exponent) cursor }
{
    if cursor < integer {
        return false;
    }
    let rest = cursor - integer;
    if rest < fraction {
        return false;
    }
    exponent <= rest - fraction
}

// The five calls of one byte (peek, next, skip_zeros and the two reads) ask this, and differ in what they do with each case: with closures
// for that there would be as much beside them.
pub(crate) fn found_here(s: &[u8], reader: u8, state: &[u64; 8]) -> Here
    ensures { result ≡ here_of reader state.now s.now }
{
    let edition = state[7];
    if (2 < reader) | (edition != 0) {
        return Here::Other;
    }
    let format = format_in(state);
    let cursor = state[2];
    let integer = state[3];
    let fraction = state[4];
    let exponent = state[5];
    let alone = own_flags(own_bits(format.lo, reader)).is_consecutive_alone();
    let fit = counts_fit(cursor, integer, fraction, exponent);
    if alone | !fit {
        return Here::Other;
    }
    let at = cursor as usize;
    if s.len() < at {
        return Here::Other;
    }
    if s.len() == at {
        return Here::End;
    }
    let b = s[at];
    let separator = format.digit_separator();
    let separates = b == separator;
    if separates {
        return Here::Separator;
    }
    Here::Byte(b)
}

// Answers these four words. The state stays, so it is not asked for.
pub(crate) fn stay(told: [u64; 4], answer: &mut [u64; 4]) -> u32
    ensures number { result ≡ 0 }
    ensures written { answer.new ≡ told }
{
    *answer = told;
    0
}

// Answers that there is no byte, and that nothing is taken or passed.
pub(crate) fn answer_none(answer: &mut [u64; 4]) -> u32
    ensures number { result ≡ 0 }
    ensures written { answer.new ≡ (0 ∷ slice_index answer.old 1 ∷ 0 ∷ 0 ∷ []) }
{
    let old = answer[1];
    stay([0, old, 0, 0], &mut *answer)
}

// Moves the cursor to a place. The eight words stay in the array that the caller lends: a struct of them would be read out and written
// back whole at each call.
pub(crate) fn put_place(w: &mut [u64; 8], place: u64)
    ensures { w.new ≡ place_words w.old place }
{
    w[2] = place;
}

// The same, and raises the reader's own count by one where a byte is counted.
pub(crate) fn put_at(w: &mut [u64; 8], reader: u8, counted: bool, place: u64)
    requires { (reader ≤ 2) × (slice_index w.old (3 + reader) + 1 < 2 ^ 64) }
    ensures { w.new ≡ words_at w.old reader counted place }
{
    put_place(&mut *w, place);
    if counted {
        let own = 3 + usize::from(reader);
        w[own] += 1;
    }
}
