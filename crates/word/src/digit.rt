// Digits: which bytes are digits of a radix. After lexical-util's digit.rs.
ghost use Rattle.std.specs.Prelude.{◌≡◌, ◌+◌, ◌-◌, ◌*◌, ◌<◌, min};
ghost use Rattle.word.specs.Digit.{digit_value, is_digit, entry, entries_from};

use crate::format_flags::bits_at;

// Eight entries of the table in one number, the first in its lowest eight bits.
fn eight(a: u8, b: u8, c: u8, d: u8, e: u8, f: u8, g: u8, h: u8) -> u64
    ensures { result ≡ a + 256 * (b + 256 * (c + 256 * (d + 256 * (e + 256 * (f + 256 * (g + 256 * h)))))) }
{
    u64::from_le_bytes([a, b, c, d, e, f, g, h])
}

// The value of each byte, in one table of 256 entries, eight to a row: 0 to 9 for the figures, 10 to 35 for the letters of either
// case, 255 for none. As the arms of a `match` it is read where it lies; a constant array would be stored to the stack at each use.
#[tactic(auto, unfolding(crate::specs::Digit::digit_value))]
fn row_of(row: u32) -> u64
    requires { row < 32 }
    ensures { result ≡ entries_from (8 * row) 8 }
{
    match row {
        0 => eight(255, 255, 255, 255, 255, 255, 255, 255),
        1 => eight(255, 255, 255, 255, 255, 255, 255, 255),
        2 => eight(255, 255, 255, 255, 255, 255, 255, 255),
        3 => eight(255, 255, 255, 255, 255, 255, 255, 255),
        4 => eight(255, 255, 255, 255, 255, 255, 255, 255),
        5 => eight(255, 255, 255, 255, 255, 255, 255, 255),
        6 => eight(0, 1, 2, 3, 4, 5, 6, 7),
        7 => eight(8, 9, 255, 255, 255, 255, 255, 255),
        8 => eight(255, 10, 11, 12, 13, 14, 15, 16),
        9 => eight(17, 18, 19, 20, 21, 22, 23, 24),
        10 => eight(25, 26, 27, 28, 29, 30, 31, 32),
        11 => eight(33, 34, 35, 255, 255, 255, 255, 255),
        12 => eight(255, 10, 11, 12, 13, 14, 15, 16),
        13 => eight(17, 18, 19, 20, 21, 22, 23, 24),
        14 => eight(25, 26, 27, 28, 29, 30, 31, 32),
        15 => eight(33, 34, 35, 255, 255, 255, 255, 255),
        16 => eight(255, 255, 255, 255, 255, 255, 255, 255),
        17 => eight(255, 255, 255, 255, 255, 255, 255, 255),
        18 => eight(255, 255, 255, 255, 255, 255, 255, 255),
        19 => eight(255, 255, 255, 255, 255, 255, 255, 255),
        20 => eight(255, 255, 255, 255, 255, 255, 255, 255),
        21 => eight(255, 255, 255, 255, 255, 255, 255, 255),
        22 => eight(255, 255, 255, 255, 255, 255, 255, 255),
        23 => eight(255, 255, 255, 255, 255, 255, 255, 255),
        24 => eight(255, 255, 255, 255, 255, 255, 255, 255),
        25 => eight(255, 255, 255, 255, 255, 255, 255, 255),
        26 => eight(255, 255, 255, 255, 255, 255, 255, 255),
        27 => eight(255, 255, 255, 255, 255, 255, 255, 255),
        28 => eight(255, 255, 255, 255, 255, 255, 255, 255),
        29 => eight(255, 255, 255, 255, 255, 255, 255, 255),
        30 => eight(255, 255, 255, 255, 255, 255, 255, 255),
        _ => eight(255, 255, 255, 255, 255, 255, 255, 255),
    }
}

// The byte's entry. Worked out in 32 bits, its row and its place there are compiled to one load of a byte. `as` keeps its eight bits.
fn entry_of(c: u8) -> u8
    ensures { result ≡ entry (digit_value c) }
{
    let byte = u32::from(c);
    bits_at(row_of(byte / 8), byte % 8 * 8, 8) as u8
}

// A byte's value, whatever the radix: its entry in the table, where 255 is none.
pub fn digit_value(c: u8) -> Option<u8>
    ensures { result ≡ digit_value c }
{
    let value = entry_of(c);
    if value == 255 {
        return None;
    }
    Some(value)
}

pub fn char_is_digit_const(c: u8, radix: u32) -> bool
    ensures { result ≡ is_digit c radix }
{
    u32::from(entry_of(c)) < radix
}

// The same for a radix of eight bits, which all readers have. Compared in eight bits, the entry is one load of a byte; through the
// function above it is a load of a row and a shift, which was tried and is a tenth slower.
pub fn char_is_digit_by_table(c: u8, radix: u8) -> bool
    ensures { result ≡ is_digit c radix }
{
    entry_of(c) < radix
}

// How many of the letters are digits of a radix. Without a branch of its own, it is worked out before a loop.
fn letters_of(radix: u8) -> u8
    ensures { result ≡ min (radix - 10) 26 }
{
    radix.min(36) - radix.min(10)
}

// The same by the ranges of figures and letters, which are the table's: for a loop that compares many bytes at once, where no table can
// be read. Up to radix 10 no letter is asked for; the question is the same for a whole loop. A letter and its other case differ in the
// bit of 32 alone.
pub fn char_is_digit_by_range(c: u8, radix: u8) -> bool
    ensures { result ≡ is_digit c radix }
{
    let figure = c.wrapping_sub(b'0');
    if radix <= 10 {
        return figure < radix;
    }
    let letter = (c | 32).wrapping_sub(b'a');
    (figure < radix.min(10)) | (letter < letters_of(radix))
}
