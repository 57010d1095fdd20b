// A line of the record, taken apart: a letter for its kind, then fields, each a space and a number in upper-case hex.
ghost use Rattle.std.specs.Prelude.{◌≤◌, ◌≡◌, ◌==◌, length, ok_or};
ghost use Rattle.std.specs.List.{position};
ghost use Rattle.vectors.specs.Hex.{hex_value, read_hex};
ghost use Rattle.vectors.specs.Line.{kind_of, of_kind, with_field, until_space, record_of};

use crate::packed::pushed;

// The most fields of a record.
pub const FIELDS: usize = 8;

// The most digits of a field.
const DIGITS: usize = 16;

const RADIX: u64 = 16;

// What a record asks, by the letter that it begins with.
#[derive(Clone, Copy, Debug, PartialEq, Eq)]
pub enum Kind {
    // `W lo hi full plain`: a word and the answers of both checks.
    Word,
    // `D byte radix digit`: whether a byte is a digit of a radix.
    Digit,
    // `R what lo hi bytes answer`: a call of a reader, in packed numbers.
    Call,
    // `E what b0 b1 b2 b3 b4 answer`: a search for the end of a run, in packed numbers. The answer is a plain count's, since
    // the crate does not tell it.
    RunEnd,
}

// The parts of a line. `shape` has each field's count of digits in a byte of its own, the last field's lowest, so that
// one number tells the line's format; of the values, which lie in the record itself, the first `count` are its own.
#[derive(Clone, Copy, Debug, PartialEq, Eq)]
pub struct Record {
    pub kind: Kind,
    pub count: usize,
    pub shape: u64,
    pub values: [u64; FIELDS],
}

// A letter that no record begins with.
#[derive(Clone, Copy, Debug, PartialEq, Eq)]
pub struct UnknownLetter(pub u8);

impl TryFrom<u8> for Kind {
    type Error = UnknownLetter;

    ghost try_from_gives = { λ letter kind. kind ≡ ok_or (kind_of letter) (record { 0 = letter }) };

    fn try_from(letter: u8) -> Result<Self, UnknownLetter> {
        match letter {
            b'W' => Ok(Kind::Word),
            b'D' => Ok(Kind::Digit),
            b'R' => Ok(Kind::Call),
            b'E' => Ok(Kind::RunEnd),
            _ => Err(UnknownLetter(letter)),
        }
    }
}

#[tactic(auto, unfolding(crate::specs::Hex::hex_value))]
fn letter_value(byte: u8) -> u64
    requires { (65 ≤ byte) × (byte ≤ 70) }
    ensures { Some result ≡ hex_value byte }
{
    u64::from(byte - b'A') + 10
}

// The value of an upper-case hex digit; `char::to_digit` and `u64::from_str_radix` take lower-case ones too.
#[tactic(auto, unfolding(crate::specs::Hex::hex_value))]
fn hex_value(byte: u8) -> Option<u64>
    ensures { result ≡ hex_value byte }
{
    match byte {
        b'0'..=b'9' => Some(u64::from(byte - b'0')),
        b'A'..=b'F' => Some(letter_value(byte)),
        _ => None,
    }
}

// The number that one to sixteen digits spell.
fn read_number(digits: &[u8]) -> Option<u64>
    ensures { result ≡ read_hex digits.now }
{
    if digits.is_empty() {
        return None;
    }
    if digits.len() > DIGITS {
        return None;
    }
    let mut value = 0;
    for digit in digits {
        value = value * RADIX + hex_value(*digit)?;
    }
    Some(value)
}

impl Record {
    fn of_kind(kind: Kind) -> Self
        ensures { result ≡ of_kind kind }
    {
        Record {
            kind,
            count: 0,
            shape: 0,
            values: [0; FIELDS],
        }
    }

    // With one more field, given with the space before it.
    fn with_field(mut self, field: &[u8]) -> Option<Self>
        ensures { result ≡ with_field self field.now }
    {
        let count = self.count;
        if count >= FIELDS {
            return None;
        }
        let (first, digits) = field.split_first()?;
        if *first != b' ' {
            return None;
        }
        let value = read_number(digits)?;
        self.values[count] = value;
        self.count = count + 1;
        self.shape = pushed(self.shape, digits.len());
        Some(self)
    }
}

fn next_space(line: &[u8]) -> Option<usize>
    ensures { result ≡ position (λ c. c == 32) line.now }
{
    line.iter().position(|byte| *byte == b' ')
}

// How many bytes stand before the next space, or before the end.
fn until_space(line: &[u8]) -> usize
    ensures { (result ≡ until_space line.now) × (result ≤ length line.now) }
{
    next_space(line).unwrap_or(line.len())
}

// Takes apart a line, given without its line end. `split` would be no plainer: a field has the space before it, and what it
// hands out first is no field.
pub fn parse(line: &[u8]) -> Option<Record>
    ensures { result ≡ record_of line.now }
{
    let (letter, _) = line.split_first()?;
    let kind = Kind::try_from(*letter).ok()?;
    let mut parsed = Record::of_kind(kind);
    let mut at = 1;
    while at < line.len() {
        let end = at + 1 + until_space(&line[at + 1..]);
        parsed = parsed.with_field(&line[at..end])?;
        at = end;
    }
    Some(parsed)
}
