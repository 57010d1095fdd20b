// Counts over bytes and the byte behind each: how many separators stand before a byte of some kind, or how many bytes are digits.
// The loop has no branch, tells digits by their ranges and counts in a byte, so that many bytes are compared at once.
ghost use Rattle.std.specs.Prelude.{◌≡◌, ◌≤◌, length};
ghost use Rattle.reader.specs.Code.Pairs.{matches_of, pairs_of};

use word::digit::char_is_digit_by_range;

// Which pairs count: those whose first byte is the separator, or all, by the kind of the second byte. A byte that is a digit and the
// separator at once is a digit here. Data and no closure: the laws of these counts compare one kind with another.
#[derive(Clone, Copy, Debug, PartialEq, Eq)]
pub struct Pairs {
    pub separator: u8,
    pub radix: u8,
    pub any: bool,
    pub digits: bool,
    pub separators: bool,
    pub others: bool,
}

fn matches(pairs: Pairs, b: u8, next: u8) -> bool
    ensures { result ≡ matches_of pairs b next }
{
    let digit = char_is_digit_by_range(next, pairs.radix);
    let separator = next == pairs.separator;
    (pairs.any | (b == pairs.separator))
        & ((digit & pairs.digits)
            | (!digit & separator & pairs.separators)
            | (!digit & !separator & pairs.others))
}

// The pairs of a short slice.
fn count_short(pairs: Pairs, s: &[u8]) -> u8
    requires { length s.now ≤ 255 }
    ensures { (result ≡ pairs_of pairs s.now) × (result ≤ length s.now) }
{
    let mut count: u8 = 0;
    // By index: tried over the windows, slower. The tail of a short slice is then not compared several bytes at once.
    let mut i: usize = 1;
    while i < s.len() {
        let before = i - 1;
        let b = s[before];
        let next = s[i];
        count += u8::from(matches(pairs, b, next));
        i += 1;
    }
    count
}

// The pairs of a slice, 224 at a time: seven times as many as are compared at once.
pub(crate) fn count_pairs(pairs: Pairs, s: &[u8]) -> usize
    ensures { (result ≡ pairs_of pairs s.now) × (result ≤ length s.now) }
{
    let mut count: usize = 0;
    let mut rest = s;
    // No `chunks`: a part begins with the last byte of the one before, whose pair with the next byte counts too.
    while 224 < rest.len() {
        count += usize::from(count_short(pairs, &rest[0..225]));
        rest = &rest[224..];
    }
    count + usize::from(count_short(pairs, rest))
}
