// A set of bytes: 256 bits in four numbers of 64, the lowest first, looked up as the word's bits are. It stands for the
// closures that the crate's conditional reads take.
ghost use Rattle.std.specs.Prelude.{◌≡◌, ℕ, ◌<◌, false, ◌||◌, ◌==◌};
ghost use Rattle.word.specs.ByteSet.{member};

use crate::format_flags::bits_at;

#[derive(Clone, Copy, Debug, Default, PartialEq, Eq)]
pub struct ByteSet {
    pub bits: [u64; 4],
}

impl ByteSet {
    // The set of no byte.
    pub fn new() -> Self
        ensures { (x : ℕ) → x < 256 → member result x ≡ false }
    {
        ByteSet { bits: [0; 4] }
    }

    // The set with one more byte.
    pub fn insert(mut self, b: u8) -> Self
        ensures { (x : ℕ) → x < 256 → member result x ≡ (x == b || member self x) }
    {
        self.bits[usize::from(b / 64)] |= 1 << (b % 64);
        self
    }

    pub fn contains(self, b: u8) -> bool
        ensures { result ≡ member self b }
    {
        bits_at(self.bits[usize::from(b / 64)], u32::from(b % 64), 1) == 1
    }
}

// The set of one byte.
impl From<u8> for ByteSet {
    ghost from_gives = { λ b s. (x : ℕ) → x < 256 → member s x ≡ (x == b) };

    fn from(b: u8) -> Self {
        ByteSet::new().insert(b)
    }
}
