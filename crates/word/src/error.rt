// The answers of the two checks, by the names of lexical-util's error.rs.
ghost use Rattle.std.specs.Prelude.{◌≡◌, ◌==◌};
ghost use Rattle.word.specs.Error.{number_of};

// With their numbers in document 01.
#[derive(Clone, Copy, Debug, PartialEq, Eq)]
pub enum Error {
    Success = 0,
    InvalidMantissaRadix = 1,
    InvalidExponentBase = 2,
    InvalidExponentRadix = 3,
    InvalidDigitSeparator = 4,
    InvalidBasePrefix = 5,
    InvalidBaseSuffix = 6,
    InvalidPunctuation = 7,
    InvalidExponentFlags = 8,
    InvalidMantissaSign = 9,
    InvalidExponentSign = 10,
    InvalidSpecial = 11,
    InvalidConsecutiveIntegerDigitSeparator = 12,
    InvalidConsecutiveFractionDigitSeparator = 13,
    InvalidConsecutiveExponentDigitSeparator = 14,
    InvalidFlags = 15,
}

impl Error {
    pub fn is_success(self) -> bool
        ensures { result ≡ (number_of self == 0) }
    {
        self == Error::Success
    }

    // Its number in document 01. `as` of an enum is its own number.
    pub fn number(self) -> u32
        ensures { result ≡ number_of self }
    {
        self as u32
    }
}
