// ASCII: which bytes may stand in a number's grammar. After lexical-util's ascii.rs.
ghost use Rattle.std.specs.Prelude.{◌≡◌};
ghost use Rattle.word.specs.Ascii.{valid_ascii};

pub fn is_valid_ascii(c: u8) -> bool
    ensures { result ≡ valid_ascii c }
{
    ((0x09 <= c) & (c <= 0x0d)) | ((0x20 <= c) & (c <= 0x7e))
}
