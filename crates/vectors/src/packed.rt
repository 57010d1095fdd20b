// Packed numbers, as the record has them: eight bytes, the first one highest.
ghost use Rattle.std.specs.Prelude.{◌≡◌, ◌%◌};
ghost use Rattle.vectors.specs.Packed.{with_byte, low_byte_behind};

// A packed number without its highest byte is below it.
const MODULUS: u64 = 0x100_0000_0000_0000;

pub(crate) fn low_byte(n: usize) -> u8
    ensures { result ≡ n % 256 }
{
    (n % 256) as u8
}

// With one more byte behind the lowest; the highest one is lost: a product, as the definition has it, and no shift. One at a time, since a
// part has as many bytes as it has: `from_be_bytes` wants all eight.
#[tactic(auto, unfolding(crate::specs::Packed::with_byte))]
pub(crate) fn with_byte(packed: u64, next: u8) -> u64
    ensures { result ≡ with_byte packed next }
{
    (packed % MODULUS) * 256 + u64::from(next)
}

// Likewise with a number's lowest byte.
pub(crate) fn pushed(packed: u64, next: usize) -> u64
    ensures { result ≡ low_byte_behind packed next }
{
    with_byte(packed, low_byte(next))
}
