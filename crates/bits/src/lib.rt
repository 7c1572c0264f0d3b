// One bit of a 64-bit word. A number past 63 names no bit: it is never set, and setting it changes nothing.
#![tactic(auto)]

ghost use Rattle.std.specs.Prelude.{◌≡◌};
ghost use Rattle.bits.specs.Bits.{is_set, with_bit, first_from, bit_if_any};

// §21.1: how many bits a word has.
pub const BITS: u32 = 64;

// Whether a bit is set.
pub fn is_set(word: u64, bit: u32) -> bool
    ensures { result ≡ is_set word bit }
{
    bit < BITS && (word >> bit) & 1 == 1
}

// The word with a bit set or cleared.
pub fn with_bit(word: u64, bit: u32, on: bool) -> u64
    ensures { result ≡ with_bit word bit on }
{
    if bit >= BITS {
        return word;
    }
    (word & !(1u64 << bit)) | ((on as u64) << bit)
}

// §21.4: the first bit that is set at or after one, if there is one.
pub fn first_from(word: u64, bit: u32) -> Option<u32>
    ensures { result ≡ bit_if_any (first_from word bit) }
{
    if bit >= BITS {
        return None;
    }
    let above = word >> bit;
    if above == 0 {
        return None;
    }
    Some(bit + above.trailing_zeros())
}
