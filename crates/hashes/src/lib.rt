// A number for a text, the same for the same text. Two texts with different numbers are different, and need not be
// compared.
#![tactic(auto)]

ghost use Rattle.std.specs.Prelude.{◌≡◌};
ghost use Rattle.hashes.specs.Hashes.{hash_of};

// The number of a text: its words of four bytes are taken one by one, each with a multiplication, so that every byte
// counts in the high bits.
pub fn hash(s: &[u8]) -> u32
    ensures { result ≡ hash_of s.now }
{
    // by number: behind a text of whole words stands a word of zeros, which pieces of four bytes would not give
    let mut h: u32 = 0;
    for k in 0..s.len() / 4 + 1 {
        h = h
            .wrapping_add(numbers::four_at(s, 4 * k))
            .wrapping_mul(1640531527);
    }
    h
}
