// Numbers of two and four bytes, the low byte first, read from a text and written into a store, as any bytes are;
// the smaller of two numbers; and the number of a test.
// What is not there is read as 0, not as None: the definitions answer at every place.
#![tactic(auto)]

ghost use Rattle.std.specs.Prelude.{◌≡◌, cond, min, get_or};
ghost use Rattle.lists.specs.Lists.{put};
ghost use Rattle.numbers.specs.Numbers.{two, four, two_bytes, four_bytes};

// The two-byte number at a place. A byte that is not there counts as 0.
pub fn two_at(s: &[u8], at: usize) -> u16
    ensures { result ≡ two s.now at }
{
    match s.get(at) {
        Some(low) => u16::from_le_bytes([*low, byte_at(s, at + 1)]),
        None => 0,
    }
}

// The four-byte number at a place, by its halves as the definition has it: four bytes in one list are no plainer.
pub fn four_at(s: &[u8], at: usize) -> u32
    ensures { result ≡ four s.now at }
{
    if at < s.len() {
        u32::from(two_at(s, at)) + 65536 * u32::from(two_at(s, at + 2))
    } else {
        0
    }
}

// The byte at a place; 0 past the end.
pub fn byte_at(s: &[u8], at: usize) -> u8
    ensures { result ≡ get_or s.now at 0 }
{
    s.get(at).copied().unwrap_or(0)
}

// Writes bytes at a place. Where they do not fit nothing changes.
// It could not fail and still can't, so it answers nothing. Byte by byte, since the library's `copy_from_slice` would
// have the archives for C ask for `memmove` from outside.
pub fn put_bytes(store: &mut [u8], at: usize, bytes: &[u8])
    ensures { store.new ≡ put store.old at bytes.now }
{
    if bytes.len() <= store.len() && at <= store.len() - bytes.len() {
        for (i, &byte) in bytes.iter().enumerate() {
            store[at + i] = byte;
        }
    }
}

// Writes a number in two bytes at a place. Where they do not fit nothing changes.
#[tactic(auto, using(crate::proofs::Bytes::two_le))]
pub fn put_two(store: &mut [u8], at: usize, n: u16)
    ensures { store.new ≡ put store.old at (two_bytes n) }
{
    put_bytes(store, at, &u16::to_le_bytes(n));
}

// The same in four bytes.
#[tactic(auto, using(crate::proofs::Bytes::four_le))]
pub fn put_four(store: &mut [u8], at: usize, n: u32)
    ensures { store.new ≡ put store.old at (four_bytes n) }
{
    put_bytes(store, at, &u32::to_le_bytes(n));
}

// The two below are methods of the library under names of their own, which have their faults in must-fail/: they stay.

pub fn smaller(a: usize, b: usize) -> usize
    ensures { result ≡ min a b }
{
    a.min(b)
}

// A test as a number, so that what passes it can be counted.
pub fn one_if(b: bool) -> usize
    ensures { result ≡ cond b 1 0 }
{
    usize::from(b)
}

// ---- the end of the code
