// The code points of a text: the one at a place, read by its first byte, and those from the front on.
#![tactic(auto)]

ghost use Rattle.std.specs.Prelude.{◌≡◌, [], ◌∷◌, MatchOption};
ghost use Rattle.std.specs.Iterator.{YieldsFirst, item_count};
ghost use Rattle.utf8.specs.Utf8.{decode};
ghost use Rattle.code_points.specs.Chars.{char_at, bits_at};

// A code point, and how many bytes it takes.
#[derive(Clone, Copy)]
pub struct Char {
    pub code: u32,
    pub size: usize,
}

// The code point whose first byte stands at a place, read by that byte. A byte that is not there counts as 0.
// The answer is no Option: the definition answers at every place.
pub fn char_at(s: &[u8], at: usize) -> Char
    ensures { result ≡ char_at s.now at }
{
    let Some(&first) = s.get(at) else {
        return Char { code: 0, size: 1 };
    };
    let b = u32::from(first);
    let behind = &s[at + 1..];
    match b {
        ..0xC0 => Char { code: b, size: 1 },
        0xC0..0xE0 => Char {
            code: (b - 0xC0) * 64 + bits(behind, 0),
            size: 2,
        },
        0xE0..0xF0 => Char {
            code: (b - 0xE0) * 4096 + bits(behind, 0) * 64 + bits(behind, 1),
            size: 3,
        },
        _ => Char {
            code: (b - 0xF0) * 262144
                + bits(behind, 0) * 4096
                + bits(behind, 1) * 64
                + bits(behind, 2),
            size: 4,
        },
    }
}

// The six bits that a byte behind the first holds.
fn bits(s: &[u8], at: usize) -> u32
    ensures { result ≡ bits_at s.now at }
{
    u32::from(s.get(at).copied().unwrap_or(0) % 64)
}

// ---- from the front on

// The code points of bytes, one behind the other.
#[derive(Drop)]
pub struct Points<'a>(pub &'a [u8]);

impl<'a> Iterator for Points<'a> {
    type Item = u32;

    ghost next_gives = { YieldsFirst (λ p. decode p.0.now) };

    ghost remaining = { item_count (λ p. decode p.0.now) };

    // A hint, here and below, for LLVM, which else calls them for each character of a path.
    #[inline(always)]
    fn next(&mut self) -> Option<u32> {
        let (code, behind) = split_point(self.0)?;
        self.0 = behind;
        Some(code)
    }
}

// The code point at the front and the bytes behind it. Most paths are ASCII, where a byte is a code point.
#[inline(always)]
pub fn split_point(s: &[u8]) -> Option<(u32, &[u8])>
    ensures { MatchOption result (decode s.now ≡ []) (λ q. decode s.now ≡ q.0 ∷ decode q.1.now) }
{
    let (&b, behind) = s.split_first()?;
    if b < 0x80 {
        return Some((u32::from(b), behind));
    }
    let c = char_at(s, 0);
    Some((c.code, s.get(c.size..).unwrap_or(&[])))
}
