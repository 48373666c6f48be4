// Whether bytes are UTF-8: the walk over a text, one character at a time.
#![tactic(auto)]

ghost use Rattle.std.specs.Prelude.{◌≡◌, ◌≤◌, ◌-◌, ◌&&◌, cond, leb, length, take, drop, Some, None};
ghost use Rattle.lists.specs.Lists.{all};
ghost use Rattle.utf8.specs.Utf8.{scalar, utf8};
ghost use Rattle.utf8.specs.Front.{tail, least, front, size_at};

use code_points::Char;

// Whether bytes are UTF-8 by RFC 3629.
// Not by the library's `from_utf8`: it speaks of an encoding of its own, and both would first have to be proved one.
pub fn is_utf8(s: &[u8]) -> bool
    ensures { result ≡ utf8 s.now }
{
    let mut rest = s;
    while !rest.is_empty() {
        let Some(size) = char_size(rest) else {
            return false;
        };
        rest = &rest[size..];
    }
    true
}

// How many bytes the character at the front has, if one stands there.
fn char_size(s: &[u8]) -> Option<usize>
    ensures { result ≡ cond (front s.now) (Some (size_at s.now 0)) None }
{
    let b = *s.first()?;
    if b < 0x80 {
        return Some(1);
    }
    if b < 0xC0 {
        return None;
    }
    let c = code_points::char_at(s, 0);
    is_whole(s, c).then_some(c.size)
}

// Whether a character, as it was read at the front, has all its bytes there, is in its shortest form and may be
// encoded.
fn is_whole(s: &[u8], c: Char) -> bool
    requires { 1 ≤ c.size }
    ensures { result ≡ (leb c.size (length s.now) && (leb (least c.size) c.code && (scalar c.code && all tail (take (c.size - 1) (drop 1 s.now))))) }
{
    c.size <= s.len()
        && least_code(c.size) <= c.code
        && is_scalar(c.code)
        && all_tails(&s[1..c.size])
}

// The least code point that needs so many bytes: a smaller one in as many is an overlong form.
#[tactic(auto, unfolding(utf8::specs::Front::least))]
fn least_code(size: usize) -> u32
    ensures { result ≡ least size }
{
    match size {
        0..=1 => 0,
        2 => 0x80,
        3 => 0x800,
        _ => 0x10000,
    }
}

// Whether a code point may be encoded.
#[tactic(auto, unfolding(utf8::specs::Utf8::scalar))]
fn is_scalar(c: u32) -> bool
    ensures { result ≡ scalar c }
{
    matches!(c, 0..0xD800 | 0xE000..=0x10FFFF)
}

// Whether all of these are bytes that stand behind a first one.
fn all_tails(s: &[u8]) -> bool
    ensures { result ≡ all tail s.now }
{
    s.iter().all(|&b| is_tail(b))
}

// Whether a byte stands behind a first one.
#[tactic(auto, unfolding(utf8::specs::Front::tail))]
fn is_tail(b: u8) -> bool
    ensures { result ≡ tail b }
{
    matches!(b, 0x80..0xC0)
}
