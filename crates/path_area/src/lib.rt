// The parsed-path area as scratch: a path read into it, and its first bytes saved and put back. Nothing in it lives
// from call to call.
#![tactic(auto)]

ghost use Rattle.std.specs.Prelude.{◌≡◌, take};
ghost use Rattle.lists.specs.Lists.{put};
ghost use Rattle.session_spec.specs.Layout.{pad};
ghost use Rattle.path_area.specs.Scratch.{ReadsInto};

// Reads a selector, or a field, into the area, and says whether it reads.
// `field` is no enum: the definitions ask whether it is a field's path, and each clause would turn an enum into that.
// Nor is it `PathKind` of `path_steps`: the reader stands on none of the checker's crates, and any caller has a bool.
pub fn read_path(path: &[u8], field: bool, area: &mut [u8]) -> bool
    ensures { ReadsInto field path.now area.old result area.new }
{
    path_reader::parse_path(path, field, area).is_ok()
}

// The first N bytes of a text, and zeros behind where there are fewer.
pub fn padded<const N: usize>(text: &[u8]) -> [u8; N]
    ensures { result ≡ pad N (take N text.now) }
{
    // Fixed memory: as many bytes as the caller asks for.
    let mut bytes = [0u8; N];
    numbers::put_bytes(&mut bytes, 0, texts::clipped(text, 0, N));
    bytes
}

// The first 1,024 bytes, which are all that a path can change. Zeros behind where there are fewer.
pub fn save(area: &[u8]) -> [u8; 1024]
    ensures { result ≡ pad 1024 (take 1024 area.now) }
{
    // Fixed memory: a path changes no more bytes.
    padded::<1024>(area)
}

// Puts them back.
pub fn restore(area: &mut [u8], saved: [u8; 1024])
    ensures { area.new ≡ put area.old 0 saved }
{
    numbers::put_bytes(area, 0, &saved);
}

// ---- the end of the code
