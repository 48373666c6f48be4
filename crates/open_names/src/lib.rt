// The names of the open elements: each in a place of 514 bytes, the namespace text in the first half and the local part
// in the second. The area is lent whole, so that how many are open is a number beside it, `depth`.
#![tactic(auto)]

ghost use Rattle.std.specs.Prelude.{◌≡◌, ◌≤◌, length};
ghost use Rattle.lists.specs.Lists.{part};
ghost use Rattle.paths.specs.Names.{after_colon, name_of};
ghost use Rattle.paths.specs.Reading.{every};
ghost use Rattle.records.specs.Readers.{put_text};
ghost use Rattle.session_spec.specs.Definitions.{is_some};
ghost use Rattle.session_spec.specs.Layout.{pad, text_in, name_in, parts};
ghost use Rattle.open_names.specs.OpenNames.{with_name};

// ---- writing

// The local part of a qualified name: what stands behind the last ':', or all of it.
pub fn after_colon(name: &[u8]) -> &[u8]
    ensures { result.now ≡ after_colon name.now }
{
    match name.iter().rposition(|&c| c == b':') {
        Some(colon) => &name[colon + 1..],
        None => name,
    }
}

// Writes an element's name behind the first `depth` ones. Where a text has over 255 bytes, or the area no such place,
// nothing changes. It could not fail and still can't: no Result.
pub fn write_name(names: &mut [u8], depth: u32, space: &[u8], qualified: &[u8])
    ensures { names.new ≡ with_name names.old depth (name_of space.now qualified.now) }
{
    let local = after_colon(qualified);
    if 255 < space.len() || 255 < local.len() {
        return;
    }
    let at = 514 * (depth as usize);
    let middle = at + 257;
    let end = at + 514;
    // Tried with `get_mut`: it says nothing of what the slice ends as, so that it stays open that `names` is as it was.
    if names.len() < end {
        return;
    }
    write_text(&mut names[at..middle], space);
    write_text(&mut names[middle..end], local);
}

// Fills half a place with a text: its length, its bytes, zeros behind. The length is below 65536, so that no conversion
// loses anything: `try_from` would add an error that never is.
fn write_text(half: &mut [u8], text: &[u8])
    requires { (length half.old ≡ 257) × (length text.now ≤ 255) }
    ensures { half.new ≡ pad 257 (put_text text.now) }
{
    let end = text.len() + 2;
    numbers::put_two(half, 0, text.len() as u16);
    numbers::put_bytes(half, 2, text);
    half[end..].fill(0);
}

// ---- reading

// Whether the first `depth` places hold names.
pub fn names_read(names: &[u8], depth: u32) -> bool
    ensures { result ≡ is_some (every name_in (parts 514 depth names.now)) }
{
    (0..depth).all(|i| name_reads(names, 514 * (i as usize)))
}

// Whether the place that begins `at` holds a name: both of its halves hold a text.
pub fn name_reads(names: &[u8], at: usize) -> bool
    ensures { result ≡ is_some (name_in (part names.now at 514)) }
{
    let place = texts::clipped(names, at, 514);
    if place.len() <= 257 {
        return false;
    }
    let (space, local) = place.split_at(257);
    text_reads(space) && text_reads(local)
}

// Whether a text is all there: a length, and so many bytes. That the length is there is asked first: so its two bytes
// are read at once.
fn text_reads(half: &[u8]) -> bool
    ensures { result ≡ is_some (text_in half.now) }
{
    2 <= half.len() && usize::from(numbers::two_at(half, 0)) <= half.len() - 2
}

// ---- the end of the code
