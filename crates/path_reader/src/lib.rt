// The path reader: a selector or field parsed into the parsed-path area. The path is cut from the left, and each piece
// is written as soon as it is read.
// Numbers are narrowed by `as` where they are known to fit: `try_from` would add an error that never is.
#![tactic(auto)]

ghost use Rattle.std.specs.Prelude.{◌≡◌, true, false, cond, [], ◌∷◌, ◌+◌, ◌*◌, ◌≤◌, ◌<◌, length};
ghost use Rattle.std.proofs.Math.Option.{none};
ghost use Rattle.lists.specs.Lists.{all, over};
ghost use Rattle.utf8.specs.Utf8.{utf8};
ghost use Rattle.characters.specs.Spaces.{xml_space};
ghost use Rattle.paths.specs.Reading.{split_at, without_space, every, test_byte, starts_well, star_alone, local_of, name_test, attribute_part, walk_part, walk_parts, marked, read_alt, read_path};
ghost use Rattle.path_entries.specs.Entries.{put_prefix, put_local, put_test, put_alt, put_path, flag_of};
ghost use Rattle.path_pieces.specs.Pieces.{piece_length, standing, part_by, tested};
ghost use Rattle.path_reader.specs.Parsing.{Parses, Strips};
ghost use Rattle.path_reader.specs.Places.{plain_byte, name_byte, name_length, good_name, good_local, before_local, TestOf, step_of, Room, Written, Wrote, WroteSteps, steps_bytes, walked_steps, walked_bytes};

use path_pieces::Part;

// Why a path is not read: it is none, or there is no room for it.
#[derive(Clone, Copy)]
pub enum Unparsed {
    Unread,
    NoRoom,
}

// A name test: its prefix, if it has one, and its local part, which may be the star. Not the `Test` of `matching`: the
// crates don't stand on each other, and the star is '*' here, as it stands in the path, and no bytes there.
#[derive(Clone, Copy)]
struct Test<'a> {
    prefix: Option<&'a [u8]>,
    local: &'a [u8],
}

// So many steps, written up to the place `end`.
#[derive(Clone, Copy)]
struct Steps {
    count: usize,
    end: usize,
}

// ---- the reader; what writes below it answers the place behind what it wrote, or None where the path is not read
// `field` is no enum: the definitions ask whether it is a field's path, and each clause would turn an enum into that.
// Nor is it `PathKind` of `path_steps`: the reader stands on none of the checker's crates.

// Reads a selector, or a field, which may end with an attribute, into the area: its entries stand at the front, and all
// behind them as it was. The answer is how many bytes they are.
pub fn parse_path(path: &[u8], field: bool, area: &mut [u8]) -> Result<usize, Unparsed>
    ensures { Parses field path.now area.old result area.new }
{
    if 255 < path.len() || area.len() < 1024 {
        return Err(Unparsed::NoRoom);
    }
    parse_text(path, field, area).ok_or(Unparsed::Unread)
}

// A path of plain bytes is read where it stands. Most have no bar either, and are one alternative.
fn parse_text(path: &[u8], field: bool, area: &mut [u8]) -> Option<usize>
    requires { Room path.now area.old (1 + 3 * (length path.now + 1)) }
    ensures { Wrote put_path (read_path field path.now) area.old 0 result area.new }
{
    if is_plain(path, b'|') {
        parse_one(path, field, area)
    } else if is_plain(path, 0x80) {
        parse_alternatives(path, field, area)
    } else {
        parse_spaced(path, field, area)
    }
}

// White space is dropped before anything else is looked at.
fn parse_spaced(path: &[u8], field: bool, area: &mut [u8]) -> Option<usize>
    requires { Room path.now area.old (1 + 3 * (length path.now + 1)) }
    ensures { Wrote put_path (read_path field path.now) area.old 0 result area.new }
{
    if !utf8_check::is_utf8(path) {
        return None;
    }
    // Fixed memory: no path has more bytes.
    let mut bare = [0u8; 255];
    let n = drop_space(path, &mut bare);
    parse_alternatives(&bare[..n], field, area)
}

// A text without bars: one alternative.
fn parse_one(s: &[u8], field: bool, area: &mut [u8]) -> Option<usize>
    requires { Room s.now area.old (1 + 3 * (length s.now + 1)) × (length s.now ≤ piece_length 124 s.now) }
    ensures { Wrote put_path (every (read_alt field) (split_at 124 s.now)) area.old 0 result area.new }
{
    let end = parse_alternative(s, field, area, 1)?;
    put_byte(area, 0, 1);
    Some(end)
}

// The alternatives between the bars. The byte before them, their number, is written last. No `for` over the library's
// `split`, which would be no plainer: of each piece must be known that it and what is behind it fit into the area.
fn parse_alternatives(s: &[u8], field: bool, area: &mut [u8]) -> Option<usize>
    requires { Room s.now area.old (1 + 3 * (length s.now + 1)) }
    ensures { Wrote put_path (every (read_alt field) (split_at 124 s.now)) area.old 0 result area.new }
{
    let mut rest = s;
    let mut at: usize = 1;
    let mut count: usize = 1;
    while let Some((first, behind)) = path_pieces::split_piece(rest, b'|') {
        at = parse_alternative(first, field, area, at)?;
        count += 1;
        rest = behind;
    }
    let end = parse_alternative(rest, field, area, at)?;
    put_byte(area, 0, count as u8);
    Some(end)
}

// An alternative: './/' may stand before its parts.
// `Room` is no type: it ties the text to what is left of the area, which area and place alone cannot say (no plainer).
fn parse_alternative(s: &[u8], field: bool, area: &mut [u8], at: usize) -> Option<usize>
    requires { Room s.now area.old (at + 3 * (length s.now + 1)) }
    ensures { Wrote put_alt (read_alt field s.now) area.old at result area.new }
{
    match path_pieces::behind(s, b".//") {
        Some(rest) => parse_marked(rest, true, field, area, at),
        None => parse_marked(s, false, field, area, at),
    }
}

// The parts of an alternative. The two bytes before its steps are written last: only then their number is known.
// `descendant` is no enum: the definition takes whether './/' stands first, and a byte in the area says just that.
fn parse_marked(
    s: &[u8],
    descendant: bool,
    field: bool,
    area: &mut [u8],
    at: usize,
) -> Option<usize>
    requires { Room s.now area.old (at + 3 * (length s.now + 1)) }
    ensures { Wrote put_alt (marked descendant (walk_parts field (split_at 47 s.now))) area.old at result area.new }
{
    let steps = parse_parts(s, field, area, at + 2)?;
    put_alternative_head(area, at, descendant, steps.count);
    Some(steps.end)
}

// ---- the parts between the slashes

// An attribute may stand in the last part only, so that one is read by itself.
fn parse_parts(s: &[u8], field: bool, area: &mut [u8], start: usize) -> Option<Steps>
    requires { Room s.now area.old (start + (3 * length s.now + 1)) }
    ensures { WroteSteps walked_steps walked_bytes (walk_parts field (split_at 47 s.now)) area.old start 0 result area.new }
{
    let mut rest = s;
    let mut steps = Steps {
        count: 0,
        end: start,
    };
    while let Some((first, behind)) = path_pieces::split_piece(rest, b'/') {
        steps = parse_step(path_pieces::as_part(first), area, steps)?;
        rest = behind;
    }
    parse_last(rest, field, area, steps)
}

// What a part adds to the steps. An attribute adds none: it may stand only last.
fn parse_step(part: Part<'_>, area: &mut [u8], before: Steps) -> Option<Steps>
    requires { Room (tested part) area.old (before.end + 3 * length (tested part)) × (before.count < 1024) }
    ensures { WroteSteps length steps_bytes (step_of (part_by part.entry)) area.old before.end before.count result area.new }
{
    match part {
        Part::Attribute(_) => None, // it may stand only last
        Part::Itself => Some(before),
        Part::Child(test) => {
            let end = write_test(test, area, before.end)?;
            Some(Steps {
                count: before.count + 1,
                end,
            })
        }
    }
}

// The last part, and the alternative's end.
fn parse_last(t: &[u8], field: bool, area: &mut [u8], before: Steps) -> Option<Steps>
    requires { Room t.now area.old (before.end + (3 * length t.now + 1)) × (before.count < 1024) }
    ensures { WroteSteps walked_steps walked_bytes (walk_parts field (t.now ∷ [])) area.old before.end before.count result area.new }
{
    match path_pieces::as_part(t) {
        Part::Attribute(test) if field => write_attribute(test, area, before),
        Part::Attribute(_) => None,
        part => {
            let steps = parse_step(part, area, before)?;
            let end = put_byte(area, steps.end, 0);
            Some(Steps { end, ..steps })
        }
    }
}

// What stands behind '@' or 'attribute::' in the last part of a field.
fn write_attribute(t: &[u8], area: &mut [u8], before: Steps) -> Option<Steps>
    requires { Room t.now area.old (before.end + (3 * length t.now + 1)) }
    ensures { WroteSteps walked_steps walked_bytes (walk_part true true (attribute_part t.now) none) area.old before.end before.count result area.new }
{
    let test = put_byte(area, before.end, 1);
    let end = write_test(t, area, test)?;
    Some(Steps { end, ..before })
}

// ---- name tests

// Writes a name test: whether it has a prefix, the prefix, the local part.
fn write_test(t: &[u8], area: &mut [u8], at: usize) -> Option<usize>
    requires { Room t.now area.old (at + 3 * length t.now) }
    ensures { Wrote put_test (name_test t.now) area.old at result area.new }
{
    let test = name_test(t)?;
    let name = write_prefix(test.prefix, area, at);
    Some(write_local(test.local, area, name))
}

// Writes whether there is a prefix, and the prefix.
#[tactic(auto, unfolding(path_entries::specs::Entries::put_prefix))]
fn write_prefix(prefix: Option<&[u8]>, area: &mut [u8], at: usize) -> usize
    requires { (before_local prefix ≤ 255) × (at + (before_local prefix + 1) ≤ length area.old) }
    ensures { Written area.old at (put_prefix (standing prefix.entry)) result area.new }
{
    match prefix {
        None => put_byte(area, at, 0),
        Some(text) => {
            let start = put_byte(area, at, 1);
            write_entry_text(text, area, start)
        }
    }
}

// Writes a local part; '*' as a text of no bytes.
#[tactic(auto, unfolding(path_entries::specs::Entries::put_local, paths::specs::Reading::local_of))]
fn write_local(t: &[u8], area: &mut [u8], at: usize) -> usize
    requires { (length t.now ≤ 255) × (at + 1 + length t.now ≤ length area.old) }
    ensures { Written area.old at (put_local (local_of t.now)) result area.new }
{
    if texts::same(t, b"*") {
        put_byte(area, at, 0)
    } else {
        write_entry_text(t, area, at)
    }
}

// Which name test a text is. Most are a name, or two with a colon between: those are walked once.
fn name_test(t: &[u8]) -> Option<Test<'_>>
    ensures { TestOf t.now result }
{
    if !starts_well(t) {
        return None;
    }
    let (name, behind) = t.split_at(name_length(t));
    let Some((&c, local)) = behind.split_first() else {
        return Some(Test {
            prefix: None,
            local: t,
        });
    };
    if c == b':' && is_name(local) {
        return Some(Test {
            prefix: Some(name),
            local,
        });
    }
    any_test(t)
}

// Whether a text is a name that may stand behind the colon.
#[tactic(auto, unfolding(crate::specs::Places::good_name))]
fn is_name(t: &[u8]) -> bool
    ensures { result ≡ good_name t.now }
{
    name_length(t) == t.len() && starts_well(t)
}

// How many bytes of a name stand at the front.
// Beside `path_pieces::piece_length`, with another test: each is one chain of the library, one for both saves no line.
fn name_length(t: &[u8]) -> usize
    ensures { result ≡ name_length t.now }
{
    t.iter().position(|&c| !name_byte(c)).unwrap_or(t.len())
}

// Which name test a text is, where it may have stars.
fn any_test(t: &[u8]) -> Option<Test<'_>>
    ensures { TestOf t.now result }
{
    if !all_test_bytes(t) || !starts_well(t) {
        return None;
    }
    let Some((prefix, local)) = path_pieces::split_piece(t, b':') else {
        return star_alone(t).then_some(Test {
            prefix: None,
            local: t,
        });
    };
    is_local(local).then_some(Test {
        prefix: Some(prefix),
        local,
    })
}

// Whether a text may stand behind the colon.
#[tactic(auto, unfolding(crate::specs::Places::good_local))]
fn is_local(t: &[u8]) -> bool
    ensures { result ≡ good_local t.now }
{
    path_pieces::piece_length(t, b':') == t.len() && starts_well(t) && star_alone(t)
}

// Whether a text is not empty and begins with no digit, '.' or '-'.
#[tactic(auto, unfolding(paths::specs::Reading::starts_well, paths::specs::Reading::within))]
fn starts_well(t: &[u8]) -> bool
    ensures { result ≡ starts_well t.now }
{
    match t {
        [] => false,
        [c, ..] => !matches!(c, b'0'..=b'9' | b'.' | b'-'),
    }
}

// Whether '*' stands only alone.
fn star_alone(t: &[u8]) -> bool
    ensures { result ≡ star_alone t.now }
{
    texts::same(t, b"*") || path_pieces::piece_length(t, b'*') == t.len()
}

fn all_test_bytes(t: &[u8]) -> bool
    ensures { result ≡ all test_byte t.now }
{
    t.iter().all(|&c| test_byte(c))
}

// Whether a byte may stand in a name test.
#[tactic(auto, unfolding(crate::specs::Places::name_byte, paths::specs::Reading::test_byte, paths::specs::Reading::within))]
fn test_byte(c: u8) -> bool
    ensures { result ≡ test_byte c }
{
    matches!(c, b':' | b'*') || name_byte(c)
}

// Whether a byte may stand in a name.
#[tactic(auto, unfolding(crate::specs::Places::name_byte, paths::specs::Reading::test_byte, paths::specs::Reading::within))]
fn name_byte(c: u8) -> bool
    ensures { result ≡ name_byte c }
{
    matches!(c, b'a'..=b'z' | b'A'..=b'Z' | b'0'..=b'9' | b'_' | b'-' | b'.' | 0x80..)
}

// ---- white space

// Whether all bytes are plain and below a limit. Up to 0x80 each is then a character, and none is white space.
#[tactic(auto, unfolding(crate::specs::Places::plain_byte))]
fn is_plain(path: &[u8], limit: u8) -> bool
    ensures { result ≡ all (plain_byte limit) path.now }
{
    path.iter().all(|&b| 0x20 < b && b < limit)
}

// Writes a text without its white space at the front, and answers how many bytes that are. Where the text is no UTF-8,
// or is longer than what is lent for it, nothing is written.
// The answer is no Option: by the definition an empty text is left then (`bare_text`), and 0 is its length.
pub fn without_space(path: &[u8], bare: &mut [u8]) -> usize
    ensures { Strips path.now bare.old result bare.new }
{
    if bare.len() < path.len() || !utf8_check::is_utf8(path) {
        return 0;
    }
    drop_space(path, bare)
}

// Copies a text without its white space. The answer is how many bytes are left.
fn drop_space(path: &[u8], bare: &mut [u8]) -> usize
    requires { (utf8 path.now ≡ true) × (length path.now ≤ length bare.old) }
    ensures { (result ≡ length (without_space path.now)) × (bare.new ≡ over bare.old 0 (without_space path.now)) }
{
    let mut rest = path;
    let mut n: usize = 0;
    while !rest.is_empty() {
        let c = code_points::char_at(rest, 0);
        let (front, behind) = rest.split_at(c.size);
        n = copy_char(front, c.code, bare, n);
        rest = behind;
    }
    n
}

// Copies a character unless it is white space.
fn copy_char(s: &[u8], code: u32, bare: &mut [u8], at: usize) -> usize
    requires { at + length s.now ≤ length bare.old }
    ensures { Written bare.old at (cond (xml_space code) [] s.now) result bare.new }
{
    if characters::is_white_space(code) {
        at
    } else {
        copy_bytes(s, bare, at)
    }
}

// ---- writing
// Area and place are no struct: one of a `&mut` needs a clause more in each contract, and no call gets plainer.

// The two bytes at the front of an alternative.
fn put_alternative_head(area: &mut [u8], at: usize, descendant: bool, steps: usize)
    requires { (steps ≤ 255) × (at + 2 ≤ length area.old) }
    ensures { area.new ≡ over area.old at (flag_of descendant ∷ steps ∷ []) }
{
    copy_bytes(&[u8::from(descendant), steps as u8], area, at);
}

// A text behind its length.
fn write_entry_text(t: &[u8], area: &mut [u8], at: usize) -> usize
    requires { (length t.now ≤ 255) × (at + 1 + length t.now ≤ length area.old) }
    ensures { Written area.old at (length t.now ∷ t.now) result area.new }
{
    let start = put_byte(area, at, t.len() as u8);
    copy_bytes(t, area, start)
}

fn put_byte(area: &mut [u8], at: usize, b: u8) -> usize
    requires { at + 1 ≤ length area.old }
    ensures { Written area.old at (b ∷ []) result area.new }
{
    copy_bytes(&[b], area, at)
}

// Bytes at a place, and where they end: most callers go on from there.
fn copy_bytes(t: &[u8], area: &mut [u8], at: usize) -> usize
    requires { at + length t.now ≤ length area.old }
    ensures { Written area.old at t.now result area.new }
{
    numbers::put_bytes(area, at, t);
    at + t.len()
}
