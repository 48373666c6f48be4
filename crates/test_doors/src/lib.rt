// Doors that only tests call: each leaf as a function of C, with numbers and byte slices. What goes together
// comes as parameters of its own, and what may be missing as doors of their own, since C has no such structs and
// no Option.
#![tactic(auto)]

ghost use Rattle.std.specs.Prelude.{◌≡◌, true, false, ◌&&◌, []};
ghost use Rattle.std.proofs.Math.Option.{none, some};
ghost use Rattle.lists.specs.Lists.{put};
ghost use Rattle.texts.specs.Texts as texts;
ghost use Rattle.numbers.specs.Numbers.{two, four, two_bytes, four_bytes};
ghost use Rattle.utf8.specs.Utf8.{utf8, decode};
ghost use Rattle.test_doors.specs.Doors.{CharHere, parsed_by, found_by};
ghost use Rattle.characters.specs.Spaces.{xml_space};
ghost use Rattle.characters.specs.Names.{name_start, name_char};
ghost use Rattle.ncname.specs.NCName.{nc_name};
ghost use Rattle.paths.specs.Matching.{space_fits};
ghost use Rattle.path_reader.specs.Parsing.{Parses};
ghost use Rattle.bindings.specs.Bindings.{uri_in, FoundIn};
ghost use Rattle.matching.specs.Matched.{names_below, selected_by, reached_by};

use bindings::{Bindings, Uri};
use matching::Branch;
use path_reader::Unparsed;

#[unsafe(no_mangle)]
pub extern "C" fn test_same(a: &[u8], b: &[u8]) -> bool
    ensures { result ≡ texts.same a.now b.now }
{
    texts::same(a, b)
}

#[unsafe(no_mangle)]
pub extern "C" fn test_two_at(s: &[u8], at: usize) -> usize
    ensures { result ≡ two s.now at }
{
    usize::from(numbers::two_at(s, at))
}

#[unsafe(no_mangle)]
pub extern "C" fn test_four_at(s: &[u8], at: usize) -> u32
    ensures { result ≡ four s.now at }
{
    numbers::four_at(s, at)
}

#[unsafe(no_mangle)]
pub extern "C" fn test_put_two(store: &mut [u8], at: usize, n: u16)
    ensures { store.new ≡ put store.old at (two_bytes n) }
{
    numbers::put_two(store, at, n);
}

#[unsafe(no_mangle)]
pub extern "C" fn test_put_four(store: &mut [u8], at: usize, n: u32)
    ensures { store.new ≡ put store.old at (four_bytes n) }
{
    numbers::put_four(store, at, n);
}

#[unsafe(no_mangle)]
pub extern "C" fn test_is_utf8(s: &[u8]) -> bool
    ensures { result ≡ utf8 s.now }
{
    utf8_check::is_utf8(s)
}

// The code point at a place, and by `size` how many bytes it takes.
#[unsafe(no_mangle)]
pub extern "C" fn test_char_at(s: &[u8], at: usize, size: &mut usize) -> u32
    ensures { CharHere s.now at result size.new }
{
    let c = code_points::char_at(s, at);
    *size = c.size;
    c.code
}

#[unsafe(no_mangle)]
pub extern "C" fn test_is_white_space(c: u32) -> bool
    ensures { result ≡ xml_space c }
{
    characters::is_white_space(c)
}

#[unsafe(no_mangle)]
pub extern "C" fn test_name_start(c: u32) -> bool
    ensures { result ≡ name_start c }
{
    characters::name_start(c)
}

#[unsafe(no_mangle)]
pub extern "C" fn test_name_char(c: u32) -> bool
    ensures { result ≡ name_char c }
{
    characters::name_char(c)
}

#[unsafe(no_mangle)]
pub extern "C" fn test_is_ncname(s: &[u8]) -> bool
    ensures { result ≡ (utf8 s.now && nc_name (decode s.now)) }
{
    ncname::is_ncname(s)
}

// ---- the path reader

// What became of a path. The kind is a byte, since the C interface hands out nothing else.
#[derive(Clone, Copy)]
struct Outcome {
    kind: u8,
    size: usize,
}

#[tactic(auto, unfolding(crate::specs::Doors::parsed_by))]
fn parse_outcome(parsed: Result<usize, Unparsed>) -> Outcome
    ensures { parsed_by result.kind result.size ≡ parsed }
{
    match parsed {
        Ok(size) => Outcome { kind: 2, size },
        Err(Unparsed::Unread) => Outcome { kind: 0, size: 0 },
        Err(Unparsed::NoRoom) => Outcome { kind: 1, size: 0 },
    }
}

// Two doors, and no bool that tells which: the names of the C interface stay.
#[unsafe(no_mangle)]
pub extern "C" fn test_parse_selector(path: &[u8], area: &mut [u8], size: &mut usize) -> u8
    ensures { Parses false path.now area.old (parsed_by result size.new) area.new }
{
    let outcome = parse_outcome(path_reader::parse_path(path, false, area));
    *size = outcome.size;
    outcome.kind
}

#[unsafe(no_mangle)]
pub extern "C" fn test_parse_field(path: &[u8], area: &mut [u8], size: &mut usize) -> u8
    ensures { Parses true path.now area.old (parsed_by result size.new) area.new }
{
    let outcome = parse_outcome(path_reader::parse_path(path, true, area));
    *size = outcome.size;
    outcome.kind
}

// ---- prefixes

// Where the URI of a prefix stands. The kind is a byte here too, for the C interface.
#[derive(Clone, Copy)]
struct Spot {
    kind: u8,
    start: usize,
    size: usize,
}

#[tactic(auto, unfolding(crate::specs::Doors::found_by))]
fn spot_of(found: Option<Uri>) -> Spot
    ensures { found_by result.kind result.start result.size ≡ found }
{
    match found {
        None => Spot {
            kind: 0,
            start: 0,
            size: 0,
        },
        Some(Uri::Xml) => Spot {
            kind: 1,
            start: 0,
            size: 0,
        },
        Some(Uri::Own(part)) => Spot {
            kind: 2,
            start: part.start,
            size: part.size,
        },
        Some(Uri::Schema(part)) => Spot {
            kind: 3,
            start: part.start,
            size: part.size,
        },
    }
}

#[unsafe(no_mangle)]
pub extern "C" fn test_find(
    own: &[u8],
    schema: &[u8],
    target: u8,
    prefix: &[u8],
    start: &mut usize,
    size: &mut usize,
) -> u8
    ensures { FoundIn own.now schema.now target prefix.now (found_by result start.new size.new) }
{
    let b = Bindings {
        own,
        schema,
        target,
    };
    let spot = spot_of(b.find(prefix));
    *start = spot.start;
    *size = spot.size;
    spot.kind
}

#[unsafe(no_mangle)]
pub extern "C" fn test_prefix_fits<'a>(
    own: &'a [u8],
    schema: &'a [u8],
    target: u8,
    prefix: &[u8],
    space: &[u8],
) -> bool
    ensures { result ≡ space_fits (uri_in own.now schema.now target prefix.now) space.now }
{
    let b = Bindings {
        own,
        schema,
        target,
    };
    b.fits(prefix, space)
}

// ---- matching

#[unsafe(no_mangle)]
pub extern "C" fn test_selects<'a>(
    area: &[u8],
    names: &[u8],
    base: u32,
    depth: u32,
    own: &'a [u8],
    schema: &'a [u8],
    target: u8,
) -> bool
    ensures { result ≡ selected_by (uri_in own.now schema.now target) area.now (names_below base depth names.now) }
{
    let b = Bindings {
        own,
        schema,
        target,
    };
    let on = Branch { names, base, depth };
    matching::selects(area, &on, &b)
}

#[unsafe(no_mangle)]
pub extern "C" fn test_reaches_element<'a>(
    area: &[u8],
    names: &[u8],
    base: u32,
    depth: u32,
    own: &'a [u8],
    schema: &'a [u8],
    target: u8,
) -> usize
    ensures { result ≡ reached_by (uri_in own.now schema.now target) area.now (names_below base depth names.now) none }
{
    let b = Bindings {
        own,
        schema,
        target,
    };
    let on = Branch { names, base, depth };
    usize::from(matching::reaches(area, &on, &b, None))
}

#[unsafe(no_mangle)]
pub extern "C" fn test_reaches_attribute<'a>(
    area: &[u8],
    names: &[u8],
    base: u32,
    depth: u32,
    own: &'a [u8],
    schema: &'a [u8],
    target: u8,
    name: &[u8],
) -> usize
    ensures { result ≡ reached_by (uri_in own.now schema.now target) area.now (names_below base depth names.now) (some (record { name = name.entry.now; key = [] })) }
{
    let b = Bindings {
        own,
        schema,
        target,
    };
    let on = Branch { names, base, depth };
    usize::from(matching::reaches(area, &on, &b, Some(name)))
}
