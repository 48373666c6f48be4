// One spelling for a path: the canonical text of a selector or a field.
#![tactic(auto)]

ghost use Rattle.std.specs.Prelude.{◌≡◌, true, [], ◌∷◌, ◌++◌, ◌≤◌, eqb, length};
ghost use Rattle.lists.specs.Answers.{error_of};
ghost use Rattle.utf8.specs.Utf8.{utf8};
ghost use Rattle.paths.specs.Reading.{without_space, as_part, read_path};
ghost use Rattle.session_spec.specs.Definitions.{is_some};
ghost use Rattle.canonical.specs.Respelling.{respell_part, respell_parts, respell_alt, respelled};
ghost use Rattle.path_writer.specs.Spelling.{number_of, Spells, turned_back, slashed, Fits, Adds};

use path_pieces::Part;

// Why a path is not spelled, with document 02's numbers.
// Beside `checker::Refusal`: the writer refuses for two reasons more, and does not stand on the checker.
#[derive(Clone, Copy)]
pub enum SpellRefusal {
    NoUtf8 = 3,
    OtherKind = 4,
    OverLimit = 5,
    Unread = 23,
    NoRoom = 24,
}

impl SpellRefusal {
    // No `From`: at a call the name says it.
    pub fn number(self) -> u32
        ensures { result ≡ number_of self }
    {
        self as u32
    }
}

// THE WRITER: the canonical text at the front of `out`, and all behind it as it was; the answer is how many bytes it
// has. Where it refuses, all of `out` stays.
// The kind is a byte: any caller may hand in any, also from C, and the definitions ask whether it is that of a field.
pub fn spell_path(kind: u8, path: &[u8], out: &mut [u8]) -> Result<usize, SpellRefusal>
    ensures { Spells kind path.now out.old result out.new }
{
    turned_back(kind, path)?;
    // Fixed memory: a path of at most 255 bytes gets one more at most.
    let mut text = [0u8; 256];
    let size = spell_text(path, &mut text);
    if out.len() < size {
        return Err(SpellRefusal::NoRoom);
    }
    numbers::put_bytes(out, 0, &text[..size]);
    Ok(size)
}

// ---- what is refused before anything is written

// The first of 4, 3, 5 and 23 that is met.
fn turned_back(kind: u8, path: &[u8]) -> Result<(), SpellRefusal>
    ensures { error_of result ≡ turned_back kind path.now }
{
    if 1 < kind {
        return Err(SpellRefusal::OtherKind);
    }
    if !utf8_check::is_utf8(path) {
        return Err(SpellRefusal::NoUtf8);
    }
    if record_walk::path_over(path) {
        return Err(SpellRefusal::OverLimit);
    }
    if !reader_takes(kind, path) {
        return Err(SpellRefusal::Unread);
    }
    Ok(())
}

// Whether the reader takes a path. What it writes is not looked at.
fn reader_takes(kind: u8, path: &[u8]) -> bool
    requires { length path.now ≤ 255 }
    ensures { result ≡ is_some (read_path (eqb kind 1) path.now) }
{
    // Fixed memory: the reader writes no more bytes.
    let mut area = [0u8; 1024];
    path_area::read_path(path, kind == 1, &mut area)
}

// ---- the text; each function writes behind the place `at`, and answers the place behind what it wrote
// Text and place are no struct: one of a `&mut` needs a clause more in each contract, and no call gets plainer.

// The bytes of the path, without its white space, spelled anew. No name test is read: they stay as they are.
fn spell_text(path: &[u8], text: &mut [u8]) -> usize
    requires { (utf8 path.now ≡ true) × (length path.now ≤ 255) × (256 ≤ length text.old) }
    ensures { Adds text.old 0 (respelled (without_space path.now)) result text.new }
{
    // Fixed memory: no path has more bytes.
    let mut bare = [0u8; 255];
    let n = path_reader::without_space(path, &mut bare);
    spell_alternatives(&bare[..n], text)
}

fn spell_alternatives(s: &[u8], text: &mut [u8]) -> usize
    requires { Fits s.now 0 text.old }
    ensures { Adds text.old 0 (respelled s.now) result text.new }
{
    let mut rest = s;
    let mut at: usize = 0;
    while let Some((first, behind)) = path_pieces::split_piece(rest, b'|') {
        let end = spell_alternative(first, text, at);
        at = output_stores::append_bytes(text, end, b"|");
        rest = behind;
    }
    spell_alternative(rest, text, at)
}

fn spell_alternative(s: &[u8], text: &mut [u8], at: usize) -> usize
    requires { Fits s.now at text.old }
    ensures { Adds text.old at (respell_alt s.now) result text.new }
{
    match path_pieces::behind(s, b".//") {
        Some(rest) => {
            let start = output_stores::append_bytes(text, at, b".//");
            spell_parts(rest, text, start)
        }
        None => spell_parts(s, text, at),
    }
}

// Each part is written with a slash behind it, and the last slash then does not count. Where no part was written, '.'
// is. No `for` over the library's `split`, as in the reader: of each piece must be known that it fits.
fn spell_parts(s: &[u8], text: &mut [u8], start: usize) -> usize
    requires { Fits s.now start text.old }
    ensures { Adds text.old start (respell_parts s.now) result text.new }
{
    let mut rest = s;
    let mut at = start;
    while let Some((first, behind)) = path_pieces::split_piece(rest, b'/') {
        at = spell_part(first, text, at);
        rest = behind;
    }
    let end = spell_part(rest, text, at);
    if end == start {
        output_stores::append_bytes(text, start, b".")
    } else {
        end - 1
    }
}

// A part without its axis, but '@' for an attribute's; nothing for '.'.
fn spell_part(t: &[u8], text: &mut [u8], at: usize) -> usize
    requires { Fits t.now at text.old }
    ensures { Adds text.old at (slashed (respell_part (as_part t.now))) result text.new }
{
    match path_pieces::as_part(t) {
        Part::Attribute(test) => {
            let name = output_stores::append_bytes(text, at, b"@");
            spell_test(test, text, name)
        }
        Part::Itself => at,
        Part::Child(test) => spell_test(test, text, at),
    }
}

// A name test as it stands, and a slash.
fn spell_test(t: &[u8], text: &mut [u8], at: usize) -> usize
    requires { Fits t.now at text.old }
    ensures { Adds text.old at (t.now ++ (47 ∷ [])) result text.new }
{
    let end = output_stores::append_bytes(text, at, t);
    output_stores::append_bytes(text, end, b"/")
}

// ---- the end of the code
