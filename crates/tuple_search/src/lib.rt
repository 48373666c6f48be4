// The tuple store searched: the TU of a finished selection, a tuple of its scope that is the same, and one that
// answers a keyref.
#![tactic(auto)]

ghost use Rattle.std.specs.Prelude.{◌≡◌, drop, length};
ghost use Rattle.lists.specs.Answers.{given};
ghost use Rattle.lists.specs.Lists.{put};
ghost use Rattle.texts.specs.Texts.{same};
ghost use Rattle.records.specs.Readers.{put_text};
ghost use Rattle.session_spec.specs.Definitions.{frame};
ghost use Rattle.session_spec.specs.Layout.{key_of};
ghost use Rattle.cells.specs.Cells.{cell_at};
ghost use Rattle.output_stores.specs.Stores.{standing, Appended};
ghost use Rattle.tuple_search.specs.Search.{keys_in, tu_head, MadeOf, place_with, is_answer, answered_by};

use frames::Records;
use output_stores::{TU_CONSTRAINT, TU_COUNT, TU_SCOPE, TU_TEXTS};

// A TU: the first size bytes. Fixed memory, here and in make_tuple, since the library takes no heap.
#[derive(Drop)]
pub struct Made {
    pub bytes: [u8; 522],
    pub size: usize,
}

// ---- the TU of a selection

// Writes the ten bytes before the texts at the front. Where they do not fit nothing changes.
fn put_tuple_head(dst: &mut [u8], size: u16, constraint: u8, scope: u32, count: u8)
    ensures { dst.new ≡ put dst.old 0 (tu_head size constraint scope count) }
{
    let mut head = [b'T', b'U', 0, 0, constraint, 0, 0, 0, 0, count];
    numbers::put_two(&mut head, 2, size);
    numbers::put_four(&mut head, TU_SCOPE, scope);
    output_stores::append_bytes(dst, 0, &head);
}

// Adds the key of the cell at a place, as a text, behind the used bytes. Where there is no room nothing changes.
// The old length then is no plainer as None: a TU has room for four keys, and make_tuple goes on from it at once.
// Why the test of the room is no function of its own is said beside `Line::word` of lines.
fn append_key(dst: &mut [u8], used: usize, cells: &[u8], place: usize) -> usize
    ensures { Appended dst.old used (put_text (key_of (cell_at cells.now place))) result dst.new }
{
    let key = cells::key_at(cells, place);
    let whole = key.len() + 2;
    if dst.len() < whole || dst.len() - whole < used {
        return used;
    }
    numbers::put_two(dst, used, key.len() as u16);
    output_stores::append_bytes(dst, used + 2, key)
}

// The TU of a finished selection: constraint, scope and the keys of its first `fields` cells.
// A key has at most 126 bytes and a TU 522: no conversion here or in append_key loses anything, or could fail.
pub fn make_tuple(constraint: u8, scope: u32, cells: &[u8], fields: usize) -> Made
    ensures { MadeOf constraint scope (keys_in fields cells.now) result }
{
    let count = 4.min(fields);
    let mut bytes = [0u8; 522];
    let mut size = TU_TEXTS;
    for i in 0..count {
        size = append_key(&mut bytes, size, cells, 128 * i);
    }
    put_tuple_head(
        &mut bytes,
        (size - 4) as u16,
        constraint,
        scope,
        count as u8,
    );
    Made { bytes, size }
}

// ---- searches

// How many records stand in the bytes.
#[tactic(auto, using(frames::proofs::Walks::standing_fits))]
pub fn count(used: &[u8]) -> usize
    ensures { result ≡ length (standing frame used.now) }
{
    Records(used).count()
}

// Whether the bytes of a record from a place on are these.
fn ends_with(front: &[u8], at: usize, bytes: &[u8]) -> bool
    ensures { result ≡ same (drop at front.now) bytes.now }
{
    match front.get(at..) {
        Some(end) => texts::same(end, bytes),
        None => bytes.is_empty(),
    }
}

// The number, from 1, of the first tuple in the used bytes whose scope and texts are those of this tail.
pub fn find_tuple(used: &[u8], tail: &[u8]) -> Option<usize>
    ensures { given result ≡ place_with tail.now (standing frame used.now) }
{
    let before = Records(used).position(|r| ends_with(r, TU_SCOPE, tail))?;
    Some(before + 1)
}

// Whether a record is of a constraint in the set and has these texts. A struct of both, here and in `answered`, would
// be no plainer: each contract speaks of the two, and they are asked one by one here. The set is a bare number for the
// reason beside `output_stores::has`.
pub fn is_answer(front: &[u8], named: u32, texts: &[u8]) -> bool
    ensures { result ≡ is_answer named texts.now front.now }
{
    output_stores::has(named, numbers::byte_at(front, TU_CONSTRAINT))
        && ends_with(front, TU_COUNT, texts)
}

// Whether a tuple of one of the constraints in the set has these texts.
pub fn answered(used: &[u8], named: u32, texts: &[u8]) -> bool
    ensures { result ≡ answered_by named texts.now (standing frame used.now) }
{
    Records(used).any(|r| is_answer(r, named, texts))
}

// ---- the end of the code
