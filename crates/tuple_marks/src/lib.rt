// Marks of the tuples of a store: bits, one of which each tuple sets. Where a tuple's bit is not set no tuple of the
// store is the same, and the store is not walked through.
#![tactic(auto)]

ghost use Rattle.std.specs.Prelude.{◌≡◌};
ghost use Rattle.lists.specs.Answers.{given};
ghost use Rattle.session_spec.specs.Definitions.{frame};
ghost use Rattle.output_stores.specs.Stores.{standing};
ghost use Rattle.tuple_search.specs.Search.{place_with};
ghost use Rattle.tuple_marks.specs.Marks.{word_of, bit_of, marked, with_mark, with_marks, AllMarked};

// ---- where the bit of a tuple is, by its bytes from the scope on

fn word_of(hash: u32) -> usize
    ensures { result ≡ word_of hash }
{
    (hash / 524288) as usize
}

// Under 32, so that it is a byte where one is asked for: try_from would add an error that never is.
fn bit_of(hash: u32) -> u32
    ensures { result ≡ bit_of hash }
{
    hash / 16384 % 32
}

// ---- one tuple

// Whether its bit is set. One that lies past the marks counts as set, so that no marks at all rule nothing out.
pub fn is_marked(marks: &[u32], tail: &[u8]) -> bool
    ensures { result ≡ marked marks.now tail.now }
{
    let hash = hashes::hash(tail);
    let word = marks.get(word_of(hash));
    word.is_none_or(|&word| output_stores::has(word, bit_of(hash) as u8))
}

// Sets its bit.
// get_mut was tried, and the proof did not close: what it lends is written, and the marks then stay unknown.
pub fn mark(marks: &mut [u32], tail: &[u8])
    ensures { marks.new ≡ with_mark marks.old tail.now }
{
    let hash = hashes::hash(tail);
    let at = word_of(hash);
    if marks.len() <= at {
        return;
    }
    marks[at] |= 1 << bit_of(hash);
}

// ---- the tuples of a store

// Sets the bits of all that stand in the bytes.
pub fn mark_all(marks: &mut [u32], used: &[u8])
    ensures { marks.new ≡ with_marks marks.old (standing frame used.now) }
{
    for front in frames::Records(used) {
        mark(marks, front.get(output_stores::TU_SCOPE..).unwrap_or(&[]));
    }
}

// The number, from 1, of the first tuple whose scope and texts are those of this tail. Where its bit is not set nothing
// is searched.
pub fn find_marked(used: &[u8], marks: &[u32], tail: &[u8]) -> Option<usize>
    ensures { AllMarked marks.now used.now → given result ≡ place_with tail.now (standing frame used.now) }
{
    if !is_marked(marks, tail) {
        return None;
    }
    tuple_search::find_tuple(used, tail)
}

// ---- the end of the code
