// A table of places in the tuple store: each entry is 0, or one more than the place where a record begins. It only
// says where to look first for an answer: where nothing is found there, the walk over the whole store decides. The
// entries are words that are lent, so that 0 stands for one that is free.
// Places and store are two lent parts: a struct of both, one to write, would ask a clause more of each contract.
#![tactic(auto)]

ghost use Rattle.std.specs.Prelude.{◌≡◌, ◌+◌};
ghost use Rattle.tuple_places.specs.Places.{start_of, answers_at, Entered, Notes, Sure, Decides};

use output_stores::{TU_CONSTRAINT, TU_COUNT};

// ---- the entries that belong to texts

// The first of the few entries where a place with these texts is noted. The high bits of the number of a text are
// those that differ most.
fn start_of(size: usize, texts: &[u8]) -> usize
    ensures { result ≡ start_of size texts.now }
{
    let high = (hashes::hash(texts) / 65536) as usize;
    high.checked_rem(size).unwrap_or(0)
}

// ---- noting

// Makes an entry at the first of eight that is free. Where there is none, nothing changes.
fn enter(places: &mut [u32], start: usize, entry: u32)
    ensures { Entered places.old entry places.new }
{
    let end = places.len().min(start.saturating_add(8));
    if let Some(at) = (start..end).find(|&at| places[at] == 0) {
        places[at] = entry;
    }
}

// Notes the place of a record whose constraint is in the set. A place that four bytes do not hold is not noted.
fn note_record(places: &mut [u32], place: usize, front: &[u8], keys: u32)
    ensures { Entered places.old (place + 1) places.new }
{
    let Some(entry) = u32::try_from(place).ok().and_then(|p| p.checked_add(1)) else {
        return;
    };
    if !output_stores::has(keys, numbers::byte_at(front, TU_CONSTRAINT)) {
        return;
    }
    let start = start_of(places.len(), front.get(TU_COUNT..).unwrap_or(&[]));
    enter(places, start, entry);
}

// Notes the places of the records in the used bytes whose constraint is in the set.
// The place is added up in the loop: a scan of the records would carry the same sum, no more plainly.
pub fn note_places(places: &mut [u32], used: &[u8], keys: u32)
    ensures { Notes places.old used.now places.new }
{
    let mut place = 0;
    for front in frames::Records(used) {
        note_record(places, place, front, keys);
        place += front.len();
    }
}

// ---- looking

// Set and texts are no struct, here and below, for the reason beside `tuple_search::is_answer`. Sets are bare numbers,
// `keys` above too, for that beside `output_stores::has`.

// Whether an entry has a place where an answer stands.
fn answers_at(used: &[u8], entry: u32, named: u32, texts: &[u8]) -> bool
    ensures { result ≡ answers_at used.now entry named texts.now }
{
    let Some(place) = entry.checked_sub(1) else {
        return false;
    };
    let rest = used.get(place as usize..).unwrap_or(&[]);
    let split = frames::split(rest);
    split.is_some_and(|(front, _)| tuple_search::is_answer(front, named, texts))
}

// Whether one of the entries that belong to the texts has. One that is not found there may stand elsewhere.
fn found_near(used: &[u8], places: &[u32], named: u32, texts: &[u8]) -> bool
    ensures { Sure used.now places.now named texts.now result }
{
    let start = start_of(places.len(), texts);
    let own = places.get(start..).unwrap_or(&[]);
    own.iter()
        .take(8)
        .any(|&entry| answers_at(used, entry, named, texts))
}

// Whether a tuple of one of the constraints in the set has these texts: by the table, and where it does not say so by
// the walk.
pub fn answered_near(used: &[u8], places: &[u32], named: u32, texts: &[u8]) -> bool
    ensures { Decides used.now places.now named texts.now result }
{
    found_near(used, places, named, texts) || tuple_search::answered(used, named, texts)
}

// ---- the end of the code
