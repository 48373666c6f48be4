// The tuple store: TU records, each as long as its texts, one behind the other.
#![tactic(auto)]

ghost use Rattle.std.specs.Prelude.{ℕ, ◌≡◌, Bool, MatchOption};
ghost use Rattle.lists.specs.Answers.{given};
ghost use Rattle.records.specs.Readers.{read_text, reads, bytes_from};
ghost use Rattle.session_spec.specs.Layout.{read_tu, tuple_field, field_part, empty_part};
ghost use Rattle.output_stores.specs.Stores.{reads_as};
ghost use Rattle.tuples.specs.Tuples.{tuples_fit, counted, within, all_read, readable, placed, left_by};

use output_stores::{TU_CONSTRAINT, TU_COUNT, TU_SCOPE, TU_TEXTS};
use record_places::Place;

// ---- one TU

// The bytes behind so many texts; none where the texts are not whole.
// That a length has its two bytes is asked first: so they are read at once.
fn texts_behind(s: &[u8], count: u32) -> Option<&[u8]>
    ensures { left_by result ≡ bytes_from count read_text s.now }
{
    let mut rest = s;
    for passed in 0..count {
        if rest.len() < 2 {
            return None;
        }
        rest = rest.get(2 + usize::from(numbers::two_at(rest, 0))..)?;
    }
    Some(rest)
}

// The bytes behind the TU at the front, if one stands there. It is as long as it states, so a walk need not wait for
// its texts.
fn tuple_behind(s: &[u8]) -> Option<&[u8]>
    ensures { left_by result ≡ bytes_from 1 read_tu s.now }
{
    if s.len() < TU_TEXTS || !s.starts_with(b"TU") {
        return None;
    }
    let (whole, behind) = frames::split(s)?;
    let left = texts_behind(whole.get(TU_TEXTS..)?, u32::from(s[TU_COUNT]))?;
    left.is_empty().then_some(behind)
}

// ---- the whole store

// How many TUs the bytes are, where they are nothing else, each passes the test of its constraint and its scope, and
// they are not more than `most`. No more than `most` are looked at, however many the bytes are.
fn count_that<F: Fn(u8, u32) -> bool>(used: &[u8], most: u64, test: F) -> Option<u64>
    requires { F.IsAlwaysCallable test }
    ensures { (t : (constraint scope : ℕ) → Bool) → ((c s : ℕ) (b : Bool) → F.post test c s b → b ≡ t c s) → given result ≡ within most (counted t (reads read_tu used.now)) }
{
    // no plainer as an iterator of TUs: that ends alike at the end and at what is no TU, which are told apart here
    let mut rest = used;
    let mut taken: u64 = 0;
    while !rest.is_empty() {
        let behind = tuple_behind(rest)?;
        if most <= taken {
            return None;
        }
        if !test(rest[TU_CONSTRAINT], numbers::four_at(rest, TU_SCOPE)) {
            return None;
        }
        // cut by its length, so that the next TU is read while the texts of this one are still walked through
        rest = &rest[rest.len() - behind.len()..];
        taken += 1;
    }
    Some(taken)
}

// Whether the used bytes are TUs and nothing else, each of a constraint that is defined and a scope that was opened,
// and not more than `most`.
pub fn tuples_read(used: &[u8], constraints: usize, opened: u64, most: u64) -> bool
    ensures { result ≡ reads_as read_tu (tuples_fit constraints opened most) used.now }
{
    let taken = count_that(used, most, |constraint, scope| {
        usize::from(constraint) < constraints && u64::from(scope) <= opened
    });
    taken.is_some()
}

// ---- one field

// The bytes behind so many TUs. None where there are fewer.
// One walk for TUs and for texts would be handed its step, and be no plainer than the two loops of one line.
fn bytes_from(used: &[u8], count: u32) -> Option<&[u8]>
    ensures { left_by result ≡ bytes_from count read_tu used.now }
{
    let mut rest = used;
    for ahead in 0..count {
        rest = tuple_behind(rest)?;
    }
    Some(rest)
}

// The part of the used bytes that holds field `field`, from 0, of the TU with this number, from 1; empty at 0 where
// there is none, and no Option, here, in `tuple_field` and in `view_place`: public functions that could not fail still
// cannot. Number and field are no struct: C hands them in one by one.
pub fn field_place(used: &[u8], number: u32, field: u32) -> Place
    ensures { placed result ≡ field_part used.now number field }
{
    place_in(used, number, field).unwrap_or_default()
}

// The same. None where there is none.
fn place_in(used: &[u8], number: u32, field: u32) -> Option<Place>
    ensures { MatchOption result (empty_part ≡ field_part used.now number field) (λ p. placed p ≡ field_part used.now number field) }
{
    let rest = bytes_from(used, number.checked_sub(1)?)?;
    tuple_behind(rest)?;
    if u32::from(rest[TU_COUNT]) <= field {
        return None;
    }
    let text = texts_behind(&rest[TU_TEXTS..], field)?;
    let size = usize::from(numbers::two_at(text, 0));
    let start = used.len() - text.len() + 2;
    Some(Place { start, size })
}

// That part itself.
pub fn tuple_field<'a>(used: &'a [u8], number: u32, field: u32) -> &'a [u8]
    ensures { result.now ≡ tuple_field used.now number field }
{
    let place = field_place(used, number, field);
    texts::clipped(used, place.start, place.size)
}

// ---- the view

// Whether the used bytes are TUs and nothing else, whatever they belong to.
fn all_read(used: &[u8]) -> bool
    ensures { result ≡ all_read used.now }
{
    count_that(used, u64::MAX, |_, _| true).is_some()
}

// The used part of a store; nothing of it where the used length is past the store, or the part does not read.
// C lends a store and its length apart. In an empty part no field is found, so None would be turned into it at once.
fn readable<'a>(used: u64, store: &'a [u8]) -> &'a [u8]
    ensures { result.now ≡ readable used store.now }
{
    let Some(part) = store.get(..used as usize) else {
        return &[];
    };
    if all_read(part) { part } else { &[] }
}

// THE VIEW of field `field`, from 0, of the TU with this number, from 1: the part of the store that holds it; empty at
// 0 where there is none.
pub fn view_place(used: u64, store: &[u8], number: u32, field: u32) -> Place
    ensures { placed result ≡ field_part (readable used store.now) number field }
{
    let part = readable(used, store);
    field_place(part, number, field)
}

// ---- the end of the code
