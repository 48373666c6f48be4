// The constraints in the definition store: the records of one, the parts of its ID by their places, and which
// constraints bear a name.
#![tactic(auto)]

ghost use Rattle.std.specs.Prelude.{◌≡◌, Bool, true, false, get_or, []};
ghost use Rattle.texts.specs.Texts.{Text};
ghost use Rattle.record_places.specs.Places.{text_in, texts_at};
ghost use Rattle.bindings.specs.Bindings.{frames_in};
ghost use Rattle.bindings.specs.Own.{is_id, own_frames};
ghost use Rattle.constraints.specs.Constraints.{joined, texts_left, PartsOf, count_in, NamedBy, AnsweredBy};
ghost use Rattle.constraints.specs.Walks.{StartsAt, EndsAt, CountedAt, bears, ids_with};

use frames::Records;
use record_places::Place;
use record_walk::Texts;

// The parts of an ID by their places in the bytes that it stands at the front of. The fields are so many texts from a
// place on. The kind is the record's own byte, and no enum, here and in `answers_name`: C hands in any bytes, and is
// handed the one that stands there.
#[derive(Clone, Copy)]
pub struct Parts {
    pub kind: u8,
    pub name: Place,
    pub refer: Option<Place>,
    pub selector: Place,
    pub first: usize,
    pub count: usize,
}

// A constraint: its records, with its ID at their front, and the parts of that.
#[derive(Clone, Copy)]
pub struct Constraint<'a> {
    pub own: &'a [u8],
    pub parts: Parts,
}

// A count byte that was read: how many follow, and where the first one stands. `Parts` has the two bare, as C is handed
// them one by one.
#[derive(Clone, Copy)]
struct Counted {
    first: usize,
    count: usize,
}

// ---- the record at the front

// Whether the record at the front has the mark of an ID.
fn is_id(s: &[u8]) -> bool
    ensures { result ≡ is_id s.now }
{
    s.starts_with(b"ID")
}

// ---- the records of one constraint

// The store from the ID with this number on; empty where there is none, and no Option: own_of, which alone asks, finds
// no record at the front of an empty store. The place is added up in the loop: the bytes from there on are asked for,
// so that a chain over the records would have to carry the same sums.
fn from_id<'a>(used: &'a [u8], number: u32) -> &'a [u8]
    ensures { StartsAt used.now number result.now }
{
    let mut before = 0;
    let mut left = number;
    for record in Records(used) {
        let one = u32::from(is_id(record));
        if left < one {
            return &used[before..];
        }
        left -= one;
        before += record.len();
    }
    &[]
}

// How many bytes stand before the next ID.
fn until_id(s: &[u8]) -> usize
    ensures { EndsAt s.now result }
{
    Records(s)
        .take_while(|record| !is_id(record))
        .map(|record| record.len())
        .sum()
}

// The records of the constraint with this number, from 0: its ID and those behind it before the next one. Empty where
// there is no such constraint, here as in `Constraint::field`: public functions that could not fail still cannot.
pub fn own_of<'a>(used: &'a [u8], number: u32) -> &'a [u8]
    ensures { result.now ≡ joined (own_frames number (frames_in used.now)) }
{
    let from = from_id(used, number);
    match frames::split(from) {
        Some((id, behind)) => &from[..id.len() + until_id(behind)],
        None => &[],
    }
}

// ---- the parts of an ID

// The count byte at a place. Where it is not there nothing follows: no Option, since `parts_of` answers for any bytes.
fn counted_at(s: &[u8], at: usize) -> Counted
    ensures { CountedAt s.now at result }
{
    match s.get(at) {
        Some(count) => Counted {
            first: at + 1,
            count: usize::from(*count),
        },
        None => Counted {
            first: s.len(),
            count: 0,
        },
    }
}

// The parts of the ID at the front of a stretch, by their places in it. Nothing is checked once more.
pub fn parts_of(own: &[u8]) -> Parts
    ensures { PartsOf own.now result }
{
    let n = record_walk::text_at(own, 5);
    let flag = numbers::byte_at(own, n.next);
    let f = record_walk::refer_at(own, flag, n.next + 1);
    let t = record_walk::text_at(own, f.next);
    let c = counted_at(own, t.next);
    Parts {
        kind: numbers::byte_at(own, 4),
        name: n.text,
        refer: (flag == 1).then_some(f.text),
        selector: t.text,
        first: c.first,
        count: c.count,
    }
}

// Field i of it. Records and parts come apart, and not as one `Constraint`: C hands them in so.
pub fn field_of<'a>(own: &'a [u8], p: Parts, i: usize) -> &'a [u8]
    ensures { result.now ≡ get_or (texts_at own.now p.first p.count) i [] }
{
    let constraint = Constraint { own, parts: p };
    constraint.field(i)
}

// ---- a constraint

impl<'a> Constraint<'a> {
    // That of these records.
    pub fn of(own: &'a [u8]) -> Constraint<'a>
        ensures records { result.own.now ≡ own.now }
        ensures parts { PartsOf own.now result.parts }
    {
        let parts = parts_of(own);
        Constraint { own, parts }
    }

    // That with this number, from 0.
    pub fn numbered(used: &'a [u8], number: u32) -> Constraint<'a>
        ensures records { result.own.now ≡ joined (own_frames number (frames_in used.now)) }
        ensures parts { PartsOf result.own.now result.parts }
    {
        Constraint::of(own_of(used, number))
    }

    pub fn name(&self) -> &'a [u8]
        ensures { result.now ≡ text_in self.now.own.now self.now.parts.name }
    {
        record_walk::text_in(self.own, self.parts.name)
    }

    pub fn selector(&self) -> &'a [u8]
        ensures { result.now ≡ text_in self.now.own.now self.now.parts.selector }
    {
        record_walk::text_in(self.own, self.parts.selector)
    }

    // Its fields, one after the other.
    pub fn fields(&self) -> Texts<'a>
        ensures { texts_left result ≡ texts_at self.now.own.now self.now.parts.first self.now.parts.count }
    {
        Texts {
            rec: self.own,
            at: self.parts.first,
            left: self.parts.count,
        }
    }

    // Field i; empty where there is none.
    pub fn field(&self, i: usize) -> &'a [u8]
        ensures { result.now ≡ get_or (texts_at self.now.own.now self.now.parts.first self.now.parts.count) i [] }
    {
        self.fields().nth(i).unwrap_or(&[])
    }
}

// ---- which constraints bear a name

// Whether the ID bears the name.
fn bears_name(id: &[u8], name: &[u8]) -> bool
    ensures { result ≡ bears false name.now id.now }
{
    let t = record_walk::text_at(id, 5);
    texts::same(name, record_walk::text_in(id, t.text))
}

// Whether it bears the name and is that of a unique or a key: a keyref answers none.
fn answers_name(id: &[u8], name: &[u8]) -> bool
    ensures { result ≡ bears true name.now id.now }
{
    numbers::byte_at(id, 4) < 2 && bears_name(id, name)
}

// The constraints whose ID passes the test, a bit for each, of the 32 there can be. A set is a bare number, here and in
// `named` and `answering`: C is handed it, and the definitions speak of its bits.
fn bearers<F: Fn(&[u8]) -> bool>(used: &[u8], test: F) -> u32
    requires { F.IsAlwaysCallable test }
    ensures { (t : Text → Bool) → ((id : _) (b : Bool) → F.post test id b → b ≡ t id.now) → result ≡ ids_with t used.now }
{
    Records(used)
        .filter(|record| is_id(record))
        .take(32)
        .enumerate()
        .fold(0, |set: u32, (k, id)| set | u32::from(test(id)) << k)
}

// Which constraints bear this name, a bit for each.
pub fn named(used: &[u8], name: &[u8]) -> u32
    ensures { NamedBy used.now name.now result }
{
    bearers(used, |id| bears_name(id, name))
}

// Which constraints answer a keyref with this refer: unique or key, and of this name.
pub fn answering(used: &[u8], refer: &[u8]) -> u32
    ensures { AnsweredBy used.now refer.now result }
{
    bearers(used, |id| answers_name(id, refer))
}

// How many constraints there are.
pub fn constraint_count(used: &[u8]) -> u32
    ensures { result ≡ count_in used.now }
{
    let ids = Records(used).filter(|record| is_id(record));
    u32::try_from(ids.count()).unwrap_or(u32::MAX)
}

// ---- the end of the code
