// The record walk: what the bytes of a record say, by places in them, or why they are refused. Nothing is copied.
#![tactic(auto)]

ghost use Rattle.std.specs.Prelude.{◌≡◌, ◌≤◌, length, drop, Some, None, MatchResult};
ghost use Rattle.std.specs.Iterator.{YieldsFirstRef, YieldsFirstBy, item_count};
ghost use Rattle.lists.specs.Lists.{any};
ghost use Rattle.texts.specs.Texts.{Text};
ghost use Rattle.utf8.specs.Utf8.{utf8};
ghost use Rattle.records.specs.Readers.{read_text, times, up_to};
ghost use Rattle.records.specs.Refusals.{refusal_number};
ghost use Rattle.records.specs.Records.{read_refer, read_attribute, read_id, read_ns, read_es, read_ee, mark_fi, read_body, mark_of, count_of, long_path, over_in, exactly, framed, marked, parse};
ghost use Rattle.record_places.specs.declared.Refusal.TheVariants.{Misframed};
ghost use Rattle.record_places.specs.Places.{text_in, text_place, name_and_key, Reads, TextOf, texts_at, attributes_at, ReferOf, id_in, ns_in, es_in, ee_in, InsideId, InsideNs, InsideEs, InsideEe, refusal_of, Walks};
ghost use Rattle.record_places.specs.Checks.{not_utf8, any_not_utf8, over_field, over_sizes, over_attribute, judgement, mark_by, marked_by};

use record_places::{Ee, Es, Id, Mark, Ns, Place, Record, Refusal, TextAt};

// Document 01's number of a refusal. Two of them have one number, so no enum of these numbers can stand for them. No
// `From`, which would be no plainer: at a call the name says which number it is.
pub fn refusal_number(r: Refusal) -> u8
    ensures { result ≡ refusal_number (refusal_of r) }
{
    match r {
        Refusal::UnknownMark => 1,
        Refusal::TooLong => 5,
        Refusal::Misframed => 2,
        Refusal::NotUtf8 => 3,
        Refusal::BadByte => 4,
        Refusal::OverLimit => 5,
    }
}

// ---- bytes and texts at a place

// The text at a place, and the place behind it.
pub fn text_at(s: &[u8], at: usize) -> TextAt
    ensures { TextOf s.now at result }
{
    match record_places::text_place(s, at) {
        Some(text) => TextAt {
            text,
            next: text.start + text.size,
        },
        None => TextAt {
            text: Place {
                start: s.len(),
                size: 0,
            },
            next: s.len() + 1,
        },
    }
}

// The bytes of a text.
pub fn text_in(s: &[u8], p: Place) -> &[u8]
    ensures { result.now ≡ text_in s.now p }
{
    texts::clipped(s, p.start, p.size)
}

// ---- lists of texts and attributes

// The place behind n texts, past the end where they are not whole. No Option, which is no plainer: it is only held
// against the end of the record, which it then is not.
fn texts_end(s: &[u8], at: usize, n: usize) -> usize
    ensures { Reads (times n read_text) s.now at result (texts_at s.now at n) }
{
    (0..n).fold(at, |next, _| text_at(s, next).next)
}

// So many texts from a place on, one behind the other, as far as they are whole.
#[derive(Drop)]
pub struct Texts<'a> {
    pub rec: &'a [u8],
    pub at: usize,
    pub left: usize,
}

impl<'a> Iterator for Texts<'a> {
    type Item = &'a [u8];

    ghost next_gives = { YieldsFirstRef (λ t. texts_at t.rec.now t.at t.left) };

    ghost remaining = { item_count (λ t. texts_at t.rec.now t.at t.left) };

    fn next(&mut self) -> Option<&'a [u8]> {
        let left = self.left.checked_sub(1)?;
        let text = record_places::text_place(self.rec, self.at)?;
        self.at = text.start + text.size;
        self.left = left;
        Some(&self.rec[text.start..text.start + text.size])
    }
}

// So many attributes from a place on, each by its name and its key, as far as they are whole. Beside `Texts`: one type
// for both would need a trait that says how an item is read, and with it be longer than the two.
#[derive(Drop)]
pub struct Attributes<'a> {
    pub rec: &'a [u8],
    pub at: usize,
    pub left: usize,
}

impl<'a> Iterator for Attributes<'a> {
    type Item = (&'a [u8], &'a [u8]);

    ghost next_gives = { YieldsFirstBy name_and_key (λ t. attributes_at t.rec.now t.at t.left) };

    ghost remaining = { item_count (λ t. attributes_at t.rec.now t.at t.left) };

    fn next(&mut self) -> Option<(&'a [u8], &'a [u8])> {
        let left = self.left.checked_sub(1)?;
        let name = record_places::text_place(self.rec, self.at)?;
        let key = record_places::text_place(self.rec, name.start + name.size)?;
        self.at = key.start + key.size;
        self.left = left;
        Some((
            &self.rec[name.start..name.start + name.size],
            &self.rec[key.start..key.start + key.size],
        ))
    }
}

fn is_text(s: &[u8], p: Place) -> bool
    ensures { result ≡ utf8 (text_in s.now p) }
{
    utf8_check::is_utf8(text_in(s, p))
}

// Whether one of these texts is not UTF-8. Beside `fields_over`, with another test: each is one call of the library,
// and one function that takes the test would save no line.
fn texts_not_utf8(mut texts: Texts) -> bool
    ensures { result ≡ any not_utf8 (texts_at texts.entry.rec.now texts.entry.at texts.entry.left) }
{
    texts.any(|t| !utf8_check::is_utf8(t))
}

// ---- paths

fn count_of(s: &[u8], c: u8) -> usize
    ensures { result ≡ count_of c s.now }
{
    s.iter().filter(|&&x| x == c).count()
}

// Over seven '|' or sixteen '/'.
fn is_long_path(s: &[u8]) -> bool
    ensures { result ≡ long_path s.now }
{
    7 < count_of(s, b'|') || 16 < count_of(s, b'/')
}

// ---- limits

// Whether a path is over a limit that an ID has for it: 255 bytes, seven '|', sixteen '/'.
pub fn path_over(t: &[u8]) -> bool
    ensures { result ≡ over_field t.now }
{
    255 < t.len() || is_long_path(t)
}

// Whether one of these fields is over a limit.
fn fields_over(mut fields: Texts) -> bool
    ensures { result ≡ any over_field (texts_at fields.entry.rec.now fields.entry.at fields.entry.left) }
{
    fields.any(path_over)
}

// Whether one of these attributes is over a limit.
fn attributes_over(mut attributes: Attributes) -> bool
    ensures { result
        ≡ any over_attribute (attributes_at attributes.entry.rec.now attributes.entry.at attributes.entry.left) }
{
    attributes.any(|(name, key)| 255 < name.len() || 126 < key.len())
}

// ---- ID

// The fields of an ID, to be walked: once for UTF-8, and once for the limits.
fn fields_of_id(rec: &[u8], id: Id) -> Texts
    ensures { texts_at result.rec.now result.at result.left ≡ texts_at rec.now id.first id.count }
{
    Texts {
        rec,
        at: id.first,
        left: id.count,
    }
}

// The record and its places come apart, here and in `id_over` and `check_id`, and so of an ES: a struct of both, which
// says that the places are inside, would be made for these three alone, and be longer than what it saves.
fn id_not_utf8(rec: &[u8], id: Id) -> bool
    requires { InsideId rec.now id }
    ensures { result ≡ any_not_utf8 (id_in rec.now id) }
{
    !is_text(rec, id.name)
        || !is_text(rec, id.refer)
        || !is_text(rec, id.selector)
        || texts_not_utf8(fields_of_id(rec, id))
}

fn id_over(rec: &[u8], id: Id) -> bool
    requires { InsideId rec.now id }
    ensures { result ≡ over_in (id_in rec.now id) }
{
    id.count == 0
        || 4 < id.count
        || 255 < id.name.size
        || 255 < id.refer.size
        || path_over(text_in(rec, id.selector))
        || fields_over(fields_of_id(rec, id))
}

// Beside `check_ns`, `check_es` and `check_ee`, which test in the same order: one function would have to be handed each
// test as a closure, since a later one is not asked where an earlier one refuses, and would be no plainer.
fn check_id(rec: &[u8], id: Id) -> Result<Record, Refusal>
    requires { InsideId rec.now id }
    ensures { Walks rec.now (judgement (id_in rec.now id)) result }
{
    if id_not_utf8(rec, id) {
        return Err(Refusal::NotUtf8);
    }
    if 2 < id.kind || 1 < id.flag {
        return Err(Refusal::BadByte);
    }
    if id_over(rec, id) {
        return Err(Refusal::OverLimit);
    }
    Ok(Record::Id(id))
}

// The text behind the refer byte: none where that is not 1. No Option, which is no plainer: what follows is read at
// `next` in both cases, and the byte itself says which of them it is.
pub fn refer_at(s: &[u8], flag: u8, at: usize) -> TextAt
    ensures { ReferOf s.now flag at result }
{
    if flag == 1 {
        return text_at(s, at);
    }
    TextAt {
        text: Place::default(),
        next: at,
    }
}

// ---- NS

fn check_ns(rec: &[u8], ns: Ns) -> Result<Record, Refusal>
    requires { InsideNs rec.now ns }
    ensures { Walks rec.now (judgement (ns_in rec.now ns)) result }
{
    if !is_text(rec, ns.prefix) || !is_text(rec, ns.uri) {
        return Err(Refusal::NotUtf8);
    }
    if 5 < ns.target {
        return Err(Refusal::BadByte);
    }
    if 255 < ns.prefix.size || 255 < ns.uri.size {
        return Err(Refusal::OverLimit);
    }
    Ok(Record::Ns(ns))
}

// ---- ES

// An attribute is two texts.
fn es_not_utf8(rec: &[u8], es: Es) -> bool
    requires { (InsideEs rec.now es) × (es.count ≤ 255) }
    ensures { result ≡ any_not_utf8 (es_in rec.now es) }
{
    let texts = Texts {
        rec,
        at: es.first,
        left: 2 * es.count,
    };
    !is_text(rec, es.space) || !is_text(rec, es.name) || texts_not_utf8(texts)
}

fn es_over(rec: &[u8], es: Es) -> bool
    requires { InsideEs rec.now es }
    ensures { result ≡ over_in (es_in rec.now es) }
{
    let attributes = Attributes {
        rec,
        at: es.first,
        left: es.count,
    };
    8 < es.numbers.size
        || 32 < es.count
        || 255 < es.space.size
        || 255 < es.name.size
        || attributes_over(attributes)
}

fn check_es(rec: &[u8], es: Es) -> Result<Record, Refusal>
    requires { (InsideEs rec.now es) × (es.count ≤ 255) }
    ensures { Walks rec.now (judgement (es_in rec.now es)) result }
{
    if es_not_utf8(rec, es) {
        return Err(Refusal::NotUtf8);
    }
    if es_over(rec, es) {
        return Err(Refusal::OverLimit);
    }
    Ok(Record::Es(es))
}

// ---- EE

fn check_ee(rec: &[u8], ee: Ee) -> Result<Record, Refusal>
    requires { InsideEe rec.now ee }
    ensures { Walks rec.now (judgement (ee_in rec.now ee)) result }
{
    if !is_text(rec, ee.key) {
        return Err(Refusal::NotUtf8);
    }
    if 2 < ee.simple {
        return Err(Refusal::BadByte);
    }
    if 126 < ee.key.size {
        return Err(Refusal::OverLimit);
    }
    Ok(Record::Ee(ee))
}

// ---- the record

// A record whose first four bytes are there, its mark and its stated length.
#[derive(Clone, Copy)]
struct Framed<'a> {
    rec: &'a [u8],
    ghost head: { 4 ≤ length rec.now },
}

impl Framed<'_> {
    // The text at a place, which is to be whole.
    fn text(self, at: usize) -> Result<Place, Refusal>
        ensures { MatchResult result (λ p. Some p ≡ text_place self.entry.rec.now at)
            (λ r. (None ≡ text_place self.entry.rec.now at) × (r ≡ Misframed)) }
    {
        record_places::text_place(self.rec, at).ok_or(Refusal::Misframed)
    }

    // A count or a list may break off: its place past the end leads to no end but one past it, so the last one is
    // compared alone.
    fn walk_id(self) -> Result<Record, Refusal>
        ensures { Walks self.entry.rec.now (exactly (read_id (drop 4 self.entry.rec.now))) result }
    {
        let name = self.text(5)?;
        let behind = name.start + name.size;
        let flag = numbers::byte_at(self.rec, behind);
        let refer = refer_at(self.rec, flag, behind + 1);
        let selector = self.text(refer.next)?;
        let counted = selector.start + selector.size;
        let count = usize::from(numbers::byte_at(self.rec, counted));
        let first = counted + 1;
        if texts_end(self.rec, first, count) != self.rec.len() {
            return Err(Refusal::Misframed);
        }
        let kind = numbers::byte_at(self.rec, 4);
        let id = Id {
            kind,
            name,
            flag,
            refer: refer.text,
            selector,
            first,
            count,
        };
        check_id(self.rec, id)
    }

    fn walk_ns(self) -> Result<Record, Refusal>
        ensures { Walks self.entry.rec.now (exactly (read_ns (drop 4 self.entry.rec.now))) result }
    {
        let prefix = self.text(5)?;
        let uri = self.text(prefix.start + prefix.size)?;
        if uri.start + uri.size != self.rec.len() {
            return Err(Refusal::Misframed);
        }
        let target = numbers::byte_at(self.rec, 4);
        let ns = Ns {
            target,
            prefix,
            uri,
        };
        check_ns(self.rec, ns)
    }

    fn walk_es(self) -> Result<Record, Refusal>
        ensures { Walks self.entry.rec.now (exactly (read_es (drop 4 self.entry.rec.now))) result }
    {
        let space = self.text(4)?;
        let name = self.text(space.start + space.size)?;
        let counted = name.start + name.size;
        let size = usize::from(numbers::byte_at(self.rec, counted));
        let start = counted + 1;
        let behind = start + size;
        let count = usize::from(numbers::byte_at(self.rec, behind));
        let first = behind + 1;
        if texts_end(self.rec, first, 2 * count) != self.rec.len() {
            return Err(Refusal::Misframed);
        }
        let es = Es {
            space,
            name,
            numbers: Place { start, size },
            first,
            count,
        };
        check_es(self.rec, es)
    }

    fn walk_ee(self) -> Result<Record, Refusal>
        ensures { Walks self.entry.rec.now (exactly (read_ee (drop 4 self.entry.rec.now))) result }
    {
        let key = self.text(5)?;
        if key.start + key.size != self.rec.len() {
            return Err(Refusal::Misframed);
        }
        let simple = numbers::byte_at(self.rec, 4);
        check_ee(self.rec, Ee { simple, key })
    }

    fn walk_fi(self) -> Result<Record, Refusal>
        ensures { Walks self.entry.rec.now (exactly (read_body mark_fi (drop 4 self.entry.rec.now))) result }
    {
        if 4 < self.rec.len() {
            return Err(Refusal::Misframed);
        }
        Ok(Record::Fi)
    }

    // A match, since each arm reads another record: to be handed the reader is no plainer.
    fn walk_body(self, m: Mark) -> Result<Record, Refusal>
        ensures { Walks self.entry.rec.now (exactly (read_body (mark_by m) (drop 4 self.entry.rec.now))) result }
    {
        match m {
            Mark::Id => self.walk_id(),
            Mark::Ns => self.walk_ns(),
            Mark::Es => self.walk_es(),
            Mark::Ee => self.walk_ee(),
            Mark::Fi => self.walk_fi(),
        }
    }
}

// What stands behind a known mark: first the stated length alone, then the bytes that are there.
fn walk_framed(rec: &[u8], m: Mark) -> Result<Record, Refusal>
    ensures { Walks rec.now (framed (mark_by m) (drop 2 rec.now)) result }
{
    if rec.len() < 4 {
        return Err(Refusal::Misframed);
    }
    let stated = usize::from(numbers::two_at(rec, 2));
    if 16384 < stated {
        return Err(Refusal::TooLong);
    }
    if rec.len() - 4 != stated {
        return Err(Refusal::Misframed);
    }
    Framed { rec }.walk_body(m)
}

// The mark of two bytes. No `TryFrom`, which would be no plainer: its error could say no more than that there is none.
fn mark_of(a: u8, b: u8) -> Option<Mark>
    ensures { marked_by result ≡ mark_of a b }
{
    match (a, b) {
        (b'I', b'D') => Some(Mark::Id),
        (b'N', b'S') => Some(Mark::Ns),
        (b'E', b'S') => Some(Mark::Es),
        (b'E', b'E') => Some(Mark::Ee),
        (b'F', b'I') => Some(Mark::Fi),
        _ => None,
    }
}

// What a record says, by places in it, or the first refusal because of the input.
pub fn walk_record(rec: &[u8]) -> Result<Record, Refusal>
    ensures { Walks rec.now (parse rec.now) result }
{
    let [a, b, ..] = rec else {
        return Err(Refusal::UnknownMark);
    };
    let mark = mark_of(*a, *b).ok_or(Refusal::UnknownMark)?;
    walk_framed(rec, mark)
}
