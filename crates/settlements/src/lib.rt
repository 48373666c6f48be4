// What a finished selection makes, over bytes: the definitions, and the types that they name.
#![tactic(auto)]

ghost use Rattle.std.specs.Prelude.{ℕ, ◌<◌, get_or};

use open_scopes::Scopes;

// What is given where an element ends: the bytes of the selections, of which those from `first` to `n` finish; how
// often the element hits each field of each; its simple byte and key; the open scopes; and the definitions.
// The selections are bytes of lent memory, so how many are open is a number beside them. `simple` is no enum: `cells`
// takes any byte.
#[derive(Clone, Copy)]
pub struct Ending<'a> {
    pub cells: &'a [u8],
    pub first: usize,
    pub n: usize,
    pub counts: &'a [u8],
    pub simple: u8,
    pub key: &'a [u8],
    pub scopes: Scopes,
    pub defs: &'a [u8],
}

// Why a finished selection is reported, by the number of the report's kind in document 01: several nodes, no simple
// value, a field missing, a tuple that is there already, and a nillable element.
#[derive(Clone, Copy, Debug)]
pub enum ReportKind {
    Several = 1,
    NotSimple = 2,
    Missing = 3,
    Duplicate = 4,
    Nillable = 7,
}

// A report's kind, field index and tuple number.
// A report has all three, with 0 where its kind has no field or tuple: as values of the kinds they would be spread out
// again where it is written. The kind is its number, as in a report: whoever writes reports may be handed any.
#[derive(Clone, Copy, Debug)]
pub struct Told {
    pub kind: u8,
    pub field: u8,
    pub tuple: u32,
}

// What a finished selection comes to: nothing is made of it, its tuple is kept, or it is reported.
#[derive(Clone, Copy, Debug)]
pub enum Settled {
    Nothing,
    Kept,
    Reported(Told),
}

// The kind of a constraint.
#[derive(Clone, Copy, Debug)]
pub enum ConstraintKind {
    Unique,
    Key,
    Keyref,
}

// The used bytes of the tuple store, and the marks of what stands there.
#[derive(Clone, Copy)]
pub struct Tuples<'a> {
    pub used: &'a [u8],
    pub marks: &'a [u32],
    pub ghost bytes: { (i : ℕ) → get_or used.now i 0 < 256 },
}

// What is to be known of its scope and its constraint: the constraint's number, kind and field count, whether it has a
// refer, and the scope's number. Of a refer no more is asked here, so an Option of its place is no plainer.
#[derive(Clone, Copy)]
pub struct Home {
    pub constraint: u8,
    pub number: u32,
    pub kind: ConstraintKind,
    pub referred: bool,
    pub fields: usize,
}

// What a selection comes to, with the size of its TU: 0 where none is kept, since it is summed up as it stands.
#[derive(Clone, Copy)]
pub struct Sized {
    pub settled: Settled,
    pub size: usize,
}

// What the selections come to, each at its place, how many bytes their TUs have, and how many reports there are. There
// are 32 selections at most, and no heap for a list of as many as finish.
#[derive(Clone, Copy)]
pub struct Settling {
    pub each: [Settled; 32],
    pub bytes: usize,
    pub reports: usize,
}

// The used lengths of both stores after all is written.
#[derive(Clone, Copy)]
pub struct Written {
    pub tuples: usize,
    pub reports: usize,
}
