// The bindings of prefixes in lent bytes, and the URI of a prefix as a part of them.
#![tactic(auto)]

ghost use Rattle.std.specs.Prelude.{◌≡◌, ◌+◌, min};
ghost use Rattle.paths.specs.Matching.{space_fits};
ghost use Rattle.lists.specs.Lists.{any};
ghost use Rattle.texts.specs.Texts.{same};
ghost use Rattle.bindings.specs.Bindings.{bound_for, bound_by, uri_in, FoundIn, stands_at, stretch};
ghost use Rattle.bindings.specs.Places.{BoundIn, LookedUp, uri_fits};

use frames::Records;
use record_places::Place;

// Where a URI stands: in no bytes, as that of `xml`, or in the own or the schema-wide bindings.
#[derive(Clone, Copy)]
pub enum Uri {
    Xml,
    Own(Place),
    Schema(Place),
}

// What the prefixes of a path are bound by: the own bindings of its constraint for this target, then the schema-wide
// ones. The target is the byte of an NS and no enum, here and below: any may be handed in, also from C.
#[derive(Clone, Copy)]
pub struct Bindings<'a> {
    pub own: &'a [u8],
    pub schema: &'a [u8],
    pub target: u8,
}

// The namespace that the prefix `xml` is bound to, whatever any record says: both stand on a type of their own
// (document 01, form 2).
#[derive(Drop)]
pub struct Namespace;

impl Namespace {
    pub const PREFIX: [u8; 3] = *b"xml";

    pub const XML: [u8; 36] = *b"http://www.w3.org/XML/1998/namespace";
}

// ---- what stands in the bytes
// Target and prefix are no struct, here and below: `is_bound` is handed them one by one, `find` has the one in
// `Bindings` and the other beside it, and the definitions take them so.

// The URI in a record that binds this prefix for this target. Behind mark and length stand target, prefix and URI.
fn bound_in(frame: &[u8], target: u8, prefix: &[u8]) -> Option<Place>
    ensures { BoundIn frame.now target prefix.now result }
{
    if frame.len() < 5 || !frame.starts_with(b"NS") || frame[4] != target {
        return None;
    }
    let name = record_places::text_place(frame, 5)?;
    if !texts::same(prefix, texts::clipped(frame, name.start, name.size)) {
        return None;
    }
    record_places::text_place(frame, name.start + name.size)
}

// The URI in the first record that binds this prefix for this target. Any other record is passed over by its length.
// The place is added up in the loop: a scan of the records would carry the same sum, no more plainly.
fn look_up(s: &[u8], target: u8, prefix: &[u8]) -> Option<Place>
    ensures { LookedUp s.now target prefix.now result }
{
    let mut before = 0;
    for record in Records(s) {
        if let Some(uri) = bound_in(record, target, prefix) {
            return Some(Place {
                start: before + uri.start,
                size: uri.size,
            });
        }
        before += record.len();
    }
    None
}

// Whether a record binds this prefix for this target.
pub fn is_bound(s: &[u8], target: u8, prefix: &[u8]) -> bool
    ensures { result ≡ any (λ b. same prefix.now b.prefix) (bound_for target s.now) }
{
    look_up(s, target, prefix).is_some()
}

// ---- the URI of a prefix

impl<'a> Bindings<'a> {
    // Those of the selector of a constraint with these own bindings.
    pub fn of_selector(own: &'a [u8], schema: &'a [u8]) -> Bindings<'a>
        ensures { bound_by result ≡ uri_in own.now schema.now 1 }
    {
        Bindings {
            own,
            schema,
            target: 1,
        }
    }

    // Those of one of its fields, which are four at most: a number past them is taken for the last one. So the target
    // is 5 at most, and `as` loses nothing; try_from would add an error that never is.
    pub fn of_field(own: &'a [u8], schema: &'a [u8], field: usize) -> Bindings<'a>
        ensures { bound_by result ≡ uri_in own.now schema.now (min field 3 + 2) }
    {
        let target = (field.min(3) + 2) as u8;
        Bindings {
            own,
            schema,
            target,
        }
    }

    // Where the URI of a prefix stands, if it is bound: `xml` before all, then the first own binding with this target,
    // then schema-wide.
    pub fn find(&self, prefix: &[u8]) -> Option<Uri>
        ensures { FoundIn self.now.own.now self.now.schema.now self.now.target prefix.now result }
    {
        if texts::same(prefix, &Namespace::PREFIX) {
            return Some(Uri::Xml);
        }
        match look_up(self.own, self.target, prefix) {
            Some(mine) => Some(Uri::Own(mine)),
            None => Some(Uri::Schema(look_up(self.schema, 0, prefix)?)),
        }
    }

    // The stretch of own or schema bindings that holds the URI.
    pub fn resolve(&self, found: Option<Uri>) -> &'a [u8]
        ensures { result.now ≡ stretch self.now.own.now self.now.schema.now found }
    {
        match found {
            None | Some(Uri::Xml) => &[],
            Some(Uri::Own(part)) => texts::clipped(self.own, part.start, part.size),
            Some(Uri::Schema(part)) => texts::clipped(self.schema, part.start, part.size),
        }
    }

    // Whether an element's namespace is the one found; any is where none was; an empty URI matches no element.
    pub fn space_fits(&self, found: Option<Uri>, space: &[u8]) -> bool
        ensures { result ≡ space_fits (stands_at self.now.own.now self.now.schema.now found) space.now }
    {
        let Some(uri) = found else {
            return true;
        };
        match uri {
            Uri::Xml => texts::same(&Namespace::XML, space),
            Uri::Own(_) | Uri::Schema(_) => uri_fits(self.resolve(found), space),
        }
    }

    // Whether an element's namespace is the one that the prefix is bound to; any is where it is not bound.
    pub fn fits(&self, prefix: &[u8], space: &[u8]) -> bool
        ensures { result ≡ space_fits (bound_by self.now prefix.now) space.now }
    {
        self.space_fits(self.find(prefix), space)
    }
}

// ---- a URI against an element's namespace

// An empty URI is no element's, not even that of one with no namespace.
fn uri_fits(uri: &[u8], space: &[u8]) -> bool
    ensures { result ≡ uri_fits uri.now space.now }
{
    !uri.is_empty() && texts::same(uri, space)
}

// ---- the end of the code
