// The hits of an element's attributes on the open selections: scope by scope, field by field, so that a path is read
// once for all selections of its scope. The walk from scopes to fields to a path stands in element_hits as well: there
// it fills numbers, here it writes cells. One walk that is handed what to do with a path would be handed a closure that
// writes what it captures, of which the prover then knows nothing.
#![tactic(auto)]

ghost use Rattle.bindings.specs.Bindings.{bound_by};
ghost use Rattle.attribute_hits.specs.AttributeHits.{TakesAttributes};
ghost use Rattle.attribute_hits.specs.Steps.{Whole, one_hits, area_hits, TakesHits, TakesField, TakesScope};

use bindings::Bindings;
use cells::Hit;
use constraints::Constraint;
use open_scopes::Scopes;
use reaching::Selections;
use record_walk::Attributes;

// The element whose attributes are taken: the names of the open elements down to it, its depth, the definitions, and
// where its attributes stand in the record.
#[derive(Clone, Copy)]
struct Element<'a> {
    names: &'a [u8],
    depth: u32,
    defs: &'a [u8],
    rec: &'a [u8],
    first: usize,
    count: usize,
}

// All open selections take the hits of the attributes of the element at depth `depth`: `count` attributes from the
// place `first` of the record on.
pub fn attribute_hits(
    cells: &mut [u8],
    n: usize,
    scopes: Scopes,
    names: &[u8],
    depth: u32,
    defs: &[u8],
    area: &mut [u8],
    rec: &[u8],
    first: usize,
    count: usize,
)
    ensures { TakesAttributes cells.old n scopes names.now depth defs.now area.old rec.now first count cells.new area.new }
{
    // Most elements have no attribute, and most are below no selected one: then no path is read.
    if count == 0 {
        return;
    }
    if n == 0 {
        return;
    }
    let element = Element {
        names,
        depth,
        defs,
        rec,
        first,
        count,
    };
    for (k, &one) in scopes.open().iter().enumerate() {
        // Below 16: no conversion loses anything, and `try_from` would add an error that never is.
        let place = k as u32;
        scope_takes(cells, n, place, one.constraint, &element, area);
    }
}

// The selections of the scope at this place take them, field after field. A selection has four cells at most.
// The cells are written, so n and place stand beside them: a struct with a part that is lent to be written was tried,
// and the proof knows nothing of what that part points at at entry.
fn scope_takes(
    cells: &mut [u8],
    n: usize,
    place: u32,
    constraint: u32,
    element: &Element<'_>,
    area: &mut [u8],
)
    ensures { TakesScope cells.old n place constraint element.now.names.now element.now.depth element.now.defs.now area.old element.now.rec.now element.now.first element.now.count cells.new area.new }
{
    let one = Constraint::numbered(element.defs, constraint);
    for (f, path) in one.fields().take(4).enumerate() {
        field_takes(cells, n, place, f, one.own, path, element, area);
    }
}

// In one field, whose path is read into the area. One that does not read reaches nothing.
fn field_takes(
    cells: &mut [u8],
    n: usize,
    place: u32,
    field: usize,
    own: &[u8],
    path: &[u8],
    element: &Element<'_>,
    area: &mut [u8],
)
    ensures { TakesField cells.old n place field own.now path.now element.now.names.now element.now.depth element.now.defs.now area.old element.now.rec.now element.now.first element.now.count cells.new area.new }
{
    if !path_area::read_path(path, true, area) {
        return;
    }
    let b = Bindings::of_field(own, element.defs, field);
    read_hits(cells, n, place, field, &b, element, area);
}

// By the path in the area, attribute after attribute.
fn read_hits(
    cells: &mut [u8],
    n: usize,
    place: u32,
    field: usize,
    b: &Bindings<'_>,
    element: &Element<'_>,
    area: &[u8],
)
    ensures { TakesHits (Whole element.now.rec.now element.now.first element.now.count) n place field (area_hits (bound_by b.now) area.now element.now.names.now element.now.depth element.now.rec.now element.now.first element.now.count) cells.old cells.new }
{
    let attributes = Attributes {
        rec: element.rec,
        at: element.first,
        left: element.count,
    };
    for attribute in attributes {
        one_hit(cells, n, place, field, b, element, area, attribute);
    }
}

// Those of one attribute with this name and key: a number for each selection first.
fn one_hit(
    cells: &mut [u8],
    n: usize,
    place: u32,
    field: usize,
    b: &Bindings<'_>,
    element: &Element<'_>,
    area: &[u8],
    attribute: (&[u8], &[u8]),
)
    ensures { TakesHits (Unit {0}) n place field (one_hits (bound_by b.now) area.now element.now.names.now element.now.depth attribute.entry.0.now attribute.entry.1.now) cells.old cells.new }
{
    if 4 <= field {
        return;
    }
    // Fixed memory: as many numbers as there may be selections.
    let mut counts = [0u8; 32];
    let (name, key) = attribute;
    let of = Selections { cells, n, place };
    reaching::reach_nodes(
        &of,
        area,
        element.names,
        element.depth,
        b,
        Some(name),
        &mut counts,
    );
    // As of an element with simple byte 1: no attribute is nillable.
    cells::hit_selections(cells, n, field, &counts, &Hit { simple: 1, key });
}

// ---- the end of the code
