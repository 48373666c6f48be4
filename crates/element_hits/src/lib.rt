// How often the element that ends hits each field of each open selection. A path is read once for a scope and field,
// however many selections the scope has. The walk from scopes to fields to a path stands in attribute_hits as well:
// there it writes cells, here it fills numbers. One walk that is handed what to do with a path would be handed a
// closure that writes what it captures, of which the prover then knows nothing.
#![tactic(auto)]

ghost use Rattle.std.specs.Prelude.{◌≡◌, ◌+◌, ◌<◌};
ghost use Rattle.element_hits.specs.ElementHits.{HitsOf};
ghost use Rattle.element_hits.specs.Rows.{AnyOf, FieldOf, RowsOf, ScopeOf};

use bindings::Bindings;
use constraints::Constraint;
use open_scopes::Scopes;
use reaching::Selections;

// The element that ends: the names of the open elements down to it, its depth, and the definitions. That of
// attribute_hits has these beside its record: one within the other would be taken apart in each contract.
#[derive(Clone, Copy)]
struct Element<'a> {
    names: &'a [u8],
    depth: u32,
    defs: &'a [u8],
}

// For each open selection and field, how many hits the element at depth `depth` is: number 32·f + j for field f of
// selection j. The others are 0. Four arrays of 32 are no plainer: the definitions and the calls above take one row.
pub fn element_hits(
    cells: &[u8],
    n: usize,
    scopes: Scopes,
    names: &[u8],
    depth: u32,
    defs: &[u8],
    area: &mut [u8],
) -> [u8; 128]
    ensures { HitsOf cells.now n scopes names.now depth defs.now area.old result area.new }
{
    // Fixed memory: as many numbers as there may be selections and fields of each.
    let mut counts = [0u8; 128];
    let element = Element { names, depth, defs };
    for (k, &one) in scopes.open().iter().enumerate() {
        // Below 16: no conversion loses anything, and `try_from` would add an error that never is.
        let place = k as u32;
        let of = Selections { cells, n, place };
        scope_hits(&of, one.constraint, &element, area, &mut counts);
    }
    counts
}

// The numbers of the selections of one scope, whose constraint has this number. Where it has no selection its paths are
// not read.
fn scope_hits(
    of: &Selections<'_>,
    number: u32,
    element: &Element<'_>,
    area: &mut [u8],
    counts: &mut [u8; 128],
)
    ensures { ScopeOf of.now.cells.now of.now.n of.now.place number element.now.names.now element.now.depth element.now.defs.now area.old counts.old area.new counts.new }
{
    if !any_of(of) {
        return;
    }
    let constraint = Constraint::numbered(element.defs, number);
    field_rows(of, element, &constraint, area, counts);
}

// Whether one of the selections, of which there are 32 at most, is of the scope that is asked for.
fn any_of(of: &Selections<'_>) -> bool
    ensures { AnyOf of.now.place of.now.n of.now.cells.now result }
{
    (0..of.n.min(32)).any(|j| cells::scope_at(of.cells, 512 * j) == of.place)
}

// Field after field of the constraint: a row of 32 numbers each.
// Rows of `chunks_exact_mut(32)` and `as_chunks_mut`, and a rest that `split_at_mut` or `split_first_chunk_mut` cuts in
// the loop, were tried: what the numbers hold once the rows are given back stayed open.
fn field_rows<'a>(
    of: &Selections<'_>,
    element: &Element<'a>,
    constraint: &Constraint<'a>,
    area: &mut [u8],
    counts: &mut [u8; 128],
)
    ensures { RowsOf of.now.cells.now of.now.n of.now.place element.now.names.now element.now.depth constraint.now.own.now constraint.now.parts element.now.defs.now area.old counts.old area.new counts.new }
{
    for f in 0..constraint.parts.count.min(4) {
        let at = 32 * f;
        let end = at + 32;
        field_hits(of, element, constraint, f, area, &mut counts[at..end]);
    }
}

// The row of one field. A field that does not read is not reached.
fn field_hits<'a>(
    of: &Selections<'_>,
    element: &Element<'a>,
    constraint: &Constraint<'a>,
    f: usize,
    area: &mut [u8],
    row: &mut [u8],
)
    requires { f < 4 }
    ensures { FieldOf of.now.cells.now of.now.n of.now.place element.now.names.now element.now.depth constraint.now.own.now constraint.now.parts f (f + 2) element.now.defs.now area.old row.old area.new row.new }
{
    if !path_area::read_path(constraint.field(f), true, area) {
        return;
    }
    let b = Bindings::of_field(constraint.own, element.defs, f);
    reaching::reach_nodes(of, area, element.names, element.depth, &b, None, row);
}

// ---- the end of the code
