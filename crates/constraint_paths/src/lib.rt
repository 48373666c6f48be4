// The paths of a constraint: whether they all read, and whether its selector takes an element. Each is read into the
// parsed-path area when it is asked for.
#![tactic(auto)]

ghost use Rattle.std.specs.Prelude.{◌≡◌};
ghost use Rattle.constraint_paths.specs.Paths.{PathsRead, FieldsRead, Takes};

use bindings::Bindings;
use constraints::Constraint;
use matching::Branch;

// Whether the selector and every field of the constraint with these records read.
pub fn paths_read(own: &[u8], area: &mut [u8]) -> bool
    ensures { PathsRead own.now area.old result area.new }
{
    let constraint = Constraint::of(own);
    path_area::read_path(constraint.selector(), false, area) && fields_read(&constraint, area)
}

// Whether its fields do. No `all`: its closure would write the area, and what it has written would have to be carried
// from call to call, no more plainly than the loop does.
fn fields_read(constraint: &Constraint<'_>, area: &mut [u8]) -> bool
    ensures { FieldsRead constraint.now.own.now constraint.now.parts area.old result area.new }
{
    for path in constraint.fields() {
        if !path_area::read_path(path, true, area) {
            return false;
        }
    }
    true
}

// Whether some alternative of its selector takes the element at the end of the branch. A selector that does not read
// takes none.
pub fn takes<'a>(own: &'a [u8], schema: &'a [u8], on: &Branch<'_>, area: &mut [u8]) -> bool
    ensures { Takes own.now schema.now on.now.names.now on.now.base on.now.depth area.old result area.new }
{
    let constraint = Constraint::of(own);
    if !path_area::read_path(constraint.selector(), false, area) {
        return false;
    }
    let b = Bindings::of_selector(own, schema);
    matching::selects(area, on, &b)
}

// ---- the end of the code
