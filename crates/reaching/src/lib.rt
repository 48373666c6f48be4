// How often an element, or an attribute of it, hits one field of the open selections: a number for each selection of
// one scope.
#![tactic(auto)]

ghost use Rattle.std.specs.Prelude.{◌≡◌, ◌<◌};
ghost use Rattle.bindings.specs.Bindings.{bound_by};
ghost use Rattle.matching.specs.Matched.{names_along, reached_by};
ghost use Rattle.matching.specs.Walks.{node_in};
ghost use Rattle.reaching.specs.Rows.{base_of, reach_from, RowOf};

use bindings::Bindings;
use matching::Branch;

// The first n open selections, of which those of the scope at this place are asked for. The number n stays beside the
// bytes: lent memory has places for 32 selections, however many are open.
#[derive(Clone, Copy)]
pub struct Selections<'a> {
    pub cells: &'a [u8],
    pub n: usize,
    pub place: u32,
}

impl Selections<'_> {
    // The depth of the element of selection j, if it is of the scope that is asked for.
    fn base_of(&self, j: usize) -> Option<u32>
        requires { j < 32 }
        ensures { result ≡ base_of self.now j }
    {
        let at = 512 * j;
        (cells::scope_at(self.cells, at) == self.place).then(|| cells::depth_at(self.cells, at))
    }
}

// Each of the selections, of which there are 32 at most, gets the number of hits for the field in the area that the
// element at depth `depth` is, or an attribute of it with this qualified name: 1 where some alternative reaches it. The
// numbers of others stay. The base of a branch is the depth of each selection: one for all of them would be no plainer.
pub fn reach_nodes(
    of: &Selections<'_>,
    area: &[u8],
    names: &[u8],
    depth: u32,
    b: &Bindings<'_>,
    attribute: Option<&[u8]>,
    counts: &mut [u8],
)
    ensures { RowOf (reach_from (bound_by b.now) area.now names.now depth (node_in attribute.entry)) of.now.place of.now.n of.now.cells.now counts.old counts.new }
{
    let last = of.n.min(counts.len()).min(32);
    for (j, count) in counts[..last].iter_mut().enumerate() {
        if let Some(base) = of.base_of(j) {
            *count = reach_node(area, &Branch { names, base, depth }, b, attribute);
        }
    }
}

// How many hits the element at the end of the branch is, or an attribute of it with this name: at most one.
fn reach_node(area: &[u8], on: &Branch<'_>, b: &Bindings<'_>, attribute: Option<&[u8]>) -> u8
    ensures { result ≡ reached_by (bound_by b.now) area.now (names_along on.now) (node_in attribute.entry) }
{
    u8::from(matching::reaches(area, on, b, attribute))
}

// ---- the end of the code
