// At the end of an element: which selections finish, and the hits of those that stay open. Lent memory has places for
// 32 selections, so that how many there are is a number beside it.
#![tactic(auto)]

ghost use Rattle.std.specs.Prelude.{◌≡◌};
ghost use Rattle.end_writes.specs.Staying.{first_deep, HitsStaying};

use cells::Hit;

// The place of the first of n selections, of which there are 32 at most, whose element is at this depth; where there is
// none, as many as there are. No Option, which would be no plainer: callers go by how many come before it.
pub fn first_ending(cells: &[u8], n: usize, depth: u32) -> usize
    ensures { result ≡ first_deep cells.now n depth }
{
    let last = n.min(32);
    let first = (0..last).position(|j| cells::depth_at(cells, 512 * j) == depth);
    first.unwrap_or(last)
}

// The first selections take the hits of the ending element: number 32 f + j of the counts says how often it hits field
// f of selection j. Bytes of any length may be handed in: rows of a fixed size would ask more of callers.
// A loop over `counts.chunks(32)` would be no plainer: it leaves out rows that are not there, while the definition has
// one for each of the four fields, an empty one if need be.
pub fn hit_staying(cells: &mut [u8], first: usize, counts: &[u8], h: &Hit<'_>)
    ensures { HitsStaying cells.old first counts.now h.now.simple h.now.key.now cells.new }
{
    for field in 0..4 {
        let row = texts::clipped(counts, 32 * field, 32);
        cells::hit_selections(cells, first, field, row, h);
    }
}

// ---- the end of the code
