// The open selections in the field-cells area: whether they read. Each is 512 bytes, four cells of 128, and is tested
// where it stands.
#![tactic(auto)]

ghost use Rattle.std.specs.Prelude.{◌≡◌};
ghost use Rattle.session_spec.specs.Layout.{parts};
ghost use Rattle.open_scopes.specs.OpenScopes.{records_of};
ghost use Rattle.selections.specs.Selections.{homes, written, fits_within, is_after, selections_fit};
ghost use Rattle.selections.specs.Exact.{zeros, highest, exact};

use open_scopes::Scopes;

// ---- the order

// Where a selection stands among the others, which go by depth and, on one depth, by the number of their scope. The
// derived order is that one: it takes the fields as they stand here.
#[derive(Clone, Copy, PartialEq, PartialOrd)]
struct Rank {
    depth: u32,
    number: u32,
}

// ---- one cell

// Whether every byte is 0. There is no way out at the first that is not: without one the bytes can be taken many at a
// time. Measured by the same two loops in Rust, built with -O: 128 keys of 126 zeros took 3 to 8 microseconds, and with
// `all` 32 to 44. The bar for another form: no input with many empty cells may get slower than by this one.
fn all_zero(s: &[u8]) -> bool
    ensures { result ≡ zeros s.now }
{
    s.iter().fold(0, |seen, &b| seen | b) == 0
}

// The highest state that a cell may have; that of a field which the constraint lacks is Unset.
// States are numbers here, since any byte may stand in the memory that is lent.
fn highest_state(has: bool) -> u8
    ensures { result ≡ highest has }
{
    if has { 4 } else { 0 }
}

// Whether 128 bytes are exactly those that are written for a cell. Only a cell that is Set or Nillable has a key, and
// behind it are zeros.
fn cell_is_exact(cell: &[u8], has: bool) -> bool
    ensures { result ≡ exact has cell.now }
{
    if cell.len() != 128 {
        return false;
    }
    let state = cell[0] % 8;
    if highest_state(has) < state {
        return false;
    }
    if !cells::has_key(state) {
        return all_zero(&cell[1..]);
    }
    let behind = 2 + usize::from(cell[1]);
    cell.get(behind..).is_some_and(all_zero)
}

// ---- one selection

// Whether the bytes of a selection are exactly those that are written for its cells. The last cell has no number beside
// its state.
fn is_written(chunk: &[u8], fields: u8) -> bool
    ensures { result ≡ written fields chunk.now }
{
    chunk.len() == 512
        && chunk[384] <= 7
        && (0..4).all(|f| cell_is_exact(
            texts::clipped(chunk, 128 * f, 128),
            f < usize::from(fields),
        ))
}

// Whether a selection fits a scope of this depth with so many fields, while so many elements are open.
#[tactic(auto, unfolding(crate::specs::Selections::fits_within))]
fn selection_fits(chunk: &[u8], least: u32, fields: u8, depth: u32) -> bool
    ensures { result ≡ fits_within least fields depth chunk.now }
{
    let deep = cells::depth_at(chunk, 0);
    least <= deep && deep <= depth && is_written(chunk, fields)
}

// ---- all of them

// Whether a selection comes behind the last one: deeper or, on the same depth, of a later scope.
#[tactic(auto, unfolding(crate::specs::Selections::is_after))]
fn comes_after(last: Rank, own: Rank) -> bool
    ensures { result ≡ is_after last.depth last.number own.depth own.number }
{
    last < own
}

// Whether the first n selections of the area read: each of an open scope, on an open element, its bytes exactly as they
// are written, and in order.
// `fields` has for each open scope how many fields its constraint has: apart from the scopes, since any bytes may be
// handed in, of which a missing one counts as 0.
// The number n stays beside the cells: lent memory has places for 32 selections, however many are open.
pub fn selections_read(cells: &[u8], n: usize, scopes: Scopes, fields: &[u8], depth: u32) -> bool
    ensures { result ≡ selections_fit (homes (records_of scopes) fields.now) depth (parts 512 n cells.now) }
{
    if cells.len() / 512 < n {
        return false;
    }
    let open = scopes.open();
    // Before the first there is none. This one stands for it: any that is deeper comes behind it.
    let mut last = Rank {
        depth: 0,
        number: 0,
    };
    for chunk in cells.chunks_exact(512).take(n) {
        let place = cells::scope_at(chunk, 0) as usize;
        let Some(home) = open.get(place) else {
            return false;
        };
        let many = numbers::byte_at(fields, place);
        if !selection_fits(chunk, home.depth, many, depth) {
            return false;
        }
        let own = Rank {
            depth: cells::depth_at(chunk, 0),
            number: home.number,
        };
        if !comes_after(last, own) {
            return false;
        }
        last = own;
    }
    true
}

// ---- the end of the code
