// What an ES writes for sets of places, which have a bit for each: new open scopes, reports of kind 6, and blank
// selections. A set is a bare number for the reason beside `output_stores::has`. A place is below 32, so that no
// conversion of one loses anything; try_from would add an error that never is. Each walk tests the bit of a place
// itself: one chain for two of them would still be folded to two kinds of result, and be no shorter.
#![tactic(auto)]

ghost use Rattle.std.specs.Prelude.{true, [], ◌∷◌};
ghost use Rattle.output_stores.specs.Stores.{Appended};
ghost use Rattle.start_writes.specs.Writes.{sixes, PushedBy, Sixes, OneOpened, Opened};

use open_scopes::{Scope, Scopes};
use reports::Report;

// ---- scopes

// Pushes a scope for each marked number onto the open ones: numbered from `opened` + 1 on, on the element at this
// depth.
pub fn push_scopes(scopes: Scopes, numbers: &[u8], mask: u32, opened: u32, depth: u32) -> Scopes
    ensures { PushedBy scopes numbers.now mask opened depth result }
{
    let mut held = scopes;
    let mut last = opened;
    for (j, &number) in numbers.iter().take(32).enumerate() {
        if output_stores::has(mask, j as u8) {
            last = last.saturating_add(1);
            held = held.push(Scope {
                constraint: u32::from(number),
                number: last,
                depth,
            });
        }
    }
    held
}

// ---- reports

// Appends a report of kind 6 for a constraint. It has no field, scope or tuple, for which the bytes of a report have
// zeros. The used length stays beside the store, here and in `write_sixes`: C lends a store and its length apart.
fn six_one(reports: &mut [u8], used: usize, constraint: u8, event: u32) -> usize
    ensures { Appended reports.old used (sixes event (constraint ∷ [])) result reports.new }
{
    let six = Report {
        kind: 6,
        constraint,
        field: 0,
        scope: 0,
        event,
        tuple: 0,
    };
    reports::append_report(reports, used, six)
}

// Appends a report of kind 6 for each marked number, and answers the new used length.
pub fn write_sixes(reports: &mut [u8], used: usize, numbers: &[u8], mask: u32, event: u32) -> usize
    ensures { Sixes reports.old used numbers.now mask event result reports.new }
{
    let mut at = used;
    for (j, &number) in numbers.iter().take(32).enumerate() {
        if output_stores::has(mask, j as u8) {
            at = six_one(reports, at, number, event);
        }
    }
    at
}

// ---- selections

// Opens a blank selection behind the first n, and answers how many there are then. From 64 on it opens none and answers
// n, so that the place is a number that fits. No Option, which would be no plainer: `OneOpened` asks nothing of the
// number there, and the caller, which promises nothing of more than 32 and 32, would count on with n. The number n
// stays beside the bytes: lent memory has places for 32 selections, however many are open.
fn open_one(cells: &mut [u8], n: usize, depth: u32, scope: u32) -> usize
    ensures { OneOpened cells.old n true depth scope result cells.new }
{
    if 64 <= n {
        return n;
    }
    cells::open_selection(cells, 512 * n, depth, scope);
    n + 1
}

// Opens a blank selection for each marked open scope, behind the first n ones, and answers how many there are then.
pub fn open_selections(cells: &mut [u8], n: usize, mask: u32, scopes: usize, depth: u32) -> usize
    ensures { Opened cells.old n mask scopes depth result cells.new }
{
    let mut count = n;
    for j in 0..scopes.min(32) {
        if output_stores::has(mask, j as u8) {
            count = open_one(cells, count, depth, j as u32);
        }
    }
    count
}

// ---- the end of the code
