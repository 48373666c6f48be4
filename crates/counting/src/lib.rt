// The totals of a session: whether they fit, what a record that was taken adds to them, and what is read of a
// constraint.
#![tactic(auto)]

ghost use Rattle.std.specs.Prelude.{◌≡◌, ◌-◌};
ghost use Rattle.open_scopes.specs.OpenScopes.{open_of};
ghost use Rattle.totals.specs.Totals.{totals_fit, constraints_in, total_of, entry_at};
ghost use Rattle.counting.specs.Places.{raised_at, raised_all, finished_places, tuple_places, report_places, places_of};
ghost use Rattle.counting.specs.Readings.{total_in, reading_of};

use open_scopes::{Numbers, Scope, Scopes};
use output_stores::TU_CONSTRAINT;

// What is read of a constraint: vouchers reached, tuples, reports.
#[derive(Clone, Copy, Default)]
pub struct Total {
    pub reached: u32,
    pub tuples: u32,
    pub reports: u32,
}

// Whether no number is over the limit.
pub fn totals_fit(totals: &[u32]) -> bool
    ensures { result ≡ totals_fit totals.now }
{
    totals.iter().all(|&total| total <= 32000000)
}

// ---- what a record adds
// Three numbers for each constraint, one behind the other, and no list of structs: any caller hands in their memory.

// Lent memory has fixed places: a selection has 512 bytes, and the constraint of an RP stands at its place 3.

// Raises the number at a place by one, where it is not at its limit.
// `get_mut` would put one test into the other, and be no plainer.
fn raise(totals: &mut [u32], place: usize)
    ensures { totals.new ≡ raised_at totals.old place }
{
    if place < totals.len() && totals[place] < 32000000 {
        totals[place] += 1;
    }
}

// One reached for each of the selections `from` to `to`: they keep their bytes when they finish, and their scopes keep
// their places in the list.
fn count_finished(totals: &mut [u32], cells: &[u8], scopes: Scopes, from: u32, to: u32)
    ensures { totals.new ≡ raised_all totals.old (finished_places (open_of scopes) cells.now from (to - from)) }
{
    for j in from..to {
        let place = cells::scope_at(cells, 512 * (j as usize)) as usize;
        let scope = scopes.get(place);
        let constraint = scope.constraint as usize;
        raise(totals, 3 * constraint);
    }
}

// One tuple for each TU in the bytes, for the constraint that it bears.
// Beside `count_reports`: a function for both would be handed the walk, the place and the number, and be no shorter.
fn count_tuples(totals: &mut [u32], new: &[u8])
    ensures { totals.new ≡ raised_all totals.old (tuple_places new.now) }
{
    for front in frames::Records(new) {
        let constraint = usize::from(numbers::byte_at(front, TU_CONSTRAINT));
        raise(totals, 3 * constraint + 1);
    }
}

// One report for each RP in the bytes, of whatever kind, for the constraint that it bears.
fn count_reports(totals: &mut [u32], new: &[u8])
    ensures { totals.new ≡ raised_all totals.old (report_places new.now) }
{
    for report in new.chunks_exact(18) {
        let constraint = usize::from(numbers::byte_at(report, 3));
        raise(totals, 3 * constraint + 2);
    }
}

// WHAT A RECORD THAT WAS TAKEN ADDS, read off the numbers before and after it and the bytes as it left them.
pub fn count_taken(
    totals: &mut [u32],
    before: Numbers,
    after: Numbers,
    list: [Scope; 16],
    tuples: &[u8],
    reports: &[u8],
    cells: &[u8],
)
    ensures { totals.new ≡ raised_all totals.old (places_of before after list tuples.now reports.now cells.now) }
{
    let were = open_scopes::unpack(before.running);
    let are = open_scopes::unpack(after.running);
    let n = were.scopes as usize;
    let scopes = Scopes { list, n };
    count_finished(totals, cells, scopes, are.selections, were.selections);
    count_tuples(
        totals,
        output_stores::between(tuples, before.tuples, after.tuples),
    );
    count_reports(
        totals,
        output_stores::between(reports, before.reports, after.reports),
    );
}

// ---- THE READING

// How many constraints the used part of a definition store has: 0 where it does not read, or more is used than there
// is.
// No Option: a number is compared with it, and none is below 0. usize has 64 bits too, so the conversion loses nothing;
// `try_from` would add an error that never is.
fn constraints_in(defs: &[u8], used: u64) -> u32
    ensures { result ≡ constraints_in used defs.now }
{
    let read = defs
        .get(..used as usize)
        .and_then(|d| definition_store::read_definitions(d));
    read.map_or(0, |t| t.constraints)
}

// The entry of a constraint; three zeros where there is none.
// One test of length for all three numbers. No Option: three zeros are what is read where there is no entry.
fn entry_of(totals: &[u32], number: u32) -> Total
    ensures { total_in result ≡ entry_at totals.now number }
{
    let at = 3 * (number as usize);
    if totals.len() <= at + 2 {
        return Total::default();
    }
    Total {
        reached: totals[at],
        tuples: totals[at + 1],
        reports: totals[at + 2],
    }
}

// What is read of a number: three zeros where no constraint has it; nothing, which is refusal 10, where any total is
// over its limit.
pub fn total_of(totals: &[u32], defs: &[u8], used: u64, number: u32) -> Option<Total>
    ensures { reading_of result ≡ total_of totals.now (constraints_in used defs.now) number }
{
    if !totals_fit(totals) {
        return None;
    }
    if constraints_in(defs, used) <= number {
        return Some(Total::default());
    }
    Some(entry_of(totals, number))
}

// ---- the end of the code
