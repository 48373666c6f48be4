// What a call does on an ES: the refusals because of the session, and where none holds the name of the new element, its
// scopes, its selections with the hits of its attributes, and the reports of kind 6.
#![tactic(auto)]

ghost use Rattle.std.specs.Prelude.{◌≡◌, ◌+◌, ◌*◌, ◌%◌, leb, ltb};
ghost use Rattle.lists.specs.Lists.{any, part};
ghost use Rattle.records.specs.Refusals.{first_of};
ghost use Rattle.session_spec.specs.Layout.{pad};
ghost use Rattle.open_scopes.specs.Counting.{packed};
ghost use Rattle.worlds.specs.Replies.{reason_of};
ghost use Rattle.event_answers.specs.StartRows.{place_rows};
ghost use Rattle.event_answers.specs.StartSteps.{counts_then, Considers, WritesStart, StartsElement};
ghost use Rattle.event_answers.specs.Starting.{TakesEs};

use event_answers::{Plan, Spot};
use open_scopes::{Counts, Numbers, Scope, Scopes};
use record_places::Es;
use worlds::{Done, SessionRefusal};

// The lent stores and areas are parameters of their own, as in `session`.
// `es` and `rec` stand side by side, as `take_es` is handed them: a struct of both would hold no fact, as `Leaving` of
// `ending` does, and be taken apart in each contract, and again for the attributes, which `attribute_hits` takes so.
// Numbers are narrowed by `as` where they are known to fit: `try_from` would add an error that never is.

// ---- what stands against an ES before any path is read

// Whether a listed number is not that of a constraint, where there are so many.
fn lists_undefined(numbers: &[u8], count: u32) -> bool
    ensures { result ≡ any (λ i. leb count i) numbers.now }
{
    numbers.iter().any(|&number| count <= u32::from(number))
}

// 11, 19, 12 and 14.
fn place(stage: u32, events: u64, absent: bool) -> Result<(), SessionRefusal>
    ensures { reason_of result ≡ first_of (place_rows stage events absent) }
{
    event_answers::in_place(stage, events, absent, SessionRefusal::Undefined)?;
    if 64 <= open_scopes::depth_of(stage) {
        return Err(SessionRefusal::TooDeep);
    }
    Ok(())
}

// ---- what stands against it then

// Whether what is there and what comes are together more than there may be: a sum could wrap.
fn past(most: u64, there: u64, more: u64) -> bool
    ensures { result ≡ ltb most (there + more) }
{
    most.checked_sub(there).is_none_or(|left| left < more)
}

// This and the next are one call each, of numbers of two types: they name the limits, and one for both would not.

// More than 16 scopes.
fn scopes_past(there: usize, more: u32) -> bool
    ensures { result ≡ ltb 16 (there + more) }
{
    past(16, there as u64, u64::from(more))
}

// More than 32 selections.
fn selections_past(there: u32, more: u32) -> bool
    ensures { result ≡ ltb 32 (there + more) }
{
    past(32, u64::from(there), u64::from(more))
}

// 20, 21 and 16: too many scopes, selections and reports. Whether a scope selects the new element is asked of its name
// in the area, so that is written first. Over 40 lines by what it lists: the lent areas, and three tests that each need
// what was found before.
fn consider(
    n: Numbers,
    spot: Spot,
    scopes: Scopes,
    es: Es,
    rec: &[u8],
    defs: &[u8],
    reports: &[u8],
    paths: &mut [u8],
    names: &mut [u8],
) -> Result<Plan, SessionRefusal>
    ensures { Considers n spot scopes es rec.now defs.now reports.now paths.old names.old result paths.new names.new }
{
    let numbers = record_walk::text_in(rec, es.numbers);
    let reading = start_pass::opens(defs, numbers, paths);
    if scopes_past(scopes.n, reading.count_ones()) {
        return Err(SessionRefusal::TooManyScopes);
    }
    let then = start_writes::push_scopes(scopes, numbers, reading, spot.opened, spot.depth);
    open_names::write_name(
        names,
        spot.above,
        record_walk::text_in(rec, es.space),
        record_walk::text_in(rec, es.name),
    );
    let selecting = start_pass::picks(defs, then, names, spot.depth, paths);
    if selections_past(spot.selections, selecting.count_ones()) {
        return Err(SessionRefusal::TooManySelections);
    }
    let used = n.reports as usize;
    let failing = start_pass::tells(defs, numbers, reading, texts::clipped(reports, 0, used));
    let more = 18 * u64::from(failing.count_ones());
    if past(reports.len() as u64, n.reports, more) {
        return Err(SessionRefusal::ReportsFull);
    }
    Ok(Plan {
        scopes: then,
        opened: reading.count_ones(),
        picked: selecting,
        told: failing,
    })
}

// ---- what is written

// The counts with the element, packed.
fn running_then(spot: Spot, scopes: usize, selections: usize, more: u32) -> u64
    ensures { result ≡ packed (counts_then spot scopes selections more) }
{
    let before = u64::from(spot.opened);
    let opened = before + u64::from(more);
    let standing = (scopes % 4294967296) as u32;
    let held = (selections % 4294967296) as u32;
    open_scopes::pack(Counts {
        stage: spot.stage,
        scopes: standing,
        selections: held,
        opened,
    })
}

// Nothing stands against the element, and its name is written: the reports, its selections, and the hits of its
// attributes on all of them. Over 40 lines by what it lists: the lent areas, and what each of three calls is handed.
fn write_start(
    n: Numbers,
    spot: Spot,
    plan: Plan,
    es: Es,
    rec: &[u8],
    defs: &[u8],
    names: &[u8],
    reports: &mut [u8],
    paths: &mut [u8],
    cells: &mut [u8],
) -> Done
    ensures { WritesStart n spot plan es rec.now defs.now names.now reports.old paths.old cells.old result reports.new paths.new cells.new }
{
    let listed = es.numbers;
    let used = n.reports as usize;
    let next = start_writes::write_sixes(
        reports,
        used,
        record_walk::text_in(rec, listed),
        plan.told,
        spot.event,
    );
    let scopes = plan.scopes;
    let total = scopes.count();
    let held = spot.selections as usize;
    let many = start_writes::open_selections(cells, held, plan.picked, total, spot.depth);
    attribute_hits::attribute_hits(
        cells, many, scopes, names, spot.depth, defs, paths, rec, es.first, es.count,
    );
    let running = running_then(spot, total, many, plan.opened);
    let list = scopes.list;
    let events = u64::from(spot.event);
    let end = next as u64;
    Done {
        reply: Ok(()),
        numbers: Numbers {
            events,
            running,
            reports: end,
            ..n
        },
        list,
    }
}

// ---- an ES

// The place behind the open names, as far as it is there, and zeros.
fn name_behind(names: &[u8], above: u32) -> [u8; 514]
    ensures { result ≡ pad 514 (part names.now (514 * above) 514) }
{
    let at = 514 * (above as usize);
    // Fixed memory: the place of one name in the lent area, and no more is written.
    path_area::padded::<514>(texts::clipped(names, at, 514))
}

// An element whose place and numbers are good. Where it is refused, the bytes that were tried out are put back.
fn start_element(
    n: Numbers,
    spot: Spot,
    scopes: Scopes,
    es: Es,
    rec: &[u8],
    defs: &[u8],
    reports: &mut [u8],
    paths: &mut [u8],
    names: &mut [u8],
    cells: &mut [u8],
) -> Done
    ensures { StartsElement n spot scopes es rec.now defs.now reports.old paths.old names.old cells.old result reports.new paths.new names.new cells.new }
{
    let saved = path_area::save(paths);
    let kept = name_behind(names, spot.above);
    match consider(n, spot, scopes, es, rec, defs, reports, paths, names) {
        Err(c) => {
            let at = 514 * (spot.above as usize);
            path_area::restore(paths, saved);
            numbers::put_bytes(names, at, &kept);
            worlds::refusing(n, scopes.list, c)
        }
        Ok(plan) => write_start(n, spot, plan, es, rec, defs, names, reports, paths, cells),
    }
}

// An ES, by its places in the record. Over 40 lines by what it lists: the lent areas, and the six numbers of a `Spot`.
pub fn take_es(
    n: Numbers,
    list: [Scope; 16],
    es: Es,
    rec: &[u8],
    defs: &[u8],
    reports: &mut [u8],
    paths: &mut [u8],
    names: &mut [u8],
    cells: &mut [u8],
) -> Done
    ensures { TakesEs n list es rec.now defs.now reports.old paths.old names.old cells.old result reports.new paths.new names.new cells.new }
{
    let c = open_scopes::unpack(n.running);
    let listed = es.numbers;
    let used = output_stores::used_of(defs, n.definitions);
    let absent = lists_undefined(
        record_walk::text_in(rec, listed),
        constraints::constraint_count(used),
    );
    match place(c.stage, n.events, absent) {
        Err(why) => worlds::refusing(n, list, why),
        Ok(()) => {
            let above = open_scopes::depth_of(c.stage);
            let depth = above + 1;
            let stage = above + 2;
            let events = n.events + 1;
            let event = events as u32;
            let opened = (c.opened % 4294967296) as u32;
            let held = c.scopes as usize;
            let spot = Spot {
                event,
                above,
                depth,
                stage,
                selections: c.selections,
                opened,
            };
            let scopes = Scopes { list, n: held };
            start_element(n, spot, scopes, es, rec, used, reports, paths, names, cells)
        }
    }
}
