// What a call does on an EE: the refusals because of the session; then the TUs and reports of the selections that
// finish, the element's hits on those that stay open, and the scopes of the element closed.
#![tactic(auto)]

ghost use Rattle.std.specs.Prelude.{◌≡◌, ◌-◌, ◌<◌, length, take};
ghost use Rattle.lists.specs.Lists.{put};
ghost use Rattle.open_scopes.specs.OpenScopes.{open_of};
ghost use Rattle.open_scopes.specs.Counting.{packed};
ghost use Rattle.tuple_marks.specs.Marks.{AllMarked};
ghost use Rattle.settlements.specs.Ending.{Ended, TuplesIn, SettledAll, FinishesBy};
ghost use Rattle.worlds.specs.Replies.{refusal};
ghost use Rattle.event_answers.specs.Ending.{TakesEe, InPlace, left_open, ended_counts, ended_numbers};
ghost use Rattle.ending.specs.Writing.{WritesEnd};

use cells::Hit;
use open_scopes::{Counts, Numbers, Scope, Scopes};
use record_places::Ee;
use settlements::{Ending, Settling, Tuples, Written};
use worlds::{Done, SessionRefusal};

// The lent stores and areas are parameters of their own, as in `session`.
// Numbers are narrowed by `as` where they are known to fit: `try_from` would add an error that never is.

// An EE in its place: the numbers before it, the counts that are packed in them, and how deep its element is.
#[derive(Clone, Copy)]
struct Leaving {
    n: Numbers,
    c: Counts,
    depth: u32,
    ghost early: { n.events < 1000000 },
}

// A refusal for want of room. The parsed-path area gets its first bytes back.
fn refuse_full(
    n: Numbers,
    list: [Scope; 16],
    c: SessionRefusal,
    paths: &mut [u8],
    saved: [u8; 1024],
) -> Done
    ensures { (result ≡ refusal n list c) × (paths.new ≡ put paths.old 0 saved) }
{
    path_area::restore(paths, saved);
    worlds::refusing(n, list, c)
}

// ---- stores

// How many bytes are left behind the used ones.
fn left_of(size: usize, used: u64) -> usize
    ensures { result ≡ size - used }
{
    size.saturating_sub(used as usize)
}

// ---- the counts after an EE

// How many open scopes stay open: those before the first whose element is at this depth.
fn left_open(scopes: Scopes, depth: u32) -> usize
    ensures { result ≡ left_open depth (open_of scopes) }
{
    let first = scopes.open().iter().position(|one| one.depth == depth);
    first.unwrap_or(scopes.count())
}

// One element fewer is open, at most 16 scopes and 32 selections stay open, and as many scopes were opened as before.
fn ended(c: Counts, depth: u32, scopes: Scopes, first: usize) -> u64
    ensures { result ≡ packed (ended_counts c depth (open_of scopes) first) }
{
    let left = left_open(scopes, depth);
    open_scopes::pack(Counts {
        stage: depth,
        scopes: (left % 32) as u32,
        selections: (first % 64) as u32,
        ..c
    })
}

// The numbers after that, where so much of the stores is used.
fn numbers_then(at: Leaving, scopes: Scopes, first: usize, w: Written) -> Numbers
    ensures { result ≡ ended_numbers at.n at.c at.depth (open_of scopes) first w.tuples w.reports }
{
    let events = at.n.events + 1;
    let running = ended(at.c, at.depth, scopes, first);
    Numbers {
        events,
        running,
        tuples: w.tuples as u64,
        reports: w.reports as u64,
        ..at.n
    }
}

// ---- an element that is open

// What the selections that finish come to, by the used bytes of the tuple store.
fn settle_used(g: &Ending<'_>, tuples: &[u8], used: u64, marks: &[u32]) -> Settling
    ensures { (k : Ended) → FinishesBy k g.now → TuplesIn k (take used tuples.now) marks.now → SettledAll k g.now.first result }
{
    let part = output_stores::used_of(tuples, used);
    settling::settle_all(g, Tuples { used: part, marks })
}

// Writes what the selections from `first` on come to, then the hits of those before it. Answers the numbers after that.
// What an ending is judged by comes in parts: as an `Ending` it would borrow `cells`, which is written here (no heap).
fn write_end(
    at: Leaving,
    scopes: Scopes,
    s: &Settling,
    first: usize,
    counts: &[u8],
    simple: u8,
    key: &[u8],
    defs: &[u8],
    tuples: &mut [u8],
    reports: &mut [u8],
    cells: &mut [u8],
) -> Numbers
    ensures { WritesEnd at.n at.c at.depth scopes s.now first counts.now simple key.now defs.now tuples.old reports.old cells.old result tuples.new reports.new cells.new }
{
    let events = at.n.events + 1;
    let event = events as u32;
    let selections = at.c.selections as usize;
    let tused = at.n.tuples as usize;
    let rused = at.n.reports as usize;
    let g = Ending {
        cells,
        first,
        n: selections,
        counts,
        simple,
        key,
        scopes,
        defs,
    };
    let w = settling::write_all(s, &g, event, tuples, tused, reports, rused);
    end_writes::hit_staying(cells, first, counts, &Hit { simple, key });
    numbers_then(at, scopes, first, w)
}

// The end of an element at this depth. All TUs and reports are counted before the first is written. The paths are read
// into their area on the way, so a refusal puts it back. Over 40 lines by what it lists: the lent stores and areas, and
// the parts of an `Ending`.
fn end_element(
    at: Leaving,
    list: [Scope; 16],
    ee: Ee,
    rec: &[u8],
    defs: &[u8],
    tuples: &mut [u8],
    reports: &mut [u8],
    paths: &mut [u8],
    names: &[u8],
    cells: &mut [u8],
    marks: &[u32],
) -> Done
    ensures { InPlace at.n at.c at.depth → AllMarked marks.now (take at.n.tuples tuples.old) → TakesEe at.n list ee rec.now defs.now tuples.old reports.old paths.old names.now cells.old result tuples.new reports.new paths.new cells.new }
{
    let saved = path_area::save(paths);
    let selections = at.c.selections as usize;
    let open = at.c.scopes as usize;
    let scopes = Scopes { list, n: open };
    let used = output_stores::used_of(defs, at.n.definitions);
    let key = record_walk::text_in(rec, ee.key);
    let hits = element_hits::element_hits(cells, selections, scopes, names, at.depth, used, paths);
    let first = end_writes::first_ending(cells, selections, at.depth);
    let g = Ending {
        cells,
        first,
        n: selections,
        counts: &hits,
        simple: ee.simple,
        key,
        scopes,
        defs: used,
    };
    let s = settle_used(&g, tuples, at.n.tuples, marks);
    if left_of(tuples.len(), at.n.tuples) < s.bytes {
        return refuse_full(at.n, list, SessionRefusal::TuplesFull, paths, saved);
    }
    if left_of(reports.len(), at.n.reports) / 18 < s.reports {
        return refuse_full(at.n, list, SessionRefusal::ReportsFull, paths, saved);
    }
    let numbers = write_end(
        at, scopes, &s, first, &hits, ee.simple, key, used, tuples, reports, cells,
    );
    Done {
        reply: Ok(()),
        numbers,
        list,
    }
}

// ---- EE

// An EE. How many of the listed scopes are open is what changes, and the list stays. There are marks of the tuples in
// the store: a tuple that is not marked is not looked for there.
pub fn take_ee(
    n: Numbers,
    list: [Scope; 16],
    ee: Ee,
    rec: &[u8],
    defs: &[u8],
    tuples: &mut [u8],
    reports: &mut [u8],
    paths: &mut [u8],
    names: &[u8],
    cells: &mut [u8],
    marks: &[u32],
) -> Done
    ensures { AllMarked marks.now (take n.tuples tuples.old) → TakesEe n list ee rec.now defs.now tuples.old reports.old paths.old names.now cells.old result tuples.new reports.new paths.new cells.new }
{
    let c = open_scopes::unpack(n.running);
    let depth = open_scopes::depth_of(c.stage);
    match event_answers::in_place(c.stage, n.events, depth == 0, SessionRefusal::Unbalanced) {
        Err(why) => worlds::refusing(n, list, why),
        Ok(()) => {
            let at = Leaving { n, c, depth };
            end_element(
                at, list, ee, rec, defs, tuples, reports, paths, names, cells, marks,
            )
        }
    }
}
