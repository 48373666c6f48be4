// At the end of an element its selections finish: their bytes after the element's hits, what each comes to against the
// tuples so far, and the TUs and reports that are written for them.
#![tactic(auto)]

ghost use Rattle.std.specs.Prelude.{◌≡◌, ◌+◌, ◌*◌, ◌%◌, get_or, cond, List};
ghost use Rattle.lists.specs.Answers.{given};
ghost use Rattle.lists.specs.Lists.{part};
ghost use Rattle.tree.specs.Judge.{outcome};
ghost use Rattle.machine.specs.Machine.{Selection};
ghost use Rattle.records.specs.Readers.{Bytes};
ghost use Rattle.session_spec.specs.Definitions.{frame, kind_of};
ghost use Rattle.cells.specs.Cells.{hit_of, scope_at};
ghost use Rattle.output_stores.specs.Stores.{standing};
ghost use Rattle.tuple_search.specs.Search.{tail_bytes, keys_in, place_with, first_with};
ghost use Rattle.outcomes.specs.Outcomes.{cells_in};
ghost use Rattle.open_scopes.specs.OpenScopes.{blank_scope, open_of};
ghost use Rattle.settlements.specs.Finished.{fed_bytes, number_of, kind_in, nothing, kept, told, settlement_of, found_or, complete_by, missing_by, nillable_by, settled_by};
ghost use Rattle.settlements.specs.Ending.{Ended, ScopesIn, StandsAt, TuplesIn, Marked, HomeOf, KeptSize, report_or, settled_at, SettledAll, FinishesBy, SettlesBy, WritesTupleBy, WritesReportBy, WritesTuplesBy, WritesReportsBy, WritesAllBy};

use cells::Hit;
use constraints::Constraint;
use open_scopes::Scope;
use outcomes::Outcome;
use output_stores::TU_SCOPE;
use reports::Report;
use settlements::{
    ConstraintKind, Ending, Home, ReportKind, Settled, Settling, Sized, Told, Tuples, Written,
};

// ---- the bytes of a selection

// Lent memory has fixed places: 512 bytes for a selection, 128 for a cell, 32 counts for a field. They are reckoned by
// number here and below.

// The 512 bytes of selection j, as far as they are there.
fn selection_at(cells: &[u8], j: usize) -> &[u8]
    ensures { result.now ≡ part cells.now (512 * j) 512 }
{
    texts::clipped(cells, j.saturating_mul(512), 512)
}

// Number j of the row that begins at a place; 0 past the end.
fn count_in_row(counts: &[u8], row: usize, j: usize) -> usize
    ensures { result ≡ get_or counts.now (row + j) 0 }
{
    usize::from(numbers::byte_at(counts, row.saturating_add(j)))
}

// The bytes of selection j after the element's hits: each of its four cells takes them as often as its row of the
// counts says.
fn fed_selection(g: &Ending<'_>, j: usize) -> [u8; 512]
    ensures { result ≡ fed_bytes (hit_of g.now.simple g.now.key.now) g.now.counts.now j g.now.cells.now }
{
    // Fixed memory: one selection. Padded here: to stand on `path_area` and what is below it would be no plainer.
    let mut bytes = [0u8; 512];
    numbers::put_bytes(&mut bytes, 0, selection_at(g.cells, j));
    let hit = Hit {
        simple: g.simple,
        key: g.key,
    };
    for field in 0..4 {
        let times = count_in_row(g.counts, 32 * field, j);
        cells::hit_cell(&mut bytes, 128 * field, times, &hit);
    }
    bytes
}

// ---- what one selection comes to

// Numbers are narrowed by `as` where they are known to fit: `try_from` would add an error that never is.

// A report of this kind, by its number. No `From`: it is asked here alone, and a trait for it would be no plainer.
fn answer(kind: ReportKind, field: u8, tuple: u32) -> Settled
    ensures { settlement_of result ≡ told (number_of kind) field tuple }
{
    let kind = kind as u8;
    Settled::Reported(Told { kind, field, tuple })
}

// The number of the tuple of this scope that has the keys of these cells. The marks say whether it is worth a search.
// That they mark what stands in the store is a premise of the promise, here and in three functions below, and no fact
// of `Tuples`: the marks are lent, and any may be handed in.
// A TU has fixed places, as C sees it: scope, texts and their count stand from the place of the scope on.
fn find_same(cells: &[u8], home: Home, tuples: Tuples<'_>) -> Option<usize>
    ensures { Marked tuples.entry → given result ≡ place_with (tail_bytes home.number (keys_in home.fields cells.now)) (standing frame tuples.entry.used.now) }
{
    let made = tuple_search::make_tuple(0, home.number, cells, home.fields);
    let bytes = made.bytes;
    let size = made.size - TU_SCOPE;
    tuple_marks::find_marked(
        tuples.used,
        tuples.marks,
        texts::clipped(&bytes, TU_SCOPE, size),
    )
}

// A tuple of unique or key: that of the number, which is from 1 on, is the same, or none is.
// Of one that four bytes do not hold, the largest that they do is told.
fn settle_found(found: Option<usize>) -> Settled
    ensures { (tail : Bytes) (tuples : List Bytes) → given found ≡ place_with tail tuples → settlement_of result ≡ found_or (first_with tail tuples) }
{
    match found {
        None => Settled::Kept,
        Some(number) => {
            let tuple = u32::try_from(number).unwrap_or(u32::MAX);
            answer(ReportKind::Duplicate, 0, tuple)
        }
    }
}

// A tuple of keyref: without refer it is not looked up.
fn settle_keyref(referred: bool) -> Settled
    ensures { settlement_of result ≡ cond referred kept nothing }
{
    if referred {
        Settled::Kept
    } else {
        Settled::Nothing
    }
}

// Every field is set. A keyref's tuple is not looked up.
fn settle_complete(cells: &[u8], home: Home, tuples: Tuples<'_>) -> Settled
    ensures { Marked tuples.entry → settlement_of result ≡ complete_by (kind_in home.kind) home.referred (first_with (tail_bytes home.number (keys_in home.fields cells.now)) (standing frame tuples.entry.used.now)) }
{
    match home.kind {
        ConstraintKind::Unique | ConstraintKind::Key => {
            settle_found(find_same(cells, home, tuples))
        }
        ConstraintKind::Keyref => settle_keyref(home.referred),
    }
}

// A field is missing: only a key reports it.
fn settle_missing(kind: ConstraintKind, field: u8) -> Settled
    ensures { settlement_of result ≡ missing_by (kind_in kind) field }
{
    match kind {
        ConstraintKind::Key => answer(ReportKind::Missing, field, 0),
        ConstraintKind::Unique | ConstraintKind::Keyref => Settled::Nothing,
    }
}

// Every field is set, and this is the lowest on an element declared nillable: a key reports it and keeps no tuple. For
// the others it is a tuple as any other.
fn settle_nillable(cells: &[u8], home: Home, field: u8, tuples: Tuples<'_>) -> Settled
    ensures { Marked tuples.entry → settlement_of result ≡ nillable_by (kind_in home.kind) home.referred field (first_with (tail_bytes home.number (keys_in home.fields cells.now)) (standing frame tuples.entry.used.now)) }
{
    match home.kind {
        ConstraintKind::Key => answer(ReportKind::Nillable, field, 0),
        ConstraintKind::Unique | ConstraintKind::Keyref => settle_complete(cells, home, tuples),
    }
}

// What the finished selection with these cells comes to, of this scope and constraint.
fn settle(cells: &[u8], home: Home, tuples: Tuples<'_>) -> Settled
    ensures { Marked tuples.entry → settlement_of result ≡ settled_by (kind_in home.kind) home.referred home.number tuples.entry.used.now (outcome (cells_in home.fields cells.now)) }
{
    match outcomes::outcome_of(cells, home.fields) {
        Outcome::Several => answer(ReportKind::Several, 0, 0),
        Outcome::NotSimple => answer(ReportKind::NotSimple, 0, 0),
        Outcome::Missing(i) => settle_missing(home.kind, i as u8),
        Outcome::Nillable(i) => settle_nillable(cells, home, i as u8, tuples),
        Outcome::Complete => settle_complete(cells, home, tuples),
    }
}

// ---- a selection with its scope and its constraint

// The open scope of selection j. `counting` asks it of the whole area by two calls as well: a function for both would
// stand above `cells` and `open_scopes`, in a crate that neither uses, and be no plainer.
fn scope_of(g: &Ending<'_>, j: usize) -> Scope
    ensures { result ≡ get_or (open_of g.now.scopes) (scope_at (part g.now.cells.now (512 * j) 512) 0) blank_scope }
{
    let place = cells::scope_at(selection_at(g.cells, j), 0) as usize;
    g.scopes.get(place)
}

// A constraint's number: there are 32 at most, so that a byte is enough.
fn narrow(constraint: u32) -> u8
    ensures { result ≡ constraint % 256 }
{
    (constraint % 256) as u8
}

// The kind that an ID's kind byte names.
// No `From`, as for a report's kind: each byte names a kind, and it is asked in one place.
fn kind_of(byte: u8) -> ConstraintKind
    ensures { kind_in result ≡ kind_of byte }
{
    match byte {
        0 => ConstraintKind::Unique,
        1 => ConstraintKind::Key,
        _ => ConstraintKind::Keyref,
    }
}

// The home of selection j: its constraint, and its scope's number.
fn home_of(g: &Ending<'_>, j: usize) -> Home
    ensures { (k : Ended) (x : Selection) → ScopesIn k g.now.scopes g.now.defs.now → StandsAt k g.now.cells.now j x → HomeOf x result }
{
    let scope = scope_of(g, j);
    let parts = Constraint::numbered(g.defs, scope.constraint).parts;
    Home {
        constraint: narrow(scope.constraint),
        number: scope.number,
        kind: kind_of(parts.kind),
        referred: parts.refer.is_some(),
        fields: parts.count,
    }
}

// How many bytes the TU of these cells has, where it is kept.
fn kept_size(s: Settled, cells: &[u8], fields: usize) -> usize
    ensures { KeptSize (settlement_of s).keeps fields cells.now result }
{
    let Settled::Kept = s else {
        return 0;
    };
    let made = tuple_search::make_tuple(0, 0, cells, fields);
    made.size
}

// What selection j comes to.
fn settle_one(g: &Ending<'_>, j: usize, tuples: Tuples<'_>) -> Sized
    ensures { SettlesBy g.now j tuples.entry.used.now tuples.entry.marks.now result }
{
    let home = home_of(g, j);
    let bytes = fed_selection(g, j);
    let settled = settle(&bytes, home, tuples);
    let size = kept_size(settled, &bytes, home.fields);
    Sized { settled, size }
}

// ---- all that finish

// 1 where there is a report.
fn report_or(s: Settled) -> usize
    ensures { result ≡ report_or (settlement_of s).report }
{
    usize::from(matches!(s, Settled::Reported(_)))
}

// What all selections from `first` to n come to, of which there are 32 at most. Each is judged against the tuples as
// they stand. This loop and the two below go by number: j is a selection's place in the area as well as in what is
// remembered, so a walk over either list would count it all the same and be no plainer.
pub fn settle_all(g: &Ending<'_>, tuples: Tuples<'_>) -> Settling
    ensures { (k : Ended) → FinishesBy k g.now → TuplesIn k tuples.entry.used.now tuples.entry.marks.now → SettledAll k g.now.first result }
{
    let last = g.n.min(32);
    let mut each = [Settled::Nothing; 32];
    let mut bytes: usize = 0;
    let mut reports: usize = 0;
    for j in g.first..last {
        let one = settle_one(g, j, tuples);
        each[j] = one.settled;
        bytes += one.size;
        reports += report_or(one.settled);
    }
    Settling {
        each,
        bytes,
        reports,
    }
}

// ---- writing

// Each used length stands beside its store, as C lends both.

// What is remembered of selection j.
fn settled_at(s: &Settling, j: usize) -> Settled
    ensures { settlement_of result ≡ settled_at s.now j }
{
    s.each.get(j).copied().unwrap_or(Settled::Nothing)
}

// Adds the TU of selection j behind the used bytes, where it is kept.
fn write_tuple(s: Settled, g: &Ending<'_>, j: usize, store: &mut [u8], used: usize) -> usize
    ensures { WritesTupleBy (settlement_of s) g.now j store.old used result store.new }
{
    let Settled::Kept = s else {
        return used;
    };
    let home = home_of(g, j);
    let bytes = fed_selection(g, j);
    let made = tuple_search::make_tuple(home.constraint, home.number, &bytes, home.fields);
    let whole = made.bytes;
    let tuple = texts::clipped(&whole, 0, made.size);
    output_stores::append_bytes(store, used, tuple)
}

// Adds the report on selection j behind the used bytes, where there is one.
fn add_report(
    s: Settled,
    g: &Ending<'_>,
    j: usize,
    event: u32,
    store: &mut [u8],
    used: usize,
) -> usize
    ensures { WritesReportBy (settlement_of s) g.now j event store.old used result store.new }
{
    let Settled::Reported(told) = s else {
        return used;
    };
    let scope = scope_of(g, j);
    let report = Report {
        kind: told.kind,
        constraint: narrow(scope.constraint),
        field: told.field,
        scope: scope.number,
        event,
        tuple: told.tuple,
    };
    reports::append_report(store, used, report)
}

// The TUs of all that finish. Beside `write_reports`: a function for both would be handed the step and what that keeps
// true, and be no plainer.
fn write_tuples(s: &Settling, g: &Ending<'_>, store: &mut [u8], used: usize) -> usize
    ensures { WritesTuplesBy s.now g.now store.old used result store.new }
{
    let last = g.n.min(32);
    let mut next = used;
    for j in g.first..last {
        let one = settled_at(s, j);
        next = write_tuple(one, g, j, store, next);
    }
    next
}

// The reports on all that finish.
fn write_reports(s: &Settling, g: &Ending<'_>, event: u32, store: &mut [u8], used: usize) -> usize
    ensures { WritesReportsBy s.now g.now event store.old used result store.new }
{
    let last = g.n.min(32);
    let mut at = used;
    for j in g.first..last {
        let one = settled_at(s, j);
        at = add_report(one, g, j, event, store, at);
    }
    at
}

// Writes the TUs and the reports that are remembered behind the used bytes of their stores. What was looked up before
// is not looked up again.
pub fn write_all(
    s: &Settling,
    g: &Ending<'_>,
    event: u32,
    tuples: &mut [u8],
    tused: usize,
    reports: &mut [u8],
    rused: usize,
) -> Written
    ensures { WritesAllBy s.now g.now event tuples.old tused reports.old rused result tuples.new reports.new }
{
    let t = write_tuples(s, g, tuples, tused);
    let r = write_reports(s, g, event, reports, rused);
    Written {
        tuples: t,
        reports: r,
    }
}
