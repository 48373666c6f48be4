// What a call does on an FI: the refusals because of the session, and a report of kind 5 for each tuple of a keyref
// that no tuple of the constraints it refers to answers.
#![tactic(auto)]

ghost use Rattle.std.specs.Prelude.{◌≡◌, ◌≤◌, leb, length, get_or};
ghost use mathlib.Core.List.{flat_map};
ghost use Rattle.lists.specs.Lists.{passing};
ghost use Rattle.session_spec.specs.Definitions.{frame};
ghost use Rattle.session_spec.specs.Layout.{put_rp};
ghost use Rattle.output_stores.specs.Stores.{standing, Appended};
ghost use Rattle.open_scopes.specs.Counting.{packed};
ghost use Rattle.tuple_places.specs.Places.{Noted};
ghost use Rattle.event_answers.specs.Fives.{no_ref, RefOf, RefsOf, answers_to, of_keyref, is_lacking, five_for, fives_in, Written, Judged};
ghost use Rattle.event_answers.specs.Finishing.{TakesFi, finished_counts};

use constraints::Constraint;
use event_answers::Refs;
use open_scopes::{Counts, Numbers, Scope};
use output_stores::{TU_CONSTRAINT, TU_COUNT, TU_SCOPE};
use reports::Report;
use std::array;
use worlds::{Done, SessionRefusal};

// Numbers are narrowed by `as` where they are known to fit: `try_from` would add an error that never is.
// The lent stores are parameters of their own, as in `session`, and a used length stands beside its store, as C lends
// both. Where nothing is added `report_lacking` and `report_all` answer it as it was, and no None: their callers go on
// from it either way.

// The used bytes of the tuple store, which constraints answer which, and a table that says where a search for an answer
// looks first. That its entries are places is truncated (`∥ ∥₁`): each proof of it has lists, and a ghost field holds
// no data.
#[derive(Clone, Copy)]
struct Tuples<'a> {
    refs: Refs,
    used: &'a [u8],
    places: &'a [u32],
    ghost noted: { ∥ Noted places.now used.now ∥₁ },
}

// ---- which constraints answer which

// Past the last number there is no keyref.
fn ref_at(refs: Refs, constraint: u8) -> Option<u32>
    ensures { result ≡ get_or refs.list constraint no_ref }
{
    refs.list.get(usize::from(constraint)).copied().flatten()
}

// That of one constraint. A keyref without refer is answered by nothing.
// The kind stays the byte of the ID, of which any from 2 on is a keyref's: the enum of `settlements` is not below this
// crate, and its other kinds are not asked.
fn ref_of(defs: &[u8], number: u32) -> Option<u32>
    ensures { RefOf defs.now number result }
{
    let constraint = Constraint::numbered(defs, number);
    let p = constraint.parts;
    if p.kind < 2 {
        None
    } else if let Some(refer) = p.refer {
        Some(constraints::answering(defs, record_walk::text_in(constraint.own, refer)))
    } else {
        Some(0)
    }
}

// That of each, made once: a look-up for each tuple would go through the definitions as often.
fn refs_of(defs: &[u8]) -> Refs
    ensures { RefsOf defs.now result }
{
    Refs {
        list: array::from_fn(|k| ref_of(defs, k as u32)),
    }
}

// The constraints that answer some keyref, a bit for each.
fn all_answers(refs: Refs) -> u32
    ensures { result ≡ answers_to 32 refs.list }
{
    let mut set: u32 = 0;
    for one in refs.list {
        set |= one.unwrap_or(0);
    }
    set
}

// ---- one tuple

// Whether it is of a keyref.
fn is_keyref(refs: Refs, front: &[u8]) -> bool
    ensures { result ≡ of_keyref refs front.now }
{
    let number = numbers::byte_at(front, TU_CONSTRAINT);
    ref_at(refs, number).is_some()
}

// Whether it is of a keyref, and nothing answers it.
fn is_lacking(t: &Tuples<'_>, front: &[u8]) -> bool
    ensures { result ≡ is_lacking t.now.refs t.now.used.now front.now }
{
    let constraint = numbers::byte_at(front, TU_CONSTRAINT);
    ref_at(t.refs, constraint).is_some_and(|answers| {
        let texts = texts::clipped(front, TU_COUNT, front.len());
        !tuple_places::answered_near(t.used, t.places, answers, texts)
    })
}

// Adds the report of kind 5 for a tuple that lacks an answer. A session has fewer tuples than four bytes can count, so
// its number is written as it is.
fn report_lacking(
    t: &Tuples<'_>,
    front: &[u8],
    number: usize,
    event: u32,
    reports: &mut [u8],
    at: usize,
) -> usize
    ensures { Appended reports.old at (flat_map put_rp (five_for t.now.refs t.now.used.now event number front.now)) result reports.new }
{
    if !is_lacking(t, front) {
        return at;
    }
    let constraint = numbers::byte_at(front, TU_CONSTRAINT);
    let scope = numbers::four_at(front, TU_SCOPE);
    let tuple = (number % 4294967296) as u32;
    let r = Report {
        kind: 5,
        constraint,
        field: 0,
        scope,
        event,
        tuple,
    };
    reports::append_report(reports, at, r)
}

// ---- all tuples

// Two counts by two tests, each one chain: a function for both that is handed the test would be no shorter.

// How many are of a keyref.
#[tactic(auto, using(frames::proofs::Walks::standing_fits))]
fn count_keyrefs(t: &Tuples<'_>) -> usize
    ensures { result ≡ length (passing (of_keyref t.now.refs) (standing frame t.now.used.now)) }
{
    frames::Records(t.used)
        .filter(|front| is_keyref(t.refs, front))
        .count()
}

// How many lack an answer.
#[tactic(auto, using(frames::proofs::Walks::standing_fits))]
fn count_lacking(t: &Tuples<'_>) -> usize
    ensures { result ≡ length (passing (is_lacking t.now.refs t.now.used.now) (standing frame t.now.used.now)) }
{
    frames::Records(t.used)
        .filter(|front| is_lacking(t, front))
        .count()
}

// Whether at most so many lack an answer. Where not even the tuples of keyrefs are more, nothing is looked up.
fn at_most(t: &Tuples<'_>, most: usize) -> bool
    ensures { result ≡ leb (length (passing (is_lacking t.now.refs t.now.used.now) (standing frame t.now.used.now))) most }
{
    count_keyrefs(t) <= most || count_lacking(t) <= most
}

// Adds a report for each that lacks an answer, and answers the new used length.
#[tactic(auto, using(frames::proofs::Walks::standing_fits))]
fn report_all(t: &Tuples<'_>, event: u32, reports: &mut [u8], at: usize) -> usize
    ensures { Written reports.old at (fives_in t.now.refs t.now.used.now event) result reports.new }
{
    let mut end = at;
    for (before, front) in frames::Records(t.used).enumerate() {
        end = report_lacking(t, front, before + 1, event, reports, end);
    }
    end
}

// ---- the reports, by a table of places

// The sets and the used bytes make a `Tuples` as soon as there is a table of places. A struct of them, the event and
// how many may lack an answer would be no plainer: it would be taken apart there, since of the other two `at_most` asks
// for the one alone, and `report_all` for the other.

// All reports are counted before the first is written. Where there is no room for all, none is, and there is no used
// length after them.
fn report_by(
    t: &Tuples<'_>,
    event: u32,
    most: usize,
    reports: &mut [u8],
    at: usize,
) -> Option<usize>
    ensures { Judged t.now.refs t.now.used.now event most reports.old at result reports.new }
{
    if !at_most(t, most) {
        return None;
    }
    Some(report_all(t, event, reports, at))
}

// With no table: each search is the walk.
fn report_walked(
    refs: Refs,
    used: &[u8],
    event: u32,
    most: usize,
    reports: &mut [u8],
    at: usize,
) -> Option<usize>
    ensures { Judged refs used.now event most reports.old at result reports.new }
{
    let t = Tuples {
        refs,
        used,
        places: &[],
    };
    report_by(&t, event, most, reports, at)
}

// With a table, in which the places of the tuples that answer are noted first.
fn report_noted(
    refs: Refs,
    used: &[u8],
    places: &mut [u32],
    event: u32,
    most: usize,
    reports: &mut [u8],
    at: usize,
) -> Option<usize>
    requires { Noted places.old used.now }
    ensures { Judged refs used.now event most reports.old at result reports.new }
{
    tuple_places::note_places(places, used, all_answers(refs));
    let noted = Tuples { refs, used, places };
    report_by(&noted, event, most, reports, at)
}

// With a table of so many entries. It is called from two places, so that the compiler does not draw it, with its 256
// KB, into the call of every record.
fn report_tabled(
    refs: Refs,
    used: &[u8],
    size: usize,
    event: u32,
    most: usize,
    reports: &mut [u8],
    at: usize,
) -> Option<usize>
    requires { size ≤ 65536 }
    ensures { Judged refs used.now event most reports.old at result reports.new }
{
    // Fixed memory: the library takes no heap, so that both sizes are parts of the larger.
    let mut places = [0u32; 65536];
    report_noted(refs, used, &mut places[..size], event, most, reports, at)
}

// To clear a table, which has as many places for both sizes, takes as long as the walks over 2,048 bytes, so that a
// shorter store has none. A table that uses few of them stays near, and serves all but large stores.
fn report_fives(
    refs: Refs,
    used: &[u8],
    event: u32,
    most: usize,
    reports: &mut [u8],
    at: usize,
) -> Option<usize>
    ensures { Judged refs used.now event most reports.old at result reports.new }
{
    if used.len() < 2048 {
        return report_walked(refs, used, event, most, reports, at);
    }
    if used.len() < 131072 {
        return report_tabled(refs, used, 8192, event, most, reports, at);
    }
    report_tabled(refs, used, 65536, event, most, reports, at)
}

// ---- FI

// The counts as they were, with the stage of a session that is finished.
fn finished(c: Counts) -> u64
    ensures { result ≡ packed (finished_counts c) }
{
    open_scopes::pack(Counts { stage: 66, ..c })
}

// An FI. No session that is well formed uses more of the report store than there is.
// A refusal is answered with numbers and scopes in a `Done`, which is no Result, so that `?` can't hand it on.
pub fn take_fi(
    n: Numbers,
    list: [Scope; 16],
    defs: &[u8],
    tuples: &[u8],
    reports: &mut [u8],
) -> Done
    ensures { TakesFi n list defs.now tuples.now reports.old result reports.new }
{
    let c = open_scopes::unpack(n.running);
    let depth = open_scopes::depth_of(c.stage);
    let placed = event_answers::in_place(c.stage, n.events, 0 < depth, SessionRefusal::Unbalanced);
    if let Err(why) = placed {
        return worlds::refusing(n, list, why);
    }
    let at = n.reports as usize;
    let Some(room) = reports.len().checked_sub(at) else {
        return worlds::refusing(n, list, SessionRefusal::ReportsFull);
    };
    let used = output_stores::used_of(tuples, n.tuples);
    let refs = refs_of(output_stores::used_of(defs, n.definitions));
    let most = room / 18;
    let events = n.events + 1;
    let event = events as u32;
    let Some(end) = report_fives(refs, used, event, most, reports, at) else {
        return worlds::refusing(n, list, SessionRefusal::ReportsFull);
    };
    let running = finished(c);
    Done {
        reply: Ok(()),
        numbers: Numbers {
            events,
            running,
            reports: end as u64,
            ..n
        },
        list,
    }
}
