// Doors that only tests call: the functions over records, stores and areas of a session, with numbers and byte slices.
// Parts of a struct come and go one by one, and none or a refusal as a number, as C has them.
#![tactic(auto)]

ghost use Rattle.std.specs.Prelude.{◌≡◌, [], take, get_or};
ghost use Rattle.lists.specs.Lists.{any, put};
ghost use Rattle.paths.specs.Names.{name_of};
ghost use Rattle.paths.specs.Reading.{every};
ghost use Rattle.records.specs.Refusals.{refusal_number};
ghost use Rattle.records.specs.Records.{parse};
ghost use Rattle.records.specs.Readers.{Bytes};
ghost use Rattle.record_places.specs.Places.{Within, refusal_of, Walks, texts_at};
ghost use Rattle.session_spec.specs.Definitions.{is_some, frame, read_definitions};
ghost use Rattle.session_spec.specs.Layout.{cell_state, key_of, name_in, parts, read_tu, tuple_field, field_part, read_rp, put_rp};
ghost use Rattle.session_spec.specs.Layout as layout;
ghost use Rattle.session_spec.specs.Session.{stage_of, depth_of, decode};
ghost use Rattle.cells.specs.Cells.{hit_of, cell_at, depth_at, scope_at, blank_cells, hit_at, hit_selections};
ghost use Rattle.open_names.specs.OpenNames.{with_name};
ghost use Rattle.open_scopes.specs.OpenScopes.{records_of, scopes_fit};
ghost use Rattle.open_scopes.specs.Counting.{packed, numbers_fit};
ghost use Rattle.output_stores.specs.Stores.{standing, reads_as, Appended};
ghost use Rattle.reports.specs.Reports.{tells, all_defined};
ghost use Rattle.definition_store.specs.Store.{stands_against, defined_by, id_verdict, ns_verdict};
ghost use Rattle.bindings.specs.Bindings.{frames_in};
ghost use Rattle.bindings.specs.Own.{own_frames};
ghost use Rattle.constraints.specs.Constraints.{joined, ReferWithin, PartsOf, NamedBy, AnsweredBy, count_in};
ghost use Rattle.scope_bytes.specs.ScopeBytes.{scopes_in};
ghost use Rattle.worlds.specs.Worlds.{world_of};
ghost use Rattle.selections.specs.Selections.{homes, selections_fit};
ghost use Rattle.tuples.specs.Tuples.{tuples_fit};
ghost use Rattle.tuple_search.specs.Search.{keys_in, tu_bytes, first_with, answered_by};
ghost use Rattle.store_doors.specs.Doors.{refusal_by, place_by, refer_by, walked_by, Handed, defined_with, verdict_number};

use cells::Hit;
use constraints::Parts;
use definition_store::{Against, Tally};
use open_scopes::{Counts, Lengths, Numbers, Scopes};
use record_places::{Place, Record, Refusal};
use reports::Report;

// A part cannot be handed out by a door, so its bytes are copied to the front of `out`, and their number is answered.
fn hand_out(out: &mut [u8], bytes: &[u8]) -> usize
    ensures { Handed bytes.now out.old result out.new }
{
    numbers::put_bytes(out, 0, bytes);
    bytes.len()
}

// ---- the record walk

// A refusal's place in the order of the tests.
#[tactic(auto, unfolding(crate::specs::Doors::refusal_by))]
fn refusal_case(r: Refusal) -> u8
    ensures { refusal_by result ≡ r }
{
    r as u8
}

// The refusal at a place. A match, since no cast makes an enum of a number, and no From: neither that nor the type is
// of this crate.
#[tactic(auto, unfolding(crate::specs::Doors::refusal_by))]
fn refusal_with(n: u8) -> Refusal
    ensures { result ≡ refusal_by n }
{
    match n {
        0 => Refusal::UnknownMark,
        1 => Refusal::TooLong,
        2 => Refusal::Misframed,
        3 => Refusal::NotUtf8,
        4 => Refusal::BadByte,
        _ => Refusal::OverLimit,
    }
}

// A record's numbers and places, or its refusal: all kinds in one, and no enum, since C is handed the parts.
// What is not told is 0.
#[derive(Clone, Copy, Default)]
struct Told {
    sort: u8,
    kind: u8,
    flag: u8,
    a: Place,
    b: Place,
    c: Place,
    first: usize,
    count: usize,
}

// Each record by what it has: the kinds make the function long.
#[tactic(auto, unfolding(crate::specs::Doors::walked_by))]
fn told_of(w: Result<Record, Refusal>) -> Told
    ensures { walked_by result.sort result.kind result.flag result.a result.b result.c result.first result.count ≡ w }
{
    match w {
        Err(r) => Told {
            kind: refusal_case(r),
            ..Told::default()
        },
        Ok(Record::Id(r)) => Told {
            sort: 1,
            kind: r.kind,
            flag: r.flag,
            a: r.name,
            b: r.refer,
            c: r.selector,
            first: r.first,
            count: r.count,
        },
        Ok(Record::Ns(r)) => Told {
            sort: 2,
            kind: r.target,
            a: r.prefix,
            b: r.uri,
            ..Told::default()
        },
        Ok(Record::Es(r)) => Told {
            sort: 3,
            a: r.space,
            b: r.name,
            c: r.numbers,
            first: r.first,
            count: r.count,
            ..Told::default()
        },
        Ok(Record::Ee(r)) => Told {
            sort: 4,
            kind: r.simple,
            a: r.key,
            ..Told::default()
        },
        Ok(Record::Fi) => Told {
            sort: 5,
            ..Told::default()
        },
    }
}

#[unsafe(no_mangle)]
pub extern "C" fn store_walk_record(
    rec: &[u8],
    kind: &mut u8,
    flag: &mut u8,
    start1: &mut usize,
    size1: &mut usize,
    start2: &mut usize,
    size2: &mut usize,
    start3: &mut usize,
    size3: &mut usize,
    first: &mut usize,
    count: &mut usize,
) -> u8
    ensures { Walks rec.now (parse rec.now) (walked_by result kind.new flag.new (place_by start1.new size1.new) (place_by start2.new size2.new) (place_by start3.new size3.new) first.new count.new) }
{
    let told = told_of(record_walk::walk_record(rec));
    *kind = told.kind;
    *flag = told.flag;
    *start1 = told.a.start;
    *size1 = told.a.size;
    *start2 = told.b.start;
    *size2 = told.b.size;
    *start3 = told.c.start;
    *size3 = told.c.size;
    *first = told.first;
    *count = told.count;
    told.sort
}

// The number of a refusal that is handed in by its place in the order of the tests.
#[unsafe(no_mangle)]
pub extern "C" fn store_refusal_number(n: u8) -> u8
    ensures { result ≡ refusal_number (refusal_of (refusal_by n)) }
{
    record_walk::refusal_number(refusal_with(n))
}

// ---- cells

#[unsafe(no_mangle)]
pub extern "C" fn store_state_at(area: &[u8], at: usize) -> u8
    ensures { result ≡ cell_state (cell_at area.now at) }
{
    cells::state_at(area, at).number()
}

#[unsafe(no_mangle)]
pub extern "C" fn store_key_at(area: &[u8], at: usize, out: &mut [u8]) -> usize
    ensures { Handed (key_of (cell_at area.now at)) out.old result out.new }
{
    hand_out(out, cells::key_at(area, at))
}

#[unsafe(no_mangle)]
pub extern "C" fn store_depth_at(area: &[u8], at: usize) -> u32
    ensures { result ≡ depth_at area.now at }
{
    cells::depth_at(area, at)
}

#[unsafe(no_mangle)]
pub extern "C" fn store_scope_at(area: &[u8], at: usize) -> u32
    ensures { result ≡ scope_at area.now at }
{
    cells::scope_at(area, at)
}

#[unsafe(no_mangle)]
pub extern "C" fn store_open_selection(area: &mut [u8], at: usize, depth: u32, scope: u32)
    ensures { area.new ≡ put area.old at (blank_cells depth scope) }
{
    cells::open_selection(area, at, depth, scope);
}

#[unsafe(no_mangle)]
pub extern "C" fn store_hit_cell(area: &mut [u8], at: usize, times: usize, simple: u8, key: &[u8])
    ensures { area.new ≡ hit_at (hit_of simple key.now) at times area.old }
{
    cells::hit_cell(area, at, times, &Hit { simple, key });
}

#[unsafe(no_mangle)]
pub extern "C" fn store_hit_selections(
    area: &mut [u8],
    n: usize,
    field: usize,
    counts: &[u8],
    simple: u8,
    key: &[u8],
)
    ensures { area.new ≡ hit_selections (hit_of simple key.now) field (take n counts.now) area.old }
{
    cells::hit_selections(area, n, field, counts, &Hit { simple, key });
}

// ---- open names

#[unsafe(no_mangle)]
pub extern "C" fn store_write_name(names: &mut [u8], depth: u32, space: &[u8], qualified: &[u8])
    ensures { names.new ≡ with_name names.old depth (name_of space.now qualified.now) }
{
    open_names::write_name(names, depth, space, qualified);
}

#[unsafe(no_mangle)]
pub extern "C" fn store_names_read(names: &[u8], depth: u32) -> bool
    ensures { result ≡ is_some (every name_in (parts 514 depth names.now)) }
{
    open_names::names_read(names, depth)
}

// ---- counts

#[unsafe(no_mangle)]
pub extern "C" fn store_pack(stage: u32, scopes: u32, selections: u32, opened: u64) -> u64
    ensures { result ≡ packed (record { stage = stage; scopes = scopes; selections = selections; opened = opened }) }
{
    let counts = Counts {
        stage,
        scopes,
        selections,
        opened,
    };
    open_scopes::pack(counts)
}

#[unsafe(no_mangle)]
pub extern "C" fn store_unpack(
    n: u64,
    stage: &mut u32,
    scopes: &mut u32,
    selections: &mut u32,
    opened: &mut u64,
)
    ensures { record { stage = stage.exit.now; scopes = scopes.new; selections = selections.new; opened = opened.new } ≡ layout.unpack n }
{
    let counts = open_scopes::unpack(n);
    *stage = counts.stage;
    *scopes = counts.scopes;
    *selections = counts.selections;
    *opened = counts.opened;
}

#[unsafe(no_mangle)]
pub extern "C" fn store_depth_of(stage: u32) -> u32
    ensures { result ≡ depth_of (stage_of stage) stage }
{
    open_scopes::depth_of(stage)
}

// The five numbers; the lengths of the three stores and of the four areas; the counts.
// Over forty lines by what C hands in.
#[unsafe(no_mangle)]
pub extern "C" fn store_counts_fit(
    events: u64,
    running: u64,
    definitions: u64,
    tuples: u64,
    reports: u64,
    definition_store: usize,
    tuple_store: usize,
    report_store: usize,
    names: usize,
    places: usize,
    cells: usize,
    paths: usize,
    stage: u32,
    scopes: u32,
    selections: u32,
    opened: u64,
) -> bool
    ensures { result ≡ numbers_fit (record { events = events; running = running; definitions = definitions; tuples = tuples; reports = reports }) (record { definitions = definition_store; tuples = tuple_store; reports = report_store; names = names; scopes = places; cells = cells; paths = paths }) (record { stage = stage; scopes = scopes; selections = selections; opened = opened }) }
{
    let numbers = Numbers {
        events,
        running,
        definitions,
        tuples,
        reports,
    };
    let lengths = Lengths {
        definitions: definition_store,
        tuples: tuple_store,
        reports: report_store,
        names,
        scopes: places,
        cells,
        paths,
    };
    let counts = Counts {
        stage,
        scopes,
        selections,
        opened,
    };
    open_scopes::counts_fit(numbers, lengths, counts)
}

// ---- reports

#[unsafe(no_mangle)]
pub extern "C" fn store_append_report(
    store: &mut [u8],
    used: usize,
    kind: u8,
    constraint: u8,
    field: u8,
    scope: u32,
    event: u32,
    tuple: u32,
) -> usize
    ensures { Appended store.old used (put_rp (record { kind = kind; constraint = constraint; field = field; scope = scope; event = event; tuple = tuple })) result store.new }
{
    let report = Report {
        kind,
        constraint,
        field,
        scope,
        event,
        tuple,
    };
    reports::append_report(store, used, report)
}

#[unsafe(no_mangle)]
pub extern "C" fn store_told(used: &[u8], named: u32) -> bool
    ensures { result ≡ any (tells named) (standing read_rp used.now) }
{
    reports::told(used, named)
}

#[unsafe(no_mangle)]
pub extern "C" fn store_reports_read(used: &[u8], constraints: usize) -> bool
    ensures { result ≡ reads_as read_rp (all_defined constraints) used.now }
{
    reports::reports_read(used, constraints)
}

#[unsafe(no_mangle)]
pub extern "C" fn store_append_bytes(store: &mut [u8], used: usize, bytes: &[u8]) -> usize
    ensures { Appended store.old used bytes.now result store.new }
{
    output_stores::append_bytes(store, used, bytes)
}

// ---- tuples

#[unsafe(no_mangle)]
pub extern "C" fn store_tuples_read(used: &[u8], constraints: usize, opened: u64, most: u64) -> bool
    ensures { result ≡ reads_as read_tu (tuples_fit constraints opened most) used.now }
{
    tuples::tuples_read(used, constraints, opened, most)
}

#[unsafe(no_mangle)]
pub extern "C" fn store_field_place(
    used: &[u8],
    number: u32,
    field: u32,
    start: &mut usize,
) -> usize
    ensures { record { start = start.exit.now; size = result } ≡ field_part used.now number field }
{
    let place = tuples::field_place(used, number, field);
    *start = place.start;
    place.size
}

#[unsafe(no_mangle)]
pub extern "C" fn store_tuple_field(used: &[u8], number: u32, field: u32, out: &mut [u8]) -> usize
    ensures { Handed (tuple_field used.now number field) out.old result out.new }
{
    hand_out(out, tuples::tuple_field(used, number, field))
}

#[unsafe(no_mangle)]
pub extern "C" fn store_make_tuple(
    constraint: u8,
    scope: u32,
    cells: &[u8],
    fields: usize,
    out: &mut [u8],
) -> usize
    ensures { Handed (tu_bytes constraint scope (keys_in fields cells.now)) out.old result out.new }
{
    let made = tuple_search::make_tuple(constraint, scope, cells, fields);
    let bytes = made.bytes;
    hand_out(out, &bytes[..made.size])
}

#[unsafe(no_mangle)]
pub extern "C" fn store_find_tuple(used: &[u8], tail: &[u8]) -> usize
    ensures { result ≡ first_with tail.now (standing frame used.now) }
{
    tuple_search::find_tuple(used, tail).unwrap_or(0)
}

#[unsafe(no_mangle)]
pub extern "C" fn store_answered(used: &[u8], named: u32, texts: &[u8]) -> bool
    ensures { result ≡ answered_by named texts.now (standing frame used.now) }
{
    tuple_search::answered(used, named, texts)
}

// ---- definitions

#[tactic(auto, unfolding(crate::specs::Doors::defined_with))]
#[unsafe(no_mangle)]
pub extern "C" fn store_read_definitions(
    used: &[u8],
    constraints: &mut u32,
    fields: &mut u32,
    bindings: &mut u32,
) -> bool
    ensures { defined_with result constraints.new fields.new bindings.new ≡ defined_by (read_definitions used.now) }
{
    let read = definition_store::read_definitions(used);
    let tally = read.unwrap_or_default();
    *constraints = tally.constraints;
    *fields = tally.fields;
    *bindings = tally.bindings;
    read.is_some()
}

// By a match, and no numbers at the cases of `Against`: only the two doors behind this ask for them.
#[tactic(auto, unfolding(records::specs::Refusals::refusal_number))]
fn verdict_number(v: Result<(), Against>) -> u8
    ensures { result ≡ verdict_number (stands_against v) }
{
    match v {
        Ok(()) => 0,
        Err(Against::Undefined) => 12,
        Err(Against::BoundTwice) => 17,
        Err(Against::Full) => 18,
    }
}

#[unsafe(no_mangle)]
pub extern "C" fn store_judge_id(constraints: u32, fields: u32, bindings: u32) -> u8
    ensures { result ≡ verdict_number (id_verdict (record { constraints = constraints; fields = fields; bindings = bindings })) }
{
    let tally = Tally {
        constraints,
        fields,
        bindings,
    };
    verdict_number(definition_store::judge_id(tally))
}

#[unsafe(no_mangle)]
pub extern "C" fn store_judge_ns(
    used: &[u8],
    constraints: u32,
    fields: u32,
    bindings: u32,
    target: u8,
    prefix: &[u8],
) -> u8
    ensures { result ≡ verdict_number (ns_verdict used.now (record { constraints = constraints; fields = fields; bindings = bindings }) target prefix.now) }
{
    let tally = Tally {
        constraints,
        fields,
        bindings,
    };
    verdict_number(definition_store::judge_ns(used, tally, target, prefix))
}

// ---- constraints

#[unsafe(no_mangle)]
pub extern "C" fn store_own_of(used: &[u8], number: u32, out: &mut [u8]) -> usize
    ensures { Handed (joined (own_frames number (frames_in used.now))) out.old result out.new }
{
    hand_out(out, constraints::own_of(used, number))
}

// A refer as the C interface has it: whether there is one, and its place, which is empty at 0 where there is none.
fn refer_told(refer: Option<Place>) -> (bool, Place)
    ensures is { refer_by result.0 result.1 ≡ refer }
    ensures within { (s : Bytes) → ReferWithin s refer → Within s result.1 }
{
    match refer {
        Some(place) => (true, place),
        None => (false, Place::default()),
    }
}

#[unsafe(no_mangle)]
pub extern "C" fn store_parts_of(
    own: &[u8],
    kind: &mut u8,
    start1: &mut usize,
    size1: &mut usize,
    start2: &mut usize,
    size2: &mut usize,
    start3: &mut usize,
    size3: &mut usize,
    first: &mut usize,
    count: &mut usize,
) -> bool
    ensures parts { PartsOf own.now (record { kind = kind.exit.now; name = place_by start1.new size1.new; refer = refer_by result (place_by start2.new size2.new); selector = place_by start3.new size3.new; first = first.new; count = count.new }) }
    ensures refer_within { Within own.now (place_by start2.new size2.new) }
{
    let p = constraints::parts_of(own);
    let told = refer_told(p.refer);
    *kind = p.kind;
    *start1 = p.name.start;
    *size1 = p.name.size;
    *start2 = told.1.start;
    *size2 = told.1.size;
    *start3 = p.selector.start;
    *size3 = p.selector.size;
    *first = p.first;
    *count = p.count;
    told.0
}

// Of the parts of an ID the fields alone have a say. The others are blank: C has none at hand, and `field_of` takes
// all.
#[unsafe(no_mangle)]
pub extern "C" fn store_field_of(
    own: &[u8],
    first: usize,
    count: usize,
    i: usize,
    out: &mut [u8],
) -> usize
    ensures { Handed (get_or (texts_at own.now first count) i []) out.old result out.new }
{
    let parts = Parts {
        kind: 0,
        name: Place::default(),
        refer: None,
        selector: Place::default(),
        first,
        count,
    };
    hand_out(out, constraints::field_of(own, parts, i))
}

#[unsafe(no_mangle)]
pub extern "C" fn store_named(used: &[u8], name: &[u8]) -> u32
    ensures { NamedBy used.now name.now result }
{
    constraints::named(used, name)
}

#[unsafe(no_mangle)]
pub extern "C" fn store_answering(used: &[u8], refer: &[u8]) -> u32
    ensures { AnsweredBy used.now refer.now result }
{
    constraints::answering(used, refer)
}

#[unsafe(no_mangle)]
pub extern "C" fn store_constraint_count(used: &[u8]) -> u32
    ensures { result ≡ count_in used.now }
{
    constraints::constraint_count(used)
}

// ---- scopes and selections, the scopes as twelve bytes each

#[unsafe(no_mangle)]
pub extern "C" fn store_scopes_fit(
    scopes: &[u8],
    n: usize,
    constraints: u32,
    depth: u32,
    opened: u64,
) -> bool
    ensures { result ≡ scopes_fit constraints depth opened (records_of (record { list = scopes_in scopes.now; n = n })) }
{
    let list = scope_bytes::load_scopes(scopes);
    open_scopes::scopes_fit(Scopes { list, n }, constraints, depth, opened)
}

#[unsafe(no_mangle)]
pub extern "C" fn store_selections_read(
    cells: &[u8],
    count: usize,
    scopes: &[u8],
    n: usize,
    fields: &[u8],
    depth: u32,
) -> bool
    ensures { result ≡ selections_fit (homes (records_of (record { list = scopes_in scopes.now; n = n })) fields.now) depth (parts 512 count cells.now) }
{
    let list = scope_bytes::load_scopes(scopes);
    selections::selections_read(cells, count, Scopes { list, n }, fields, depth)
}

// ---- the whole test

#[unsafe(no_mangle)]
pub extern "C" fn store_well_formed(
    events: u64,
    running: u64,
    definitions: u64,
    tuples: u64,
    reports: u64,
    scopes: &[u8],
    paths: usize,
    definition_store: &[u8],
    tuple_store: &[u8],
    report_store: &[u8],
    names: &[u8],
    cells: &[u8],
) -> bool
    ensures { result ≡ is_some (decode (world_of (record { events = events; running = running; definitions = definitions; tuples = tuples; reports = reports }) (scopes_in scopes.now) paths definition_store.now tuple_store.now report_store.now names.now cells.now)) }
{
    let numbers = Numbers {
        events,
        running,
        definitions,
        tuples,
        reports,
    };
    let list = scope_bytes::load_scopes(scopes);
    well_formed::well_formed(
        numbers,
        list,
        paths,
        definition_store,
        tuple_store,
        report_store,
        names,
        cells,
    )
}
