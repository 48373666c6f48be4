// Whether a session is well formed: whether what is lent decodes. Refusal 10 is given exactly where it does not.
#![tactic(auto)]

ghost use Rattle.std.specs.Prelude.{◌≡◌, length, take};
ghost use Rattle.session_spec.specs.Definitions.{is_some};
ghost use Rattle.session_spec.specs.Layout as layout;
ghost use Rattle.session_spec.specs.Session.{counts_fit, decode};
ghost use Rattle.open_scopes.specs.OpenScopes.{open_of, records_of};
ghost use Rattle.open_scopes.specs.Counting.{as_counts};
ghost use Rattle.worlds.specs.Worlds.{world_of};
ghost use Rattle.well_formed.specs.Parts.{AreasAre, StoresAre, HasFields, HaveFields};

use constraints::Constraint;
use open_scopes::{Counts, Lengths, Numbers, Scope, Scopes};

// Whether the areas are long enough, no count is above its limit, and no used length past its store.
// What is lent comes one by one, as `session` has it: a struct for the two functions that take all would be no plainer.
fn counts_hold(
    n: Numbers,
    list: [Scope; 16],
    paths: usize,
    defs: &[u8],
    tuples: &[u8],
    reports: &[u8],
    names: &[u8],
    cells: &[u8],
) -> bool
    ensures { result ≡ counts_fit (world_of n list paths defs.now tuples.now reports.now names.now cells.now) (layout.unpack n.running) }
{
    let counts = open_scopes::unpack(n.running);
    let lengths = Lengths {
        definitions: defs.len(),
        tuples: tuples.len(),
        reports: reports.len(),
        names: names.len(),
        scopes: list.len(),
        cells: cells.len(),
        paths,
    };
    open_scopes::counts_fit(n, lengths, counts)
}

// ---- the open scopes and selections

// How many fields the constraint with this number has. Past the constraints, or where the bytes are no definitions, any
// number may come back.
fn field_count(used: &[u8], number: u32) -> u8
    ensures { HasFields used.now number result }
{
    let parts = Constraint::numbered(used, number).parts;
    u8::try_from(parts.count).unwrap_or(0)
}

// How many fields the constraints of the open scopes have, in their order. There is no heap for a list of as many as
// are open. `array::from_fn` would ask at each of the sixteen places whether a scope is open there: no plainer.
fn fields_of(used: &[u8], scopes: Scopes) -> [u8; 16]
    ensures { HaveFields used.now (open_of scopes) (take (length (open_of scopes)) result) }
{
    let mut fields = [0u8; 16];
    for (i, one) in scopes.open().iter().enumerate() {
        fields[i] = field_count(used, one.constraint);
    }
    fields
}

// Whether the areas hold open names, open scopes and open selections, as many as are counted. `used` are definitions,
// with so many constraints.
// How many selections are open is a number beside the bytes: lent memory has places for 32.
fn areas_read(
    used: &[u8],
    constraints: u32,
    counts: Counts,
    scopes: Scopes,
    names: &[u8],
    cells: &[u8],
) -> bool
    ensures { AreasAre used.now constraints (as_counts counts) (records_of scopes) names.now cells.now result }
{
    let depth = open_scopes::depth_of(counts.stage);
    if !open_names::names_read(names, depth) {
        return false;
    }
    // Tried joined by &&: that names and scopes each pass, where the one value of both is true, stayed open in the
    // proof.
    if !open_scopes::scopes_fit(scopes, constraints, depth, counts.opened) {
        return false;
    }
    let fields = fields_of(used, scopes);
    let end = scopes.count();
    let n = counts.selections as usize;
    selections::selections_read(cells, n, scopes, &fields[..end], depth)
}

// ---- the output stores

// Whether the used bytes are tuples, `most` at most, and reports, among so many constraints.
fn stores_read(tuples: &[u8], reports: &[u8], constraints: u32, opened: u64, most: u64) -> bool
    ensures { StoresAre constraints opened most tuples.now reports.now result }
{
    let among = constraints as usize;
    tuples::tuples_read(tuples, among, opened, most) && reports::reports_read(reports, among)
}

// ---- all of it

// Whether the session is well formed: what is lent decodes.
pub fn well_formed(
    n: Numbers,
    list: [Scope; 16],
    paths: usize,
    defs: &[u8],
    tuples: &[u8],
    reports: &[u8],
    names: &[u8],
    cells: &[u8],
) -> bool
    ensures { result ≡ is_some (decode (world_of n list paths defs.now tuples.now reports.now names.now cells.now)) }
{
    if !counts_hold(n, list, paths, defs, tuples, reports, names, cells) {
        return false;
    }
    let counts = open_scopes::unpack(n.running);
    let open = counts.scopes as usize;
    let scopes = Scopes { list, n: open };
    let used = output_stores::used_of(defs, n.definitions);
    let Some(tally) = definition_store::read_definitions(used) else {
        return false;
    };
    if !areas_read(used, tally.constraints, counts, scopes, names, cells) {
        return false;
    }
    let most = 32 * n.events;
    stores_read(
        output_stores::used_of(tuples, n.tuples),
        output_stores::used_of(reports, n.reports),
        tally.constraints,
        counts.opened,
        most,
    )
}

// ---- the end of the code
