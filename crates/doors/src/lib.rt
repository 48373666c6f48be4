// The doors: what a program in C or Rust calls, with numbers and byte slices. All that is lent stays a parameter of its
// own at each door, as C hands it in. Kinds, answers and refusals are numbers at each, since C has no Option or Result.
#![tactic(auto)]

ghost use Rattle.std.specs.Prelude.{◌≡◌, cond};
ghost use Rattle.texts.specs.Texts.{same, pairs_of};
ghost use Rattle.checker.specs.Answers.{checked, number_of};
ghost use Rattle.path_writer.specs.Spelling.{SpelledOut};
ghost use Rattle.session_spec.specs.Layout.{field_part};
ghost use Rattle.tuples.specs.Tuples.{readable};
ghost use Rattle.call_forms.specs.Doors.{lent_world, Recorded, RanOver};

use open_scopes::Numbers;
use worlds::Refused;

// The path checker: 0 for a pass, document 01's number for a refusal, 100 and k for the reason Xk.
#[unsafe(no_mangle)]
pub extern "C" fn identity_check_path(kind: u8, path: &[u8], prefixes: &[u8]) -> u32
    ensures { result ≡ number_of (checked kind path.now prefixes.now) }
{
    match checker::check_path(kind, path, prefixes) {
        Ok(()) => 0, // a pass
        Err(fault) => fault.number(),
    }
}

// The record call. The session is five numbers: events, the packed running counts, and the used lengths of the
// definition, tuple and report stores. Five zeros are a session just set up. Answers 0 where the record was taken, else
// document 01's number of the refusal.
#[unsafe(no_mangle)]
pub extern "C" fn identity_record(
    events: &mut u64,
    running: &mut u64,
    dused: &mut u64,
    tused: &mut u64,
    rused: &mut u64,
    rec: &[u8],
    defs: &mut [u8],
    tuples: &mut [u8],
    reports: &mut [u8],
    paths: &mut [u8],
    scopes: &mut [u8],
    names: &mut [u8],
    cells: &mut [u8],
) -> u32
    ensures { Recorded (lent_world events.old running.old dused.old tused.old rused.old defs.old tuples.old reports.old paths.old scopes.old names.old cells.old) rec.now paths.old scopes.old result (lent_world events.new running.new dused.new tused.new rused.new defs.new tuples.new reports.new paths.new scopes.new names.new cells.new) paths.new scopes.new }
{
    if !call_forms::holds_sixteen(scopes) {
        return Refused::Unfit.number();
    }
    let n = Numbers {
        events: *events,
        running: *running,
        definitions: *dused,
        tuples: *tused,
        reports: *rused,
    };
    let list = scope_bytes::load_scopes(scopes);
    let d = session::record_call(n, list, rec, defs, tuples, reports, paths, names, cells);
    let reply = d.reply;
    let left = d.numbers;
    let open = d.list;
    call_forms::hand_out_numbers(left, events, running, dused, tused, rused);
    call_forms::hand_out_record(reply, open, scopes)
}

// A run over a buffer of records: the whole records in it are handed in one after another, until one is refused.
// Answers 0, or the number of the refusal; `taken` is how many bytes the records had that were taken. What is behind
// them is to be handed in again, with more behind it.
#[unsafe(no_mangle)]
pub extern "C" fn identity_run(
    events: &mut u64,
    running: &mut u64,
    dused: &mut u64,
    tused: &mut u64,
    rused: &mut u64,
    buffer: &[u8],
    defs: &mut [u8],
    tuples: &mut [u8],
    reports: &mut [u8],
    paths: &mut [u8],
    scopes: &mut [u8],
    names: &mut [u8],
    cells: &mut [u8],
    taken: &mut u64,
) -> u32
    ensures { RanOver (lent_world events.old running.old dused.old tused.old rused.old defs.old tuples.old reports.old paths.old scopes.old names.old cells.old) buffer.now paths.old scopes.old result (lent_world events.new running.new dused.new tused.new rused.new defs.new tuples.new reports.new paths.new scopes.new names.new cells.new) taken.new paths.new scopes.new }
{
    *taken = 0;
    if !call_forms::holds_sixteen(scopes) {
        return call_forms::unfit_number(buffer);
    }
    let n = Numbers {
        events: *events,
        running: *running,
        definitions: *dused,
        tuples: *tused,
        reports: *rused,
    };
    let list = scope_bytes::load_scopes(scopes);
    let d = session::run(n, list, buffer, defs, tuples, reports, paths, names, cells);
    let reply = d.last.reply;
    let left = d.last.numbers;
    let ended = d.last.list;
    let bytes = d.bytes;
    *taken = bytes as u64;
    call_forms::hand_out_numbers(left, events, running, dused, tused, rused);
    call_forms::hand_out_run(reply, ended, bytes, scopes)
}

// The view of a field of a TU in the tuple store, of which `used` bytes are used: the part that holds it. TUs count
// from 1, fields from 0; where there is none, or the store does not read, start and size are 0.
#[unsafe(no_mangle)]
pub extern "C" fn identity_tuple_field(
    used: u64,
    tuples: &[u8],
    number: u32,
    field: u32,
    start: &mut u64,
    size: &mut u64,
)
    ensures { record { start = start.exit.now; size = size.new } ≡ field_part (readable used tuples.now) number field }
{
    let place = tuples::view_place(used, tuples, number, field);
    *start = place.start as u64;
    *size = place.size as u64;
}

// The answer where the text of a path is written.
const WRITTEN: u32 = 0;

// Writes the one spelling of a path at the front of `out` and its size into `size`, and answers 0; or document 02's
// number of the refusal, with both as they were.
#[unsafe(no_mangle)]
pub extern "C" fn identity_spell_path(kind: u8, path: &[u8], out: &mut [u8], size: &mut u64) -> u32
    ensures { SpelledOut kind path.now out.old size.old result out.new size.new }
{
    match path_writer::spell_path(kind, path, out) {
        Ok(n) => {
            *size = n as u64;
            WRITTEN
        }
        Err(refusal) => refusal.number(),
    }
}

// Compares two names: 1 where they are the same, else 0. `pairs` is how many pairs of bytes were looked at.
#[unsafe(no_mangle)]
pub extern "C" fn identity_compare_names(a: &[u8], b: &[u8], pairs: &mut u64) -> u32
    ensures { (result ≡ cond (same a.now b.now) 1 0) × (pairs.new ≡ pairs_of a.now b.now) }
{
    let compared = texts::compare(a, b);
    *pairs = compared.pairs as u64;
    u32::from(compared.same)
}
