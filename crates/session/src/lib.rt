// The library's calls: set-up, the call on one record, and a run over a buffer of records. A session is five numbers
// and the open scopes by value; the stores and the areas are lent to each call.
// What is lent is no struct: each function over it would have to promise, too, that each part still points where it
// pointed.
#![tactic(auto)]

ghost use Rattle.std.specs.Prelude.{◌≡◌, ◌-◌, length, take};
ghost use Rattle.lists.specs.Lists.{part};
ghost use Rattle.session_spec.specs.Definitions.{frame};
ghost use Rattle.output_stores.specs.Stores.{standing};
ghost use Rattle.tuple_marks.specs.Marks.{with_marks, AllMarked};
ghost use Rattle.calls.specs.Running.{Runs, RunsFrames};
ghost use Rattle.calls.specs.Calls.{Starts, Called, TakesRecord};

use calls::RunDone;
use open_scopes::{Numbers, Scope};
use record_places::Record;
use worlds::{Done, Refused};

// A fresh session. Whatever the stores and areas hold, and however long they are, nothing of it is used yet.
pub fn set_up() -> Numbers
    ensures { Starts result }
{
    Numbers::default()
}

// THE RECORD CALL. A session that is not well formed is refused before the record is looked at. To mark the tuples
// would take longer than to look through them once, so there are no marks.
pub fn record_call(
    n: Numbers,
    list: [Scope; 16],
    rec: &[u8],
    defs: &mut [u8],
    tuples: &mut [u8],
    reports: &mut [u8],
    paths: &mut [u8],
    names: &mut [u8],
    cells: &mut [u8],
) -> Done
    ensures { Called n list rec.now defs.old tuples.old reports.old paths.old names.old cells.old result defs.new tuples.new reports.new paths.new names.new cells.new }
{
    let size = paths.len();
    if !well_formed::well_formed(n, list, size, defs, tuples, reports, names, cells) {
        return worlds::refusing_with(n, list, Refused::Unfit);
    }
    take_record(
        n,
        list,
        rec,
        defs,
        tuples,
        reports,
        paths,
        names,
        cells,
        &[],
    )
}

// The same of a session that is known to be well formed, with marks of its tuples.
fn take_record(
    n: Numbers,
    list: [Scope; 16],
    rec: &[u8],
    defs: &mut [u8],
    tuples: &mut [u8],
    reports: &mut [u8],
    paths: &mut [u8],
    names: &mut [u8],
    cells: &mut [u8],
    marks: &[u32],
) -> Done
    ensures { AllMarked marks.now (take n.tuples tuples.old) → TakesRecord n list rec.now defs.old tuples.old reports.old paths.old names.old cells.old result defs.new tuples.new reports.new paths.new names.new cells.new }
{
    match record_walk::walk_record(rec) {
        Err(c) => worlds::refusing_with(n, list, Refused::Input(c)),
        Ok(Record::Id(_)) => defining::take_id(n, list, rec, defs),
        Ok(Record::Ns(ns)) => defining::take_ns(n, list, ns, rec, defs),
        Ok(Record::Es(es)) => starting::take_es(
            n, list, es, rec, defs, reports, paths, names, cells,
        ),
        Ok(Record::Ee(ee)) => ending::take_ee(
            n, list, ee, rec, defs, tuples, reports, paths, names, cells, marks,
        ),
        Ok(Record::Fi) => finishing::take_fi(n, list, defs, tuples, reports),
    }
}

// ---- a run over a buffer

// THE RUN over a buffer: each frame is handed in as a record, until one is refused or none is whole. What is well
// formed stays so: one test is enough. A tuple is looked for in the store only where marks say that it may be there.
pub fn run(
    n: Numbers,
    list: [Scope; 16],
    buffer: &[u8],
    defs: &mut [u8],
    tuples: &mut [u8],
    reports: &mut [u8],
    paths: &mut [u8],
    names: &mut [u8],
    cells: &mut [u8],
) -> RunDone
    ensures { Runs n list buffer.now defs.old tuples.old reports.old paths.old names.old cells.old result defs.new tuples.new reports.new paths.new names.new cells.new }
{
    let area = paths.len();
    if !well_formed::well_formed(n, list, area, defs, tuples, reports, names, cells) {
        // as `call_forms::unfit_number` asks for a number: one function that both ask would be no shorter
        let reply = match calls::next_frame(buffer) {
            Some(_) => Err(Refused::Unfit),
            None => Ok(()),
        };
        let last = Done {
            reply,
            numbers: n,
            list,
        };
        return RunDone { last, bytes: 0 };
    }
    run_marked(n, list, buffer, defs, tuples, reports, paths, names, cells)
}

// The same of a session that is known to be well formed. To mark all tuples takes as long as some eight searches among
// them, so there are no marks for a short buffer.
// An empty slice stands for no marks: an Option would add a case to each step that takes them.
fn run_marked(
    n: Numbers,
    list: [Scope; 16],
    buffer: &[u8],
    defs: &mut [u8],
    tuples: &mut [u8],
    reports: &mut [u8],
    paths: &mut [u8],
    names: &mut [u8],
    cells: &mut [u8],
) -> RunDone
    ensures { RunsFrames n list buffer.now defs.old tuples.old reports.old paths.old names.old cells.old result defs.new tuples.new reports.new paths.new names.new cells.new }
{
    if buffer.len() < 2048 {
        return run_frames(
            n,
            list,
            buffer,
            defs,
            tuples,
            reports,
            paths,
            names,
            cells,
            &mut [],
        );
    }
    // Fixed memory: the library takes no heap.
    let mut marks = [0u32; 8192];
    tuple_marks::mark_all(&mut marks, output_stores::used_of(tuples, n.tuples));
    run_frames(
        n, list, buffer, defs, tuples, reports, paths, names, cells, &mut marks,
    )
}

// Marks the tuples that a record has added, those between two used lengths.
fn mark_new(marks: &mut [u32], tuples: &[u8], from: u64, to: u64)
    ensures { marks.new ≡ with_marks marks.old (standing frame (part tuples.now from (to - from))) }
{
    tuple_marks::mark_all(marks, output_stores::between(tuples, from, to));
}

// The frames of a run, each taken with marks of the tuples in the store. Over 40 lines by what it lists: the lent
// stores and areas, twice, and what a run is answered by, twice.
// An iterator of frames would serve this loop alone, and be no plainer.
fn run_frames(
    n: Numbers,
    list: [Scope; 16],
    buffer: &[u8],
    defs: &mut [u8],
    tuples: &mut [u8],
    reports: &mut [u8],
    paths: &mut [u8],
    names: &mut [u8],
    cells: &mut [u8],
    marks: &mut [u32],
) -> RunDone
    ensures { AllMarked marks.old (take n.tuples tuples.old) → RunsFrames n list buffer.now defs.old tuples.old reports.old paths.old names.old cells.old result defs.new tuples.new reports.new paths.new names.new cells.new }
{
    let mut numbers = n;
    let mut scopes = list;
    let mut bytes: usize = 0;
    let mut rest = buffer;
    while let Some((frame, behind)) = calls::next_frame(rest) {
        let d = take_record(
            numbers, scopes, frame, defs, tuples, reports, paths, names, cells, marks,
        );
        if !calls::is_taken(d.reply) {
            return RunDone { last: d, bytes };
        }
        mark_new(marks, tuples, numbers.tuples, d.numbers.tuples);
        numbers = d.numbers;
        scopes = d.list;
        bytes += frame.len();
        rest = behind;
    }
    let last = Done {
        reply: Ok(()),
        numbers,
        list: scopes,
    };
    RunDone { last, bytes }
}
