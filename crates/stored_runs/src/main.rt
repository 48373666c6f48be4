// Replays stored runs of the original: hands in the records of each run from set-up on, with the session lent to each
// call, and compares the reports of each with what the original said. The input is a number of runs, the runs, and an
// `E` behind them; a run is a number of records, each with what was said of it behind it; what was said is a count byte
// and so many reports. A report is stored as its kind, its field index, the name of its constraint, a count byte and
// the texts of its tuple. Numbers of runs and records have two bytes, as the length of a text has. The host's
// `make_answers` makes the input from the unchanged original.
#![tactic(auto)]

ghost use Rattle.std.specs.Prelude.{◌≤◌, length, IfOk};

use open_scopes::{Numbers, Scope};
use reports::Report;
use std::io;
use std::io::Read;
use worlds::{Done, Reply};

// So many bytes of the input leave no room for more.
const MOST: usize = 262144;

// What is lent to each call. Fixed memory: no length of it changes, and what is an array can't fail to be allocated.
// `icheck` has them beside its input: one type for both programs would need a crate of its own, and is no plainer.
#[derive(Drop)]
struct Room {
    defs: [u8; 65536],
    tuples: [u8; 65536],
    reports: [u8; 65536],
    paths: [u8; 1024],
    names: [u8; 32896],
    cells: [u8; 16384],
}

// What was compared: the bytes behind it, and whether all of it was the same.
// No Option: the bytes behind it are needed either way.
#[derive(Clone, Copy)]
struct Told<'a> {
    rest: &'a [u8],
    same: bool,
}

// What a run came to: the bytes behind it, how many records it has, and of how many something differed.
#[derive(Clone, Copy)]
struct Replayed<'a> {
    rest: &'a [u8],
    records: u64,
    differing: u64,
}

fn main(rt: HostRuntime) -> io::Result<()> {
    let mut input = Vec::new(rt.alloc());
    let mut room = Room {
        defs: [0; 65536],
        tuples: [0; 65536],
        reports: [0; 65536],
        paths: [0; 1024],
        names: [0; 32896],
        cells: [0; 16384],
    };
    rt.stdin().take(MOST as u64).read_to_end(&mut input)?;
    if input.len() == MOST {
        return println!(rt; "there is no room for all runs");
    }
    replay(&rt, &input, &mut room)
}

// All runs, one after the other; then how many there were, and how many records differed.
fn replay(rt: &impl Print, input: &[u8], room: &mut Room) -> io::Result<()> {
    let runs = u64::from(numbers::two_at(input, 0));
    let mut rest = texts::clipped(input, 2, input.len());
    let mut records: u64 = 0;
    let mut differing: u64 = 0;
    for run in 0..runs {
        let done = replay_run(rt, run + 1, rest, room)?;
        rest = done.rest;
        records += done.records;
        differing += done.differing;
    }
    println!(rt; "{runs} runs, {records} records, {differing} differ")?;
    tell_end(rt, rest)
}

// Bytes that are missing are read as 0, and what is past the end is passed over to the end. So an input that is cut off
// leaves no `E`, wherever that is.
fn tell_end(rt: &impl Print, rest: &[u8]) -> io::Result<()> {
    if rest.is_empty() {
        return println!(rt; "the input ends before its runs do");
    }
    if texts::same(rest, b"E") {
        return Ok(());
    }
    println!(rt; "the input goes on behind its runs")
}

// One run, from set-up on.
fn replay_run<'a>(
    rt: &impl Print,
    run: u64,
    stored: &'a [u8],
    room: &mut Room,
) -> io::Result<Replayed<'a>>
    ensures { IfOk result (λ done. (done.records ≤ 65535) × (done.differing ≤ 65535)) }
{
    let mut numbers = session::set_up();
    // Fixed memory: sixteen scopes, as the library takes them.
    let mut list = [Scope::default(); 16];
    let records = u64::from(numbers::two_at(stored, 0));
    let mut rest = texts::clipped(stored, 2, stored.len());
    let mut differing: u64 = 0;
    for place in 0..records {
        // where no whole record stands, an empty one is handed in, and is refused
        let (record, behind_it) = frames::split(rest).unwrap_or((&[], rest));
        let d = hand_in(numbers, list, record, room);
        let told = same_as_stored(behind_it, numbers, d.numbers, room);
        numbers = d.numbers;
        list = d.list;
        differing += u64::from(differs(rt, run, place + 1, d.reply, told.same)?);
        rest = told.rest;
    }
    Ok(Replayed {
        rest,
        records,
        differing,
    })
}

fn hand_in(n: Numbers, list: [Scope; 16], record: &[u8], room: &mut Room) -> Done {
    lent::record_by_value(
        n,
        list,
        record,
        &mut room.defs,
        &mut room.tuples,
        &mut room.reports,
        &mut room.paths,
        &mut room.names,
        &mut room.cells,
    )
}

// Whether a record was refused, or its reports are not those that are due, which is then told.
fn differs(rt: &impl Print, run: u64, place: u64, reply: Reply, same: bool) -> io::Result<bool> {
    if reply.is_ok() && same {
        return Ok(false);
    }
    let number = worlds::reply_number(reply);
    println!(rt; "run {run} record {place} differs, reply {number}")?;
    Ok(true)
}

// ---- one record

// Whether the reports of the latest record are those that are stored at the front.
fn same_as_stored<'a>(stored: &'a [u8], before: Numbers, after: Numbers, room: &Room) -> Told<'a> {
    same_reports(
        stored,
        output_stores::between(&room.reports, before.reports, after.reports),
        output_stores::used_of(&room.defs, after.definitions),
        output_stores::used_of(&room.tuples, after.tuples),
    )
}

// The same of the reports at hand, as many and in their order.
fn same_reports<'a>(stored: &'a [u8], new: &[u8], defs: &[u8], tuples: &[u8]) -> Told<'a> {
    let mut rest = texts::clipped(stored, 1, stored.len());
    let mut reports = new;
    let mut same = true;
    for _ in 0..numbers::byte_at(stored, 0) {
        let (report, behind_it) = reports::split_report(reports).unzip();
        let told = same_report(rest, report, defs, tuples);
        same &= told.same;
        rest = told.rest;
        reports = behind_it.unwrap_or(&[]);
    }
    Told {
        rest,
        same: same && reports.is_empty(),
    }
}

// Whether the report at hand is the one that is stored at the front. Where there is none, a report of zeros stands for
// it, and a stored one that says as much is taken for the same.
fn same_report<'a>(
    stored: &'a [u8],
    report: Option<Report>,
    defs: &[u8],
    tuples: &[u8],
) -> Told<'a> {
    let (name, keys) = split_text(texts::clipped(stored, 2, stored.len()));
    let named = constraints::named(defs, name);
    let report = report.unwrap_or_default();
    let told = same_keys(keys, tuples, report.tuple);
    let is_same = report.kind == numbers::byte_at(stored, 0)
        && report.field == numbers::byte_at(stored, 1)
        && output_stores::has(named, report.constraint);
    Told {
        rest: told.rest,
        same: is_same && told.same,
    }
}

// Whether the texts of the tuple with this number are those that are stored at the front. A report that uses no tuple
// has none: its number is 0, and no Option, since the report states it so.
fn same_keys<'a>(stored: &'a [u8], tuples: &[u8], number: u32) -> Told<'a> {
    let count = numbers::byte_at(stored, 0);
    let mut rest = texts::clipped(stored, 1, stored.len());
    let mut same = (count == 0) == (number == 0);
    for field in 0..count {
        let (key, behind_it) = split_text(rest);
        let held = tuples::tuple_field(tuples, number, u32::from(field));
        same &= texts::same(held, key);
        rest = behind_it;
    }
    Told { rest, same }
}

// ---- parts of the input, as far as they are there

// The text at the front, which has its length in two bytes before it, and the bytes behind it.
fn split_text(s: &[u8]) -> (&[u8], &[u8]) {
    let size = usize::from(numbers::two_at(s, 0));
    let text = texts::clipped(s, 2, s.len());
    text.split_at(within(text, size))
}

// A place, or the end where it is past it.
fn within(s: &[u8], at: usize) -> usize
    ensures { result ≤ length s.now }
{
    at.min(s.len())
}
