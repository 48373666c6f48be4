// Reads records on standard input and runs them as a session: a line for each report as it arises, and a last line that
// says how the run ended (document 01, 'One run, whole'). What a record does is the library's; here the input is cut
// into pieces, and the answers are written out.
#![tactic(auto)]

ghost use Rattle.std.specs.Prelude.{◌≤◌, length, true, false};
ghost use Rattle.call_forms.specs.Input.{Grown, Kept, Takes};

use calls::RunDone;
use lines::Line;
use open_scopes::{Numbers, Scope};
use std::io;
use std::io::Read;
use worlds::Refused;

// The stores are as long as document 01 has them, the areas as short as a session may have them. The input has room for
// a piece beside the longest frame that is not whole, so there is always more to read.
// Fixed memory, with a length beside the input: nothing here takes heap, so nothing can fail to be allocated.
// `stored_runs` has six of these arrays too: one type for both would need a crate of its own, and is no plainer.
#[derive(Drop)]
struct Room {
    input: [u8; 131072],
    defs: [u8; 65536],
    tuples: [u8; 65536],
    reports: [u8; 65536],
    paths: [u8; 1024],
    names: [u8; 32896],
    cells: [u8; 16384],
}

fn main(rt: HostRuntime) -> io::Result<()> {
    let mut room = Room {
        input: [0; 131072],
        defs: [0; 65536],
        tuples: [0; 65536],
        reports: [0; 65536],
        paths: [0; 1024],
        names: [0; 32896],
        cells: [0; 16384],
    };
    println!(rt; "event kind constraint field scope tuple")?;
    check_input(&rt, &mut rt.stdin(), &mut room)
}

// Piece by piece, until a record is refused or the input ends. A proved loop has to end, and nothing says that an input
// does: so the turns are counted, up to a number that no run uses up.
fn check_input(rt: &impl Print, from: &mut impl Read, room: &mut Room) -> io::Result<()> {
    let mut numbers = session::set_up();
    // Fixed memory: sixteen scopes, as the library takes them.
    let mut list = [Scope::default(); 16];
    let mut held: usize = 0;
    'pieces: for _ in 0..u64::MAX {
        let end = read_behind(from, &mut room.input, held);
        if end == held {
            return check_rest(rt, numbers, list, held, room);
        }
        let d = take_frames(
            numbers,
            list,
            &room.input[..end],
            &mut room.defs,
            &mut room.tuples,
            &mut room.reports,
            &mut room.paths,
            &mut room.names,
            &mut room.cells,
        );
        print_reports(rt, &room.reports, numbers.reports, d.last.numbers.reports)?;
        numbers = d.last.numbers;
        list = d.last.list;
        if let Err(refused) = d.last.reply {
            return print_refused(rt, numbers.events, refused);
        }
        held = keep_rest(&mut room.input, d.bytes, end);
    }
    Ok(())
}

// The input has ended: what is held is handed in, and the last line says how the run ended.
fn check_rest(
    rt: &impl Print,
    n: Numbers,
    list: [Scope; 16],
    held: usize,
    room: &mut Room,
) -> io::Result<()>
    requires { held ≤ 131072 }
{
    let d = take_rest(
        n,
        list,
        &room.input[..held],
        &mut room.defs,
        &mut room.tuples,
        &mut room.reports,
        &mut room.paths,
        &mut room.names,
        &mut room.cells,
    );
    let left = d.last.numbers;
    print_reports(rt, &room.reports, n.reports, left.reports)?;
    match d.last.reply {
        Ok(()) => print_end(rt, left, &room.tuples),
        Err(refused) => print_refused(rt, left.events, refused),
    }
}

// ---- the input

// Reads once behind the bytes that are held, and answers where they end then: at the same place where the input has
// ended. A read that fails ends it too.
// No Option: as `read` has it, no bytes more are the end.
fn read_behind(from: &mut impl Read, input: &mut [u8], held: usize) -> usize
    requires { held ≤ length input.old }
    ensures { Grown input.old held result input.new }
{
    let more = from.read(&mut input[held..]).unwrap_or(0);
    held + more
}

// The frames of a piece that are whole. The stores and areas stand apart, here and in take_rest: the piece is borrowed
// from the room's input, so a room in their place would be lent with an end and taken apart for the call again, and
// each contract would promise, too, that the input stays.
fn take_frames(
    n: Numbers,
    list: [Scope; 16],
    piece: &[u8],
    defs: &mut [u8],
    tuples: &mut [u8],
    reports: &mut [u8],
    paths: &mut [u8],
    names: &mut [u8],
    cells: &mut [u8],
) -> RunDone
    ensures { Takes n list piece.now false defs.old tuples.old reports.old paths.old names.old cells.old result defs.new tuples.new reports.new paths.new names.new cells.new }
{
    session::run(n, list, piece, defs, tuples, reports, paths, names, cells)
}

// What is left when the input has ended is not whole, and is handed in as it is, if there is any.
fn take_rest(
    n: Numbers,
    list: [Scope; 16],
    piece: &[u8],
    defs: &mut [u8],
    tuples: &mut [u8],
    reports: &mut [u8],
    paths: &mut [u8],
    names: &mut [u8],
    cells: &mut [u8],
) -> RunDone
    ensures { Takes n list piece.now true defs.old tuples.old reports.old paths.old names.old cells.old result defs.new tuples.new reports.new paths.new names.new cells.new }
{
    if piece.is_empty() {
        return session::run(n, list, piece, defs, tuples, reports, paths, names, cells);
    }
    let last = session::record_call(n, list, piece, defs, tuples, reports, paths, names, cells);
    RunDone { last, bytes: 0 }
}

// Moves the bytes from a place to the end of a piece to the front, and answers how many they are.
fn keep_rest(input: &mut [u8], from: usize, end: usize) -> usize
    requires { end ≤ length input.old }
    ensures { Kept input.old from end result input.new }
{
    let start = from.min(end);
    input.copy_within(start..end, 0);
    end - start
}

// ---- the output

// A line for each report from one used length of the report store to the next.
fn print_reports(rt: &impl Print, reports: &[u8], before: u64, after: u64) -> io::Result<()> {
    for report in output_stores::between(reports, before, after).chunks_exact(18) {
        print_line(rt, lines::report_line(report))?;
    }
    Ok(())
}

// The last line of a run in which every record was taken. A report has eighteen bytes.
fn print_end(rt: &impl Print, n: Numbers, tuples: &[u8]) -> io::Result<()> {
    let used = output_stores::used_of(tuples, n.tuples);
    let count = lines::tuple_count(used);
    print_line(rt, lines::end_line(n.events, count, n.reports / 18))
}

// The last line of a run that ends at a refusal. All records before the refused one were taken, so its place is one
// more than the events, of which there are a million at most.
fn print_refused(rt: &impl Print, events: u64, refused: Refused) -> io::Result<()> {
    let place = events.wrapping_add(1);
    let number = refused.number();
    print_line(rt, lines::refused_line(place, u64::from(number)))
}

fn print_line(rt: &impl Print, line: Line) -> io::Result<()> {
    rt.write_all(texts::clipped(&line.bytes, 0, line.size))
}
