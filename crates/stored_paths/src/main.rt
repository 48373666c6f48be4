// Replays the stored answers of the original's path checker: asks `checker` every question of the standard input, and
// counts the answers that differ. An answer is stored as a kind byte, the path and the declared prefixes (each a
// two-byte length and the bytes), and a byte for what is due: 0 for a pass, n for refusal n, 100 + k for reason Xk. The
// host's `make_answers` makes them from the unchanged original.
#![tactic(auto)]

ghost use Rattle.std.specs.Prelude.{◌<◌, ◌≤◌, length, IfSome};

use checker::Fault;
use std::io;
use std::io::Read;

// So many bytes of the input leave no room for more.
const ROOM: usize = 262144;

// The first stored answer: how many bytes it takes, what the checker answers, and what is due.
// The size, and not the bytes behind it: so `ask` must show that an answer's last byte is there. A rest, being shorter
// in any case, would not.
#[derive(Clone, Copy)]
struct Asked {
    size: usize,
    given: u32,
    due: u32,
}

// How many answers were asked for, how many differ, and the bytes that are left: none, unless the input ends inside an
// answer.
#[derive(Clone, Copy)]
struct Counts<'a> {
    answers: u64,
    differing: u64,
    left: &'a [u8],
}

// `stored_runs` reads its input alike: one function for both would need a crate of its own, for these few lines.
fn main(rt: HostRuntime) -> io::Result<()> {
    let mut input = Vec::new(rt.alloc());
    rt.stdin().take(ROOM as u64).read_to_end(&mut input)?;
    if input.len() == ROOM {
        return println!(rt; "there is no room for all answers");
    }
    let Counts {
        answers,
        differing,
        left,
    } = ask_all(&rt, &input)?;
    println!(rt; "{answers} answers, {differing} differ")?;
    if !left.is_empty() {
        println!(rt; "the input ends inside an answer")?;
    }
    Ok(())
}

// Asks all questions, one after the other.
fn ask_all<'a>(rt: &impl Print, input: &'a [u8]) -> io::Result<Counts<'a>> {
    let mut left = input;
    let mut answers: u64 = 0;
    let mut differing: u64 = 0;
    while let Some(asked) = ask(left) {
        answers += 1;
        differing += u64::from(tell_wrong(rt, answers, asked)?);
        left = &left[asked.size..];
    }
    Ok(Counts {
        answers,
        differing,
        left,
    })
}

// Asks the question that stands first, unless the input ends inside it.
fn ask(rest: &[u8]) -> Option<Asked>
    ensures { IfSome result (λ a. (0 < a.size) × (a.size ≤ length rest.now)) }
{
    let path_end = 3 + usize::from(numbers::two_at(rest, 1));
    let prefixes_start = path_end + 2;
    let prefixes_end = prefixes_start + usize::from(numbers::two_at(rest, path_end));
    if prefixes_end >= rest.len() {
        return None;
    }
    let answer = checker::check_path(
        rest[0],
        &rest[3..path_end],
        &rest[prefixes_start..prefixes_end],
    );
    Some(Asked {
        size: prefixes_end + 1,
        given: number_of(answer),
        due: u32::from(numbers::byte_at(rest, prefixes_end)),
    })
}

// The number by which an answer is stored.
// The door has the same two arms: a function for both would be no shorter.
fn number_of(answer: Result<(), Fault>) -> u32 {
    match answer {
        Ok(()) => 0,
        Err(fault) => fault.number(),
    }
}

// Whether the answer is not the one that is due, which is then told.
fn tell_wrong(rt: &impl Print, place: u64, asked: Asked) -> io::Result<bool> {
    let Asked { given, due, .. } = asked;
    if given == due {
        return Ok(false);
    }
    println!(rt; "answer {place} is {given}, due is {due}")?;
    Ok(true)
}
