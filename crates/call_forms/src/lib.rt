// What is decided where numbers and scopes cross a door: whether there is a list of sixteen scopes, and what is handed
// out of what a call left.
// Replies leave as numbers here, each number by a place of its own, and scopes as sixteen records in fixed memory: C
// has no Result, and lends five places and sixteen scopes, however many are open.
#![tactic(auto)]

ghost use Rattle.std.specs.Prelude.{◌≡◌, cond, leb, length};
ghost use Rattle.session_spec.specs.Definitions.{is_some};
ghost use Rattle.calls.specs.Buffers.{next_frame};
ghost use Rattle.call_forms.specs.Doors.{HandsOutRecord, HandsOutRun};

use open_scopes::{Numbers, Scope};
use worlds::{Refused, Reply};

// Whether an area holds sixteen scopes. They have 12 bytes each.
// A test before the loading, and no Option of what is loaded: `load_scopes` takes a shorter area too.
pub fn holds_sixteen(scopes: &[u8]) -> bool
    ensures { result ≡ leb 192 (length scopes.now) }
{
    192 <= scopes.len()
}

// What a run is answered by where there is no such list: as a session that is not well formed, but where no frame is
// whole at the front of the buffer none is refused. `session::run` has the same match, for a Reply: one function that
// both ask would be no shorter.
#[tactic(auto, unfolding(session_spec::specs::Definitions::is_some, session_spec::specs::Session::reply_number, records::specs::Refusals::refusal_number))]
pub fn unfit_number(buffer: &[u8]) -> u32
    ensures { result ≡ cond (is_some (next_frame buffer.now)) 10 0 }
{
    match calls::next_frame(buffer) {
        Some(_) => Refused::Unfit.number(),
        None => 0,
    }
}

// Each of a session's numbers to its own place.
pub fn hand_out_numbers(
    n: Numbers,
    events: &mut u64,
    running: &mut u64,
    dused: &mut u64,
    tused: &mut u64,
    rused: &mut u64,
)
    ensures { record { events = events.exit.now; running = running.new; definitions = dused.new; tuples = tused.new; reports = rused.new } ≡ n }
{
    *events = n.events;
    *running = n.running;
    *dused = n.definitions;
    *tused = n.tuples;
    *rused = n.reports;
}

// The number of a reply to a record. The scopes that the call left are written where the record was taken.
pub fn hand_out_record(reply: Reply, list: [Scope; 16], scopes: &mut [u8]) -> u32
    ensures { HandsOutRecord reply list scopes.old result scopes.new }
{
    match reply {
        Ok(()) => {
            scope_bytes::store_scopes(scopes, list);
            0
        }
        Err(refused) => refused.number(),
    }
}

// The number of a reply to a run that took so many bytes. The scopes are written where a record was taken, though a
// later one was refused.
pub fn hand_out_run(reply: Reply, list: [Scope; 16], bytes: usize, scopes: &mut [u8]) -> u32
    ensures { HandsOutRun reply list bytes scopes.old result scopes.new }
{
    let number = worlds::reply_number(reply);
    if bytes == 0 {
        return number;
    }
    scope_bytes::store_scopes(scopes, list);
    number
}
