// What a call does on an ID and on an NS: the refusals because of the session, and the record kept whole behind the
// used bytes of the definition store.
#![tactic(auto)]

ghost use Rattle.std.specs.Prelude.{◌≡◌, take};
ghost use Rattle.std.specs.Option.{ok_or};
ghost use Rattle.std.specs.declared.result.Result.TheVariants.{Err};
ghost use mathlib.Core.Option.{some};
ghost use Rattle.session_spec.specs.Definitions.{read_definitions};
ghost use Rattle.record_places.specs.Places.{text_in};
ghost use Rattle.definition_store.specs.declared.Against.TheVariants.{Full};
ghost use Rattle.definition_store.specs.Store.{defined_by, stands_against};
ghost use Rattle.worlds.specs.Replies.{because_of_session, reason_of};
ghost use Rattle.defining.specs.Deciding.{room_for, against, decided, id_judged, ns_judged, Answers};
ghost use Rattle.defining.specs.Defining.{TakesId, TakesNs};

use definition_store::{Against, Tally};
use open_scopes::{Numbers, Scope};
use record_places::Ns;
use worlds::{Done, SessionRefusal};

// ---- what stands against a definition

// Used length, size and room are no struct: it would be made in `decide` and read in `room_for`, and be no plainer.

// 18: what is left of the store is shorter than the record. The difference can't wrap, and a sum could.
// By two comparisons: `checked_sub` with a closure would be no plainer.
fn room_for(used: usize, size: usize, room: usize) -> Result<(), SessionRefusal>
    ensures { reason_of result ≡ room_for used size room }
{
    if room < used || room - used < size {
        return Err(SessionRefusal::DefinitionsFull);
    }
    Ok(())
}

// The refusal that says it. No `From`: both types are of crates below.
fn because_of(a: Against) -> SessionRefusal
    ensures { some (because_of_session result) ≡ stands_against (Err a) }
{
    match a {
        Against::Undefined => SessionRefusal::Undefined,
        Against::BoundTwice => SessionRefusal::BoundTwice,
        Against::Full => SessionRefusal::DefinitionsFull,
    }
}

fn refused(v: Result<(), Against>) -> Result<(), SessionRefusal>
    ensures { reason_of result ≡ stands_against v }
{
    v.map_err(because_of)
}

// 12, 17 and 18, by the verdict of the definitions that are there.
#[tactic(auto, unfolding(crate::specs::Deciding::against))]
fn weigh(
    v: Result<(), Against>,
    used: usize,
    size: usize,
    room: usize,
) -> Result<(), SessionRefusal>
    ensures { reason_of result ≡ against (stands_against v) used size room }
{
    refused(v)?;
    room_for(used, size, room)
}

// 11 and 19, and then the others.
// Its own two: a definition is out of place but at stage 0, and an event at 66 alone. That is asked in
// `event_answers`, on which this crate does not stand.
fn decide(
    n: Numbers,
    v: Result<(), Against>,
    size: usize,
    room: usize,
) -> Result<(), SessionRefusal>
    ensures { reason_of result ≡ decided n (stands_against v) size room }
{
    let counts = open_scopes::unpack(n.running);
    if counts.stage != 0 {
        return Err(SessionRefusal::OutOfPlace);
    }
    if 1000000 <= n.events {
        return Err(SessionRefusal::TooManyEvents);
    }
    weigh(v, n.definitions as usize, size, room)
}

// ---- the verdict of the definitions that are there

// What the used bytes come to. Of bytes that are no definitions nothing is asked: a session that holds them is refused
// before.
fn tally_of(used: &[u8]) -> Result<Tally, Against>
    ensures { result ≡ ok_or (defined_by (read_definitions used.now)) Full }
{
    definition_store::read_definitions(used).ok_or(Against::Full)
}

// It begins as `verdict_ns` does: one function that is handed the judgement would be no shorter.
fn verdict_id(n: Numbers, defs: &[u8]) -> Result<(), Against>
    ensures { stands_against result ≡ id_judged (take n.definitions defs.now) }
{
    let used = output_stores::used_of(defs, n.definitions);
    let tally = tally_of(used)?;
    definition_store::judge_id(tally)
}

fn verdict_ns(n: Numbers, ns: Ns, rec: &[u8], defs: &[u8]) -> Result<(), Against>
    ensures { stands_against result ≡ ns_judged (take n.definitions defs.now) ns.target (text_in rec.now ns.prefix) }
{
    let used = output_stores::used_of(defs, n.definitions);
    let tally = tally_of(used)?;
    definition_store::judge_ns(used, tally, ns.target, record_walk::text_in(rec, ns.prefix))
}

// ---- the record

// Refuses, or keeps the record and counts it. Where nothing stands against it there are events left to count and there
// is room.
fn take_definition(
    n: Numbers,
    list: [Scope; 16],
    v: Result<(), Against>,
    rec: &[u8],
    defs: &mut [u8],
) -> Done
    ensures { Answers n list (stands_against v) rec.now defs.old result defs.new }
{
    match decide(n, v, rec.len(), defs.len()) {
        Err(c) => worlds::refusing(n, list, c),
        Ok(()) => {
            let used = n.definitions as usize;
            let next = output_stores::append_bytes(defs, used, rec);
            let events = n.events + 1;
            let definitions = next as u64;
            Done {
                reply: Ok(()),
                numbers: Numbers {
                    events,
                    definitions,
                    ..n
                },
                list,
            }
        }
    }
}

// An ID. The open scopes stay as they are.
pub fn take_id(n: Numbers, list: [Scope; 16], rec: &[u8], defs: &mut [u8]) -> Done
    ensures { TakesId n list rec.now defs.old result defs.new }
{
    let constraint = verdict_id(n, defs);
    take_definition(n, list, constraint, rec, defs)
}

// An NS, by its places in the record.
pub fn take_ns(n: Numbers, list: [Scope; 16], ns: Ns, rec: &[u8], defs: &mut [u8]) -> Done
    ensures { TakesNs n list ns rec.now defs.old result defs.new }
{
    let binding = verdict_ns(n, ns, rec, defs);
    take_definition(n, list, binding, rec, defs)
}

// ---- the end of the code
