// What the calls on an ES and an FI decide and hand on from one step to the next. What they and the call on an EE
// promise stands in specs.
#![tactic(auto)]

ghost use Rattle.std.specs.Prelude.{◌≡◌};
ghost use Rattle.event_answers.specs.InPlace.{placed};

use open_scopes::Scopes;
use worlds::SessionRefusal;

// ---- what stands against an event by the counts

// 11 and 19, and then what this event is refused for where it is misplaced among the elements.
// The test and the refusal are no Option: each caller has both, and would make it first. The stage is a number, here
// and in `Spot`, for the reason beside `open_scopes::Counts`.
#[tactic(auto, unfolding(crate::specs::InPlace::placed))]
pub fn in_place(
    stage: u32,
    events: u64,
    is_misplaced: bool,
    why: SessionRefusal,
) -> Result<(), SessionRefusal>
    ensures { result ≡ placed stage events is_misplaced why }
{
    if stage == 66 {
        return Err(SessionRefusal::OutOfPlace);
    }
    if 1000000 <= events {
        return Err(SessionRefusal::TooManyEvents);
    }
    if is_misplaced {
        return Err(why);
    }
    Ok(())
}

// ---- an ES

// Where the new element stands: the number of its event, how many elements are open above it, its own depth and the
// stage then; how many selections are open and how many scopes were opened before it.
#[derive(Clone, Copy)]
pub struct Spot {
    pub event: u32,
    pub above: u32,
    pub depth: u32,
    pub stage: u32,
    pub selections: u32,
    pub opened: u32,
}

// What the element is to bring: the open scopes with its own and how many these are, the open scopes that select it,
// and the listed numbers that kind 6 is reported for. The two sets are bare numbers for the reason beside
// `output_stores::has`.
#[derive(Clone, Copy)]
pub struct Plan {
    pub scopes: Scopes,
    pub opened: u32,
    pub picked: u32,
    pub told: u32,
}

// ---- an FI: which constraints answer which, and the reports of kind 5

// For each constraint there can be, by its number: the constraints that answer its tuples, a bit for each, where it is
// a keyref.
// Fixed memory: the library takes no heap.
#[derive(Clone, Copy)]
pub struct Refs {
    pub list: [Option<u32>; 32],
}
