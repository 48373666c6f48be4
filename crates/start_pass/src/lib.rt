// The pure pass of an ES: which of the listed constraints open a scope, for which of the others kind 6 is reported, and
// which open scopes select the new element.
#![tactic(auto)]

ghost use Rattle.std.specs.Prelude.{◌≡◌, ◌+◌, ◌^◌, ◌≤◌, ◌<◌, cond};
ghost use Rattle.start_places.specs.StartPass.{Opens, Tells, Picks};
ghost use Rattle.start_places.specs.Turns.{OpensOne, NamedAs, TellsOne, PicksOne};

use constraints::Constraint;
use matching::Branch;
use open_scopes::{Scope, Scopes};

// ---- sets of places

// A set of places below j, with place j beside them where it is to be in it. A set is a bare number, here and below,
// for the reason beside `output_stores::has`.
fn with_place(set: u32, j: usize, here: bool) -> u32
    requires few { j ≤ 31 }
    requires low { set < 2 ^ j }
    ensures { result ≡ set + cond here (2 ^ j) 0 }
{
    set | u32::from(here) << j
}

// ---- scopes

// Whether the constraint with this number opens a scope: its paths read.
fn opens_one(defs: &[u8], number: u8, area: &mut [u8]) -> bool
    ensures { OpensOne defs.now number area.old result area.new }
{
    let own = constraints::own_of(defs, u32::from(number));
    constraint_paths::paths_read(own, area)
}

// Which of the listed constraints open a scope. Here and in `picks` no fold, and no function that takes the test: a
// closure would write the area, and what it has written would have to be carried from call to call, no more plainly.
pub fn opens(defs: &[u8], numbers: &[u8], area: &mut [u8]) -> u32
    ensures { Opens defs.now numbers.now area.old result area.new }
{
    let mut set = 0u32;
    for (j, &number) in numbers.iter().take(32).enumerate() {
        let here = opens_one(defs, number, area);
        set = with_place(set, j, here);
    }
    set
}

// ---- kind 6

// The constraints that bear the name of the one with this number.
fn named_as(defs: &[u8], number: u8) -> u32
    ensures { NamedAs defs.now number result }
{
    let constraint = Constraint::numbered(defs, u32::from(number));
    constraints::named(defs, constraint.name())
}

// Whether kind 6 is reported for the number at this place: its paths do not read, and it was not reported for its name,
// neither in this event nor before.
fn tells_one(defs: &[u8], number: u8, place: u8, opened: u32, said: u32, reports: &[u8]) -> bool
    ensures { TellsOne defs.now number place opened said reports.now result }
{
    if output_stores::has(opened, place) || output_stores::has(said, number) {
        return false;
    }
    !reports::told(reports, named_as(defs, number))
}

// For which of the others kind 6 is reported now: of each name the first, and only where it was not reported before. A
// place is below 32, so that its conversion loses nothing; try_from would add an error that never is.
pub fn tells(defs: &[u8], numbers: &[u8], opened: u32, reports: &[u8]) -> u32
    ensures { Tells defs.now numbers.now opened reports.now result }
{
    let mut set = 0u32;
    // The constraints for whose names kind 6 is reported in this event.
    let mut said: u32 = 0;
    for (j, &number) in numbers.iter().take(32).enumerate() {
        let here = tells_one(defs, number, j as u8, opened, said, reports);
        if here {
            said |= named_as(defs, number);
        }
        set = with_place(set, j, here);
    }
    set
}

// ---- selections

// Whether the open scope selects the element at this depth, seen from its own element.
fn picks_one(defs: &[u8], s: Scope, names: &[u8], depth: u32, area: &mut [u8]) -> bool
    ensures { PicksOne defs.now s names.now depth area.old result area.new }
{
    let own = constraints::own_of(defs, s.constraint);
    let on = Branch {
        names,
        base: s.depth,
        depth,
    };
    constraint_paths::takes(own, defs, &on, area)
}

// Which open scopes select the element at depth `depth`.
pub fn picks(defs: &[u8], scopes: Scopes, names: &[u8], depth: u32, area: &mut [u8]) -> u32
    ensures { Picks defs.now scopes names.now depth area.old result area.new }
{
    let mut set = 0u32;
    for (j, &scope) in scopes.open().iter().enumerate() {
        let here = picks_one(defs, scope, names, depth, area);
        set = with_place(set, j, here);
    }
    set
}
