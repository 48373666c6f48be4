// What a finished selection comes to, by the bytes of its cells: kinds 1, 2, 3 and 7, or a complete tuple. The bytes
// are lent and have four cells, so that how many fields count is a number beside them.
#![tactic(auto)]

ghost use Rattle.std.specs.Prelude.{◌≡◌, ◌<◌, ◌≤◌, MatchOption};
ghost use Rattle.tree.specs.Judge.{outcome, keys_of};
ghost use Rattle.cells.specs.Cells.{state_number};
ghost use Rattle.outcomes.specs.Outcomes.{cells_in, cells_from, first_with, numbered, said};

use cells::State;

// Several nodes for a field; an element without a simple value; the lowest field that is missing; the lowest that is
// set on an element declared nillable, where every field is set; or every field set on others.
#[derive(Clone, Copy)]
pub enum Outcome {
    Several,
    NotSimple,
    Missing(usize),
    Nillable(usize),
    Complete,
}

// The outcome of the selection whose cells these are, of a constraint with so many fields: a selection has four cells
// at most. Multiple is asked first, then NotSimple, then Unset, and last whether a field is marked.
pub fn outcome_of(cells: &[u8], fields: usize) -> Outcome
    ensures { said result (keys_of (cells_in fields cells.now)) ≡ numbered (outcome (cells_in fields cells.now)) }
{
    let n = fields.min(4);
    if first_with(cells, n, State::Multiple).is_some() {
        return Outcome::Several;
    }
    if first_with(cells, n, State::NotSimple).is_some() {
        return Outcome::NotSimple;
    }
    if let Some(unset) = first_with(cells, n, State::Unset) {
        return Outcome::Missing(unset);
    }
    if let Some(marked) = first_with(cells, n, State::Nillable) {
        return Outcome::Nillable(marked);
    }
    Outcome::Complete
}

// The place of the first of n cells with this state.
fn first_with(cells: &[u8], n: usize, state: State) -> Option<usize>
    requires { n ≤ 4 }
    ensures { MatchOption result (n ≤ first_with (state_number state) (cells_from n cells.now)) (λ i. (i ≡ first_with (state_number state) (cells_from n cells.now)) × (i < n)) }
{
    (0..n).position(|i| cells::state_at(cells, 128 * i) == state)
}

// ---- the end of the code
