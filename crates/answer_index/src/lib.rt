// The index of the tuples that answer keyrefs, made at the end of a document: whether a tuple of the constraints that a
// keyref refers to has its texts, found in a few steps. It stands in the slots of a table as the tuple index does.
#![tactic(auto)]

ghost use Rattle.std.specs.Prelude.{◌≡◌, drop};
ghost use Rattle.lists.specs.Answers.{given};
ghost use Rattle.session_spec.specs.Definitions.{frame};
ghost use Rattle.output_stores.specs.Stores.{standing};
ghost use Rattle.tuple_search.specs.Search.{answered_by};
ghost use Rattle.answer_index.specs.Answers.{class_given, class_for, Tells, Moves, Steps, Extends, Notes};

use tuple_index::{Head, Slot, Sought};

// ---- classes

// A class as a byte says it, of which 255 is none. The classes lie in bytes that are lent, one for each constraint.
// answered_by and note_answers take them as they lie there, since any byte may be handed in.
fn given_class(class: u8) -> Option<u8>
    ensures { given result ≡ class_given class }
{
    (class < 255).then_some(class)
}

// The class of a constraint. None past the last.
fn class_at(classes: &[u8], constraint: u8) -> Option<u8>
    ensures { given result ≡ class_for classes.now constraint }
{
    given_class(*classes.get(usize::from(constraint))?)
}

// ---- an answer looked for

// Whether a tuple of one of the constraints in the set has these texts. The set is that of the class.
// Set and texts go on together, here and in tuple_places and tuple_search. A struct of both would be no plainer: each
// contract speaks of the two, and is_answer, where all of them end, takes them apart.
pub fn answered_by(used: &[u8], table: &[u32], class: u8, named: u32, texts: &[u8]) -> bool
    ensures { Tells used.now table.now class named texts.now result }
{
    let Some(head) = tuple_index::read_head(table) else {
        return tuple_search::answered(used, named, texts);
    };
    let Some(own) = given_class(class) else {
        return false;
    };
    let sought = Sought::of(Some(u32::from(own) + 1), 8, texts);
    let slots = tuple_index::in_use(table);
    tuple_index::find_slot(used, slots, &sought).is_some()
        || answered_behind(used, head.covered(), named, texts)
}

// The same among the tuples from a place on.
fn answered_behind(used: &[u8], from: usize, named: u32, texts: &[u8]) -> bool
    ensures { result ≡ answered_by named texts.now (standing frame (drop from used.now)) }
{
    tuple_search::answered(used.get(from..).unwrap_or(&[]), named, texts)
}

// ---- answers noted

// Table and store go on as two, of which one is written, for the reason at the head of tuple_index. Nor are used bytes
// and classes a struct: each contract speaks of the two, and note_next asks them one by one.

// Makes the index of the tuples whose constraint has a class. `classes` has one for each constraint, 255 where it
// answers no keyref. A tuple that finds no slot is the first that is not covered.
pub fn note_answers(table: &mut [u32], used: &[u8], classes: &[u8])
    ensures { Notes classes.now table.old used.now table.new }
{
    tuple_index::empty_for(table, used);
    note_behind(table, used, classes);
}

// Notes the tuples that the table does not cover yet.
fn note_behind(table: &mut [u32], used: &[u8], classes: &[u8])
    ensures { Extends classes.now table.old used.now table.new }
{
    let Some(head) = tuple_index::read_head(table) else {
        return;
    };
    let end = tuple_index::slots_end(table);
    let next = note_all(&mut table[4..end], used, classes, head.next);
    tuple_index::write_head(table, Head { next, ..head });
}

// The same over the slots in use, from a place on, which counts from 1. A record is entered by tuple_index::enter_slot;
// one walk for both indexes (note_behind, note_all, note_next; enter_new, enter_all, enter_next) would be no plainer,
// as it would be handed the step and what that keeps true.
fn note_all(slots: &mut [u32], used: &[u8], classes: &[u8], next: u32) -> u32
    ensures { Moves classes.now next slots.old used.now result slots.new }
{
    let mut at = next;
    while let Some(after) = note_next(slots, used, classes, at) {
        at = after;
    }
    at
}

// Notes the tuple at a place, and answers the place behind it. One of no class is passed over, and so is one whose
// class and texts stand in a slot already. Where there is none, or no slot, all stays as it was.
fn note_next(slots: &mut [u32], used: &[u8], classes: &[u8], next: u32) -> Option<u32>
    ensures { Steps classes.now next slots.old used.now result slots.new }
{
    let after = tuple_index::next_place(used, next)?;
    let constraint = numbers::byte_at(tuple_index::tail_from(used, 3, next), 0);
    let Some(own) = class_at(classes, constraint) else {
        return Some(after);
    };
    let number = u32::from(own) + 1;
    let texts = tuple_index::tail_from(used, 8, next);
    let sought = Sought::of(Some(number), 8, texts);
    let slot = Slot {
        place: next,
        number,
        hash: sought.hash,
    };
    tuple_index::enter_slot(slots, used, slot, &sought)?;
    Some(after)
}

// ---- the end of the code
