// The definition store: whether its bytes are definitions, what these come to, and what stands against one more.
#![tactic(auto)]

ghost use Rattle.std.specs.Prelude.{◌≡◌};
ghost use Rattle.records.specs.Records.{parse};
ghost use Rattle.session_spec.specs.Definitions.{read_definitions};
ghost use Rattle.definition_store.specs.Store.{stands_against, defined_by, lacks_target, bound_again, id_verdict, ns_verdict};
ghost use Rattle.definition_store.specs.Counting.{with_id, with_ns, if_good, counted_by};

use frames::Records;
use record_places::Record;

// What the definitions of a store come to: how many constraints, how many fields the latest has, how many bindings.
#[derive(Clone, Copy, Debug, Default, PartialEq, Eq)]
pub struct Tally {
    pub constraints: u32,
    pub fields: u32,
    pub bindings: u32,
}

// What stands against one more definition: 12, 17 and 18 in document 01.
#[derive(Clone, Copy, Debug, PartialEq, Eq)]
pub enum Against {
    Undefined,
    BoundTwice,
    Full,
}

// ---- one definition more

// A 33rd constraint is one too many.
pub fn judge_id(t: Tally) -> Result<(), Against>
    ensures { stands_against result ≡ id_verdict t }
{
    if 32 <= t.constraints {
        return Err(Against::Full);
    }
    Ok(())
}

// Whether the target is no path of the latest ID, or there is no ID. Any number of fields may be handed in, so the sum
// is a wider number. The target is the byte of an NS and no enum, here and below: any may be handed in, also from C.
fn lacks_target(t: Tally, target: u8) -> bool
    ensures { result ≡ lacks_target t target }
{
    if target == 0 {
        return false;
    }
    if t.constraints == 0 {
        return true;
    }
    u64::from(t.fields) + 2 <= u64::from(target)
}

// Whether the target is schema-wide, and a record before it binds the prefix so.
// Here and below neither target and prefix nor used bytes and tally are a struct: C hands them in one by one, and the
// definitions take them so.
fn is_bound_again(used: &[u8], target: u8, prefix: &[u8]) -> bool
    ensures { result ≡ bound_again used.now target prefix.now }
{
    target == 0 && bindings::is_bound(used, 0, prefix)
}

// A target without its path, a schema-wide prefix bound again, a 65th binding: the first of these.
pub fn judge_ns(used: &[u8], t: Tally, target: u8, prefix: &[u8]) -> Result<(), Against>
    ensures { stands_against result ≡ ns_verdict used.now t target prefix.now }
{
    if lacks_target(t, target) {
        return Err(Against::Undefined);
    }
    if is_bound_again(used, target, prefix) {
        return Err(Against::BoundTwice);
    }
    if 64 <= t.bindings {
        return Err(Against::Full);
    }
    Ok(())
}

// ---- the whole store

// The tally with one more constraint of so many fields.
fn count_id(t: Tally, fields: u32) -> Option<Tally>
    ensures { result ≡ if_good (id_verdict t) (with_id fields t) }
{
    judge_id(t).ok()?;
    Some(Tally {
        constraints: t.constraints + 1,
        fields,
        ..t
    })
}

// The tally with one more binding.
fn count_ns(used: &[u8], t: Tally, target: u8, prefix: &[u8]) -> Option<Tally>
    ensures { result ≡ if_good (ns_verdict used.now t target prefix.now) (with_ns t) }
{
    judge_ns(used, t, target, prefix).ok()?;
    Some(Tally {
        bindings: t.bindings + 1,
        ..t
    })
}

// The tally with one more record, where that is a definition and nothing stands against it. A count is one byte in the
// record, so that its conversion loses nothing; try_from would add an error that never is.
fn count_record(used: &[u8], t: Tally, rec: &[u8]) -> Option<Tally>
    ensures { result ≡ counted_by used.now t (parse rec.now) }
{
    match record_walk::walk_record(rec) {
        Ok(Record::Id(id)) => count_id(t, id.count as u32),
        Ok(Record::Ns(ns)) => count_ns(used, t, ns.target, record_walk::text_in(rec, ns.prefix)),
        Ok(Record::Es(_)) => None,
        Ok(Record::Ee(_)) => None,
        Ok(Record::Fi) => None,
        Err(_) => None,
    }
}

// Whether the used bytes are definitions and nothing else, each as it would be taken once more; and what they come to.
// Where what is left begins with no whole record, the records end before the bytes do. The place is added up in the
// loop: try_fold would carry it beside the tally, no more plainly.
pub fn read_definitions(used: &[u8]) -> Option<Tally>
    ensures { result ≡ defined_by (read_definitions used.now) }
{
    let mut tally = Tally::default();
    let mut before = 0;
    for record in Records(used) {
        tally = count_record(&used[..before], tally, record)?;
        before += record.len();
    }
    (before == used.len()).then_some(tally)
}

// ---- the end of the code
