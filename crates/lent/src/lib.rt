// The record call over what is lent: the session's five numbers behind one reference, the open scopes as a list of
// records. Thin functions over the call that works by value. The stores and areas stay parameters: a struct of lent
// parts would ask one clause more of each contract, that each part still points where it pointed.
#![tactic(auto)]

ghost use Rattle.calls.specs.Calls.{Called};
ghost use Rattle.call_forms.specs.Lent.{lent, Recorded};

use open_scopes::{Numbers, Scope};
use worlds::{Done, Refused, Reply};

// THE RECORD CALL. A list under sixteen records is refused before anything. A call that refuses hands out what it was
// given, so what is stored then changes nothing. What is behind the sixteen stays.
pub fn record_lent(
    s: &mut Numbers,
    scopes: &mut [Scope],
    rec: &[u8],
    defs: &mut [u8],
    tuples: &mut [u8],
    reports: &mut [u8],
    paths: &mut [u8],
    names: &mut [u8],
    cells: &mut [u8],
) -> Reply
    ensures { Recorded (lent s.old scopes.old defs.old tuples.old reports.old paths.old names.old cells.old) rec.now result (lent s.new scopes.new defs.new tuples.new reports.new paths.new names.new cells.new) }
{
    let Some(held) = scopes.first_chunk_mut::<16>() else {
        return Err(Refused::Unfit);
    };
    let d = session::record_call(*s, *held, rec, defs, tuples, reports, paths, names, cells);
    *s = d.numbers;
    let list = d.list;
    *held = list;
    d.reply
}

// THE SAME BY VALUE. `session::record_call` promises the same: this stands beside it so that runs that are replayed go
// through the lent form (docs/DECISIONS.md, D75).
// The list is fixed memory: C lends sixteen scopes, however many are open.
pub fn record_by_value(
    n: Numbers,
    list: [Scope; 16],
    rec: &[u8],
    defs: &mut [u8],
    tuples: &mut [u8],
    reports: &mut [u8],
    paths: &mut [u8],
    names: &mut [u8],
    cells: &mut [u8],
) -> Done
    ensures { Called n list rec.now defs.old tuples.old reports.old paths.old names.old cells.old result defs.new tuples.new reports.new paths.new names.new cells.new }
{
    let mut numbers = n;
    let mut scopes = list;
    let reply = record_lent(
        &mut numbers,
        &mut scopes,
        rec,
        defs,
        tuples,
        reports,
        paths,
        names,
        cells,
    );
    Done {
        reply,
        numbers,
        list: scopes,
    }
}
