// What a call answers: the record was taken, or why it was refused, with document 01's number for each.
#![tactic(auto)]

ghost use Rattle.std.specs.Prelude.{◌≡◌};
ghost use Rattle.std.specs.declared.result.Result.TheVariants.{Err};
ghost use Rattle.records.specs.Refusals.{refusal_number};
ghost use Rattle.session_spec.specs.Session.{reply_number};
ghost use Rattle.worlds.specs.Replies.{because_of_session, reply_of, refusal};

use open_scopes::{Numbers, Scope};
use record_places::Refusal;

// Why a record is refused because of the session, in the order of the tests, each with document 01's number.
#[derive(Clone, Copy)]
pub enum SessionRefusal {
    OutOfPlace = 11,
    TooManyEvents = 19,
    Undefined = 12,
    Unbalanced = 13,
    BoundTwice = 17,
    DefinitionsFull = 18,
    TooDeep = 14,
    TooManyScopes = 20,
    TooManySelections = 21,
    TuplesFull = 15,
    ReportsFull = 16,
}

// Why a record is refused: the session is not well formed, or because of the input, or because of the session.
#[derive(Clone, Copy)]
pub enum Refused {
    Unfit,
    Input(Refusal),
    Session(SessionRefusal),
}

// What a record is answered by: it was taken, or why it is refused.
pub type Reply = Result<(), Refused>;

// What a call answers, the session's numbers and the open scopes after it.
// The list is fixed memory: C lends sixteen scopes, however many are open, and the library takes no heap.
#[derive(Drop)]
pub struct Done {
    pub reply: Reply,
    pub numbers: Numbers,
    pub list: [Scope; 16],
}

// Because of the session: numbers and scopes are as they were.
pub fn refusing(n: Numbers, list: [Scope; 16], c: SessionRefusal) -> Done
    ensures { result ≡ refusal n list c }
{
    refusing_with(n, list, Refused::Session(c))
}

// The same for any reason.
pub fn refusing_with(n: Numbers, list: [Scope; 16], why: Refused) -> Done
    ensures { result ≡ record { reply = Err why; numbers = n; list = list } }
{
    Done {
        reply: Err(why),
        numbers: n,
        list,
    }
}

impl SessionRefusal {
    // Document 01's number. No `From`, here and in `Refused`, which would be no plainer: at a call the name says it.
    #[tactic(auto, unfolding(records::specs::Refusals::refusal_number))]
    fn number(self) -> u32
        ensures { result ≡ refusal_number (because_of_session self) }
    {
        self as u32
    }
}

impl Refused {
    // Document 01's number of a refusal.
    #[tactic(auto, unfolding(session_spec::specs::Session::reply_number, records::specs::Refusals::refusal_number))]
    pub fn number(self) -> u32
        ensures { result ≡ reply_number (reply_of (Err self)) }
    {
        match self {
            Refused::Unfit => 10,
            Refused::Input(c) => u32::from(record_walk::refusal_number(c)),
            Refused::Session(c) => c.number(),
        }
    }
}

// The same of a reply: a record that is taken is answered by 0. No method, since the type is the library's.
#[tactic(auto, unfolding(session_spec::specs::Session::reply_number))]
pub fn reply_number(r: Reply) -> u32
    ensures { result ≡ reply_number (reply_of r) }
{
    match r {
        Ok(()) => 0,
        Err(refused) => refused.number(),
    }
}

// ---- the end of the code
