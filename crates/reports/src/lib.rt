// The report store: RP records of eighteen bytes, one behind the other.
#![tactic(auto)]

ghost use Rattle.std.specs.Prelude.{◌≡◌};
ghost use Rattle.lists.specs.Lists.{any};
ghost use Rattle.session_spec.specs.Definitions.{is_some};
ghost use Rattle.session_spec.specs.Layout.{read_rp, put_rp};
ghost use Rattle.output_stores.specs.Stores.{standing, reads_as, Appended};
ghost use Rattle.reports.specs.Reports.{rp_head, report_of, split_of, tells, all_defined};

// A report. Its kind is a byte that any caller may hand in, also from C: an enum would ask more of them.
// Its bytes lie in lent memory at fixed places, as C sees them: `bytes` and `split_report` name them by number.
#[derive(Clone, Copy, Default)]
pub struct Report {
    pub kind: u8,
    pub constraint: u8,
    pub field: u8,
    pub scope: u32,
    pub event: u32,
    pub tuple: u32,
}

impl Report {
    // The six bytes before the numbers.
    fn head(self) -> [u8; 6]
        ensures { result ≡ rp_head self.kind self.constraint self.field }
    {
        [b'R', b'P', self.kind, self.constraint, self.field, 0]
    }

    // All eighteen.
    fn bytes(self) -> [u8; 18]
        ensures { result ≡ put_rp (report_of self) }
    {
        // Fixed memory: one report.
        let mut bytes = [0u8; 18];
        numbers::put_bytes(&mut bytes, 0, &self.head());
        numbers::put_four(&mut bytes, 6, self.scope);
        numbers::put_four(&mut bytes, 10, self.event);
        numbers::put_four(&mut bytes, 14, self.tuple);
        bytes
    }
}

// ---- one report more

// Adds a report behind the used bytes of the store, and answers the new used length. Where there is no room nothing
// changes.
// The used length stands beside the store, as C lends both. It could not fail and still can't: no Option of the length.
pub fn append_report(store: &mut [u8], used: usize, r: Report) -> usize
    ensures { Appended store.old used (put_rp (report_of r)) result store.new }
{
    output_stores::append_bytes(store, used, &r.bytes())
}

// ---- what the store holds

// Whether a report stands at the front.
fn is_report(s: &[u8]) -> bool
    ensures { result ≡ is_some (read_rp s.now) }
{
    18 <= s.len() && s.starts_with(b"RP") && s[5] == 0
}

// The report at the front, and the bytes behind it. None where none stands there.
pub fn split_report(s: &[u8]) -> Option<(Report, &[u8])>
    ensures { split_of result ≡ read_rp s.now }
{
    if !is_report(s) {
        return None;
    }
    let report = Report {
        kind: numbers::byte_at(s, 2),
        constraint: numbers::byte_at(s, 3),
        field: numbers::byte_at(s, 4),
        scope: numbers::four_at(s, 6),
        event: numbers::four_at(s, 10),
        tuple: numbers::four_at(s, 14),
    };
    Some((report, &s[18..]))
}

// Whether a report says that a constraint of the set does not read. The set is a bare number, here and in `told`, for
// the reason beside `output_stores::has`.
#[tactic(auto, unfolding(crate::specs::Reports::tells, output_stores::specs::Stores::in_mask))]
fn says_unread(named: u32, r: Report) -> bool
    ensures { result ≡ tells named (report_of r) }
{
    r.kind == 6 && output_stores::has(named, r.constraint)
}

// Whether kind 6 was reported for a constraint of the set.
// An iterator of reports would serve this loop alone, since `reports_read` asks for what is left: no plainer.
pub fn told(used: &[u8], named: u32) -> bool
    ensures { result ≡ any (tells named) (standing read_rp used.now) }
{
    let mut rest = used;
    while let Some((report, behind)) = split_report(rest) {
        if says_unread(named, report) {
            return true;
        }
        rest = behind;
    }
    false
}

// Whether the used bytes are reports and nothing else, each of one of the constraints that are defined.
pub fn reports_read(used: &[u8], constraints: usize) -> bool
    ensures { result ≡ reads_as read_rp (all_defined constraints) used.now }
{
    let mut rest = used;
    while let Some((report, behind)) = split_report(rest) {
        let constraint = usize::from(report.constraint);
        if constraints <= constraint {
            return false;
        }
        rest = behind;
    }
    rest.is_empty()
}

// ---- the end of the code
