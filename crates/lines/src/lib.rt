// The lines that a run is told by: one for each report, one at the end; and how many tuples there are, for the end.
#![tactic(auto)]

ghost use Rattle.std.specs.Prelude.{◌≡◌, length};
ghost use Rattle.session_spec.specs.Definitions.{frame};
ghost use Rattle.output_stores.specs.Stores.{standing, Appended};
ghost use Rattle.lines.specs.Lines.{word, report_line, end_line, refused_line, report_in, LineOf};

// A line: the first size bytes. Fixed memory, and no String: nothing takes heap.
#[derive(Drop)]
pub struct Line {
    pub bytes: [u8; 128],
    pub size: usize,
}

const EMPTY: Line = Line {
    bytes: [0; 128],
    size: 0,
};

impl Line {
    // Adds a number in decimal and the byte that ends it. Where there is no room nothing changes.
    // No `write!`: it would write to a String, and there is none here. Nor is one has_room(store, at, size) for the
    // test here, in append_key, put_bytes and append_bytes: each proof would first read its answer back as comparisons.
    fn word(&mut self, n: u64, end: u8)
        ensures { Appended self.old.bytes self.old.size (word n end) self.new.size self.new.bytes }
    {
        // Fixed memory: no number of 64 bits has more digits.
        let mut text = [0u8; 20];
        let size = io::decimal(n, &mut text);
        let whole = size + 1;
        if self.bytes.len() - whole < self.size {
            return;
        }
        let at = output_stores::append_bytes(&mut self.bytes, self.size, &text[..size]);
        self.size = output_stores::append_bytes(&mut self.bytes, at, &[end]);
    }
}

// ---- lines

// The line of the report at the front: event kind constraint field scope tuple.
// By places and not by `split_report`, which refuses bytes that are no report: any bytes have a line.
pub fn report_line(report: &[u8]) -> Line
    ensures { LineOf (report_line (report_in report.now)) result }
{
    let kind = u64::from(numbers::byte_at(report, 2));
    let constraint = u64::from(numbers::byte_at(report, 3));
    let field = u64::from(numbers::byte_at(report, 4));
    let scope = u64::from(numbers::four_at(report, 6));
    let event = u64::from(numbers::four_at(report, 10));
    let tuple = u64::from(numbers::four_at(report, 14));
    let mut line = EMPTY;
    line.word(event, b' ');
    line.word(kind, b' ');
    line.word(constraint, b' ');
    line.word(field, b' ');
    line.word(scope, b' ');
    line.word(tuple, b'\n');
    line
}

// The last line of a run in which every record was taken.
pub fn end_line(events: u64, tuples: u64, reports: u64) -> Line
    ensures { LineOf (end_line events tuples reports) result }
{
    let mut line = EMPTY;
    line.size = output_stores::append_bytes(&mut line.bytes, 0, b"end ");
    line.word(events, b' ');
    line.word(tuples, b' ');
    line.word(reports, b'\n');
    line
}

// The last line of a run that ends at a refusal. Any number is taken: a refusal's type would ask more of callers.
pub fn refused_line(place: u64, number: u64) -> Line
    ensures { LineOf (refused_line place number) result }
{
    let mut line = EMPTY;
    line.size = output_stores::append_bytes(&mut line.bytes, 0, b"refused ");
    line.word(place, b' ');
    line.word(number, b'\n');
    line
}

// ---- counts

// How many TUs stand in the used bytes of the tuple store.
pub fn tuple_count(used: &[u8]) -> u64
    ensures { result ≡ length (standing frame used.now) }
{
    tuple_search::count(used) as u64
}

// ---- the end of the code
