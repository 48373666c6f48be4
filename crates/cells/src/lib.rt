// Field cells: what a field of an open selection has met so far. A cell is a value that takes hits; in the lent area it
// is 128 bytes, and four of them are a selection.
// Numbers are narrowed by `as` where they are known to fit: `try_from` would add an error that never is.
#![tactic(auto)]

ghost use Rattle.std.specs.Prelude.{◌≡◌, ◌/◌, ◌%◌, ◌<◌, ◌≤◌, length, take, get_or, replicate};
ghost use Rattle.lists.specs.Lists.{foldl, put};
ghost use Rattle.tree.specs.Cells.{simple, nillable, complex, Unset};
ghost use Rattle.machine.specs.Machine.{hit};
ghost use Rattle.session_spec.specs.Layout.{cell_state, key_of, put_cell};
ghost use Rattle.cells.specs.Cells.{has_key, state_number, text_of, cell_of, cell_by, hit_of, blank_or, cell_at, depth_at, scope_at, blank_cells, hit_at, hit_selections};

// The key text of a cell: the first `len` of the bytes, which `of` makes and `text` reads for any caller. Fixed memory,
// since the library takes no heap.
#[derive(Clone, Copy)]
pub struct Key {
    bytes: [u8; 126],
    len: usize,
}

// What an element or an attribute brings to a field: the simple byte of the element, which is 1 for an attribute, and
// the key text. The byte is no enum, here and in `hit_once`: any may be handed in, and others than 0 and 2 count as 1.
#[derive(Clone, Copy)]
pub struct Hit<'a> {
    pub simple: u8,
    pub key: &'a [u8],
}

// What a field has met: nothing, one value, an element that has no simple value, more than one, or one value on an
// element that is declared nillable.
#[derive(Clone, Copy, Default)]
pub enum Cell {
    #[default]
    Unset,
    Set(Key),
    NotSimple,
    Multiple,
    Nillable(Key),
}

// The state of a cell without its key, by the number that stands for it in bytes.
#[derive(Clone, Copy, Debug, PartialEq, Eq)]
pub enum State {
    Unset = 0,
    Set = 1,
    NotSimple = 2,
    Multiple = 3,
    Nillable = 4,
}

impl Key {
    // The key that any caller can build of a text. Of one beyond 126 bytes, which no record may bring, the first 126
    // count.
    pub fn of(text: &[u8]) -> Self
        ensures { text_of result ≡ take 126 text.now }
    {
        let len = text.len().min(126);
        let mut bytes = [0u8; 126];
        numbers::put_bytes(&mut bytes, 0, &text[..len]);
        Key { bytes, len }
    }

    // The text, which any caller can read.
    pub fn text(&self) -> &[u8]
        ensures is { result.now ≡ text_of self.now }
        ensures fits { length result.now ≤ 126 }
    {
        &self.bytes[..self.len.min(126)]
    }
}

impl Cell {
    // A cell that no hit has met.
    #[tactic(auto, unfolding(crate::specs::Cells::cell_of))]
    pub fn blank() -> Self
        ensures { cell_of result ≡ Unset }
    {
        Self::default()
    }

    // The cell after a hit with a key. Of a key beyond 126 bytes, which no record may bring, the first 126 count.
    pub fn record(self, key: &[u8]) -> Self
        ensures { cell_of result ≡ hit (cell_of self) (simple (take 126 key.now)) }
    {
        self.met(Cell::Set(Key::of(key)))
    }

    // The cell after a hit with a key on an element that is declared nillable, which it remembers.
    pub fn record_nillable(self, key: &[u8]) -> Self
        ensures { cell_of result ≡ hit (cell_of self) (nillable (take 126 key.now)) }
    {
        self.met(Cell::Nillable(Key::of(key)))
    }

    // The cell after a hit of an element that has no simple value.
    pub fn record_not_simple(self) -> Self
        ensures { cell_of result ≡ hit (cell_of self) complex }
    {
        self.met(Cell::NotSimple)
    }

    // The cell of a state's number, with this key where the state has one; a number that no state has is that of several
    // hits. So any number may be handed in, as any byte may lie in lent memory.
    #[tactic(auto, using(crate::proofs::Values::by_other), unfolding(crate::specs::Cells::cell_of, crate::specs::Cells::cell_by))]
    pub fn of_number(state: u8, key: &[u8]) -> Self
        ensures { cell_of result ≡ cell_by state (take 126 key.now) }
    {
        match state {
            0 => Cell::Unset,
            1 => Cell::Set(Key::of(key)),
            2 => Cell::NotSimple,
            4 => Cell::Nillable(Key::of(key)),
            _ => Cell::Multiple,
        }
    }

    // The cell after a hit that makes `first` of a blank one.
    fn met(self, first: Cell) -> Self
        ensures { cell_of result ≡ blank_or (cell_of self) (cell_of first) }
    {
        match self {
            Cell::Unset => first,
            _ => Cell::Multiple,
        }
    }

    // The cell after one hit, by the simple byte.
    fn hit_once(self, h: &Hit<'_>) -> Self
        ensures { cell_of result ≡ hit (cell_of self) (hit_of h.now.simple h.now.key.now) }
    {
        match h.simple {
            0 => self.record_not_simple(),
            2 => self.record_nillable(h.key),
            _ => self.record(h.key),
        }
    }

    // After the same hit so many times: the third and later ones change nothing.
    fn hit_times(self, times: usize, h: &Hit<'_>) -> Self
        ensures { cell_of result ≡ foldl hit (cell_of self) (replicate times (hit_of h.now.simple h.now.key.now)) }
    {
        match times {
            0 => self,
            1 => self.hit_once(h),
            _ => self.hit_once(h).hit_once(h),
        }
    }

    // Its state.
    #[tactic(auto, unfolding(crate::specs::Cells::cell_of, session_spec::specs::Layout::cell_state))]
    fn state(&self) -> State
        ensures { state_number result ≡ cell_state (cell_of self.now) }
    {
        match self {
            Cell::Unset => State::Unset,
            Cell::Set(_) => State::Set,
            Cell::NotSimple => State::NotSimple,
            Cell::Multiple => State::Multiple,
            Cell::Nillable(_) => State::Nillable,
        }
    }

    // Its key: a cell that is neither Set nor Nillable has none.
    fn key(&self) -> &[u8]
        ensures is { result.now ≡ key_of (cell_of self.now) }
        ensures fits { length result.now ≤ 126 }
    {
        match self {
            Cell::Set(k) | Cell::Nillable(k) => k.text(),
            _ => &[],
        }
    }

    // Its 128 bytes, with a number below 32 beside its state: zeros behind the key.
    // Fixed memory: this is the layout of a cell in the lent area, and the library takes no heap.
    fn bytes(self, more: u8) -> [u8; 128]
        ensures { result ≡ put_cell (more % 32) (cell_of self) }
    {
        let key = self.key();
        let mut b = [0u8; 128];
        let head = [self.state().number() + 8 * (more % 32), key.len() as u8];
        numbers::put_bytes(&mut b, 0, &head);
        numbers::put_bytes(&mut b, 2, key);
        b
    }
}

impl State {
    // The number that stands for it in bytes. No `From`, which would be no plainer: at a call the name says what it is.
    pub fn number(self) -> u8
        ensures { result ≡ state_number self }
    {
        self as u8
    }

    // Whether a cell in this state has a key: a Set one, marked or not.
    fn has_key(self) -> bool
        ensures { result ≡ has_key (state_number self) }
    {
        matches!(self, State::Set | State::Nillable)
    }
}

// The same by the number, since any byte may stand in lent memory.
pub fn has_key(state: u8) -> bool
    ensures { result ≡ has_key state }
{
    state == 1 || state == 4
}

// ---- a cell in the area. It and the place stay two parameters: one struct of both would be no plainer, since reading
// and writing need one each, made anew at each call.

// The state of the cell at a place: Unset where no cell stands there. Of the numbers in lent memory any other than
// these five counts as Unset.
pub fn state_at(area: &[u8], at: usize) -> State
    ensures { state_number result ≡ cell_state (cell_at area.now at) }
{
    if area.len() < 128 || area.len() - 128 < at || 126 < area[at + 1] {
        return State::Unset;
    }
    match area[at] % 8 {
        1 => State::Set,
        2 => State::NotSimple,
        3 => State::Multiple,
        4 => State::Nillable,
        _ => State::Unset,
    }
}

// Its key, where it stands. A cell that is neither Set nor Nillable has none.
pub fn key_at<'a>(area: &'a [u8], at: usize) -> &'a [u8]
    ensures { result.now ≡ key_of (cell_at area.now at) }
{
    if !state_at(area, at).has_key() {
        return &[];
    }
    let start = at + 2;
    &area[start..start + usize::from(area[at + 1])]
}

// The cell at a place, as a value: a blank one where none stands there.
pub fn load(area: &[u8], at: usize) -> Cell
    ensures { cell_of result ≡ cell_at area.now at }
{
    let key = key_at(area, at);
    match state_at(area, at) {
        State::Unset => Cell::Unset,
        State::Set => Cell::Set(Key::of(key)),
        State::NotSimple => Cell::NotSimple,
        State::Multiple => Cell::Multiple,
        State::Nillable => Cell::Nillable(Key::of(key)),
    }
}

// Writes a cell at a place, with a number below 32 beside its state. Where it does not fit nothing changes.
pub fn store(area: &mut [u8], at: usize, more: u8, c: Cell)
    ensures { area.new ≡ put area.old at (put_cell (more % 32) (cell_of c)) }
{
    numbers::put_bytes(area, at, &c.bytes(more));
}

// ---- a selection: four cells

// The number beside the state of the cell at a place. A byte that is not there counts as 0.
fn more_at(area: &[u8], at: usize) -> u8
    ensures { (result ≡ get_or area.now at 0 / 8) × (result < 32) }
{
    numbers::byte_at(area, at) / 8
}

// The depth of the selection at a place: the rest and the quotient by 32 are beside cells 0 and 1. It is 0 where none
// stands, and so is the place below, not None: the definitions answer at every place, and C may hand in any.
pub fn depth_at(area: &[u8], at: usize) -> u32
    ensures { result ≡ depth_at area.now at }
{
    if at < area.len() {
        u32::from(more_at(area, at)) + 32 * u32::from(more_at(area, at + 128))
    } else {
        0
    }
}

// The place of its scope among the open ones, which is beside cell 2.
pub fn scope_at(area: &[u8], at: usize) -> u32
    ensures { result ≡ scope_at area.now at }
{
    if at < area.len() {
        u32::from(more_at(area, at + 256))
    } else {
        0
    }
}

// Writes the blank cells of a new selection at a place. Where they do not fit nothing changes.
pub fn open_selection(area: &mut [u8], at: usize, depth: u32, scope: u32)
    ensures { area.new ≡ put area.old at (blank_cells depth scope) }
{
    if area.len() < 512 || area.len() - 512 < at {
        return;
    }
    let beside = [depth % 32, depth / 32 % 32, scope % 32, 0];
    for (k, &more) in beside.iter().enumerate() {
        store(area, at + 128 * k, more as u8, Cell::blank());
    }
}

// ---- hits on the area

// The cell at a place takes a hit so many times. A cell that none comes to, or that is Multiple already, is not
// written.
pub fn hit_cell(area: &mut [u8], at: usize, times: usize, h: &Hit<'_>)
    ensures { area.new ≡ hit_at (hit_of h.now.simple h.now.key.now) at times area.old }
{
    if times > 0 && state_at(area, at) != State::Multiple {
        let more = more_at(area, at);
        let c = load(area, at);
        store(area, at, more, c.hit_times(times, h));
    }
}

// Each of the first n selections takes a hit in the cell of this field, as often as its count says.
// The number n stays beside the bytes: lent memory has places for 32 selections, however many are open.
// Was tried with `chunks_mut(512)` and the counts beside it; what the area holds once its chunks are given back stayed
// open.
pub fn hit_selections(area: &mut [u8], n: usize, field: usize, counts: &[u8], h: &Hit<'_>)
    ensures { area.new ≡ hit_selections (hit_of h.now.simple h.now.key.now) field (take n counts.now) area.old }
{
    if field >= 4 {
        return;
    }
    let place = 128 * field;
    let last = n.min(counts.len()).min(area.len() / 512 + 1);
    for j in 0..last {
        let at = 512 * j;
        let end = at + (area.len() - at).min(512);
        let times = usize::from(counts[j]);
        hit_cell(&mut area[at..end], place, times, h);
    }
}

// ---- the end of the code
