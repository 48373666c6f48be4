// The open scopes by value, the counts that are packed into one number, and whether both are as a session leaves them.
#![tactic(auto)]

ghost use Rattle.std.specs.Prelude.{◌≡◌, length, get_or};
ghost use Rattle.session_spec.specs.Layout as layout;
ghost use Rattle.session_spec.specs.Session.{stage_of, depth_of};
ghost use Rattle.open_scopes.specs.OpenScopes.{blank_scope, record_of, open_of, records_of, pushed, fits_among, follows, scopes_fit};
ghost use Rattle.open_scopes.specs.Counting.{as_counts, packed, areas_long, begun, within_limits, used_within, numbers_fit};

// ---- the types

// An open scope: its constraint's number, its own number, and the depth of its element.
#[derive(Clone, Copy, Default)]
pub struct Scope {
    pub constraint: u32,
    pub number: u32,
    pub depth: u32,
}

// Sixteen places, the first n of them open: memory is fixed, and a bound on n in the type would ask more of callers.
#[derive(Clone, Copy)]
pub struct Scopes {
    pub list: [Scope; 16],
    pub n: usize,
}

// Stage, open scopes, open selections, and the scopes opened so far. The stage is a number, as C hands it in, here and
// in `depth_of`: a packed number may hold any below 128, and an enum would need a case for those that are no stage.
#[derive(Clone, Copy)]
pub struct Counts {
    pub stage: u32,
    pub scopes: u32,
    pub selections: u32,
    pub opened: u64,
}

// The five numbers of a session. The scopes travel beside them and not in one struct with them: C has them apart.
#[derive(Clone, Copy, Default)]
pub struct Numbers {
    pub events: u64,
    pub running: u64,
    pub definitions: u64,
    pub tuples: u64,
    pub reports: u64,
}

// How long the three stores and the four areas are.
#[derive(Clone, Copy)]
pub struct Lengths {
    pub definitions: usize,
    pub tuples: usize,
    pub reports: usize,
    pub names: usize,
    pub scopes: usize,
    pub cells: usize,
    pub paths: usize,
}

// ---- open scopes

// No Option in `get` and no Result in `push`: public functions that could not fail still cannot.
impl Scopes {
    // How many are open.
    #[tactic(auto, unfolding(crate::specs::OpenScopes::open_of))]
    pub fn count(self) -> usize
        ensures { result ≡ length (open_of self) }
    {
        self.n.min(16)
    }

    // The open scope at a place; where there is none, one of zeros.
    pub fn get(self, i: usize) -> Scope
        ensures { result ≡ get_or (open_of self) i blank_scope }
    {
        self.open().get(i).copied().unwrap_or_default()
    }

    // The open ones, in order.
    #[tactic(auto, unfolding(crate::specs::OpenScopes::open_of))]
    pub fn open(&self) -> &[Scope]
        ensures { result.now ≡ open_of self.now }
    {
        &self.list[..self.n.min(16)]
    }

    // One more behind the open ones. Where all places are taken nothing changes.
    #[tactic(auto, unfolding(crate::specs::OpenScopes::pushed))]
    pub fn push(self, s: Scope) -> Self
        ensures { result ≡ pushed self s }
    {
        let Scopes { mut list, n } = self;
        if 16 <= n {
            return self;
        }
        list[n] = s;
        Scopes { list, n: n + 1 }
    }
}

// Whether the open scopes fit among so many constraints, elements open and scopes opened: each does, and each follows
// the one before it.
pub fn scopes_fit(s: Scopes, constraints: u32, depth: u32, opened: u64) -> bool
    ensures { result ≡ scopes_fit constraints depth opened (records_of s) }
{
    // Before the first there is none. This one stands for it: a scope follows it whose number and depth are not 0.
    let mut last = Scope {
        constraint: 0,
        number: 0,
        depth: 1,
    };
    for &one in s.open() {
        if !scope_fits(one, constraints, depth, opened) || !scope_follows(one, last) {
            return false;
        }
        last = one;
    }
    true
}

#[tactic(auto, unfolding(crate::specs::OpenScopes::fits_among))]
fn scope_fits(s: Scope, constraints: u32, depth: u32, opened: u64) -> bool
    ensures { result ≡ fits_among constraints depth opened (record_of s) }
{
    s.constraint < constraints && s.depth <= depth && u64::from(s.number) <= opened
}

// Behind the last one: a higher number, and no less deep.
#[tactic(auto, unfolding(crate::specs::OpenScopes::follows))]
fn scope_follows(s: Scope, last: Scope) -> bool
    ensures { result ≡ follows last.number last.depth (record_of s) }
{
    last.number < s.number && last.depth <= s.depth
}

// ---- the packed number

// The counts in one number. Where the scopes opened are too many for four bytes: 0, and no Option, since a public
// function that could not fail still cannot.
#[tactic(auto, unfolding(session_spec::specs::Layout::pack, crate::specs::Counting::packed))]
pub fn pack(c: Counts) -> u64
    ensures { result ≡ packed (as_counts c) }
{
    if u64::from(u32::MAX) < c.opened {
        return 0;
    }
    let upper = u64::from(c.selections) + 64 * c.opened;
    let middle = u64::from(c.scopes) + 32 * upper;
    u64::from(c.stage) + 128 * middle
}

// No `From`, which would be no plainer: it belongs to `pack`, which gives up numbers that are too large. What is left
// of a division is below 128, so that `as` loses nothing: `try_from` would add an error that never is.
#[tactic(auto, unfolding(session_spec::specs::Layout::unpack))]
pub fn unpack(n: u64) -> Counts
    ensures { as_counts result ≡ layout.unpack n }
{
    Counts {
        stage: (n % 128) as u32,
        scopes: (n / 128 % 32) as u32,
        selections: (n / 4096 % 64) as u32,
        opened: n / 262144,
    }
}

// How many elements are open at a stage: none before the first and none when finished.
#[tactic(auto, unfolding(session_spec::specs::Session::stage_of, session_spec::specs::Session::depth_of))]
pub fn depth_of(stage: u32) -> u32
    ensures { result ≡ depth_of (stage_of stage) stage }
{
    match stage {
        0 | 66 => 0,
        _ => stage - 1,
    }
}

// ---- counts and lengths

// Whether the areas are long enough, no count is above its limit, and no used length past its store.
#[tactic(auto, unfolding(crate::specs::Counting::numbers_fit))]
pub fn counts_fit(n: Numbers, l: Lengths, c: Counts) -> bool
    ensures { result ≡ numbers_fit n l (as_counts c) }
{
    areas_long(l) && has_begun(n, c) && within_limits(n, c) && used_within(n, l)
}

#[tactic(auto, unfolding(crate::specs::Counting::areas_long))]
fn areas_long(l: Lengths) -> bool
    ensures { result ≡ areas_long l }
{
    1024 <= l.paths && 16 <= l.scopes && 32896 <= l.names && 16384 <= l.cells
}

// Before the first element nothing was opened and nothing put out.
#[tactic(auto, unfolding(crate::specs::Counting::begun))]
fn has_begun(n: Numbers, c: Counts) -> bool
    ensures { result ≡ begun n (as_counts c) }
{
    c.stage != 0 || n.running == 0 && n.tuples == 0 && n.reports == 0
}

#[tactic(auto, unfolding(crate::specs::Counting::within_limits))]
fn within_limits(n: Numbers, c: Counts) -> bool
    ensures { result ≡ within_limits n (as_counts c) }
{
    n.events <= 1000000
        && c.stage <= 66
        && c.scopes <= 16
        && c.selections <= 32
        && c.opened <= 8 * n.events
}

#[tactic(auto, unfolding(crate::specs::Counting::used_within))]
fn used_within(n: Numbers, l: Lengths) -> bool
    ensures { result ≡ used_within n l }
{
    n.definitions <= l.definitions as u64
        && n.tuples <= l.tuples as u64
        && n.reports <= l.reports as u64
}

// ---- the end of the code
