// Tokens of a path over its code points: the one that stands first, and whether all of a text is tokens.
#![tactic(auto)]

ghost use Rattle.std.specs.Prelude.{◌≡◌, ◌+◌, ◌≤◌, length, take, drop, get_or};
ghost use Rattle.lists.specs.Lists.{all};
ghost use Rattle.lists.specs.Answers.{given};
ghost use Rattle.characters.specs.Spaces.{xml_space};
ghost use Rattle.reasons.specs.Reasons.{run_start, run_char, run, begins, after_prefix, after_name, name_first, scan};
ghost use Rattle.reasons.specs.Reasons as reasons;
ghost use Rattle.tokens.specs.Places.{gap_length, number, run_of, name_of, found_of, scan_of, FirstOf, fault_of, reason_of};

// A reason to turn a path back, by document 01's number.
#[derive(Clone, Copy, Debug, PartialEq, Eq)]
pub enum Reason {
    EmptyPath = 1,
    StrayColon = 2,
    NoNCName = 3,
    DanglingColon = 4,
    Character = 5,
    EmptyAlternative = 6,
    DescentAlone = 7,
    AttributeInSelector = 8,
    AxisNoPlainName = 9,
    AxisNotAllowed = 10,
    UndeclaredPrefix = 11,
    Step = 12,
    TrailingSlash = 13,
    Separator = 14,
}

// A name test, by the names in its text: prefix, local name.
#[derive(Clone, Copy)]
pub enum NameTest<'a> {
    Star,
    PrefixStar(&'a [u32]),
    Local(&'a [u32]),
    Prefixed(&'a [u32], &'a [u32]),
}

#[derive(Clone, Copy)]
pub enum Tok<'a> {
    Dot,
    Slash,
    DoubleSlash,
    ColonColon,
    At,
    Name(NameTest<'a>),
}

// A token that stands first where no white space does: it has so many characters more after its first.
// They are a number and no text: the definition of a token that is found counts them.
#[derive(Clone, Copy)]
struct Front<'a> {
    tok: Tok<'a>,
    more: usize,
}

// The first token behind white space, where it stands, and the text behind it: so many characters stand before it.
#[derive(Clone, Copy)]
pub struct Token<'a> {
    pub tok: Tok<'a>,
    pub start: usize,
    pub behind: &'a [u32],
}

impl Reason {
    // No `From`, which would be no plainer: at a call the name says what it is.
    pub fn number(self) -> u8
        ensures { result ≡ number self }
    {
        self as u8
    }
}

// ---- characters

// An ASCII letter, '_', or any character beyond ASCII.
#[tactic(auto, unfolding(reasons::specs::Reasons::run_start, characters::specs::Ranges::in_ranges))]
fn run_start(c: u32) -> bool
    ensures { result ≡ run_start c }
{
    matches!(c, 0x41..=0x5A | 0x5F | 0x61..=0x7A | 0x80..)
}

// One of those, '-', '.' or a digit.
#[tactic(auto, unfolding(reasons::specs::Reasons::run_char, characters::specs::Ranges::in_ranges))]
fn run_char(c: u32) -> bool
    ensures { result ≡ run_char c }
{
    run_start(c) || matches!(c, 0x2D | 0x2E | 0x30..=0x39)
}

// ---- runs of characters

// How many characters of white space stand first.
// The chain stands in `read_run`, too, with another test: a function that takes the test would save no line.
pub fn gap_length(s: &[u32]) -> usize
    ensures { result ≡ gap_length s.now }
{
    s.iter()
        .position(|&c| !characters::is_white_space(c))
        .unwrap_or(s.len())
}

// Whether all of a text is white space.
pub fn is_blank(s: &[u32]) -> bool
    ensures { result ≡ all xml_space s.now }
{
    gap_length(s) == s.len()
}

// How many characters the run at the front has, if all of them are name characters: each of these goes on with it.
fn read_run(s: &[u32]) -> Option<usize>
    ensures { given result ≡ run_of s.now }
{
    let n = s
        .iter()
        .position(|&c| !characters::name_char(c))
        .unwrap_or(s.len());
    if n < s.len() && run_char(s[n]) {
        return None;
    }
    Some(n)
}

// How many characters the run behind the first one has, if that character and the run are an NCName.
fn read_name(s: &[u32]) -> Result<usize, Reason>
    requires { 1 ≤ length s.now }
    ensures { result ≡ name_of s.now }
{
    if !characters::name_start(s[0]) {
        return Err(Reason::NoNCName);
    }
    read_run(&s[1..]).ok_or(Reason::NoNCName)
}

// ---- the token that stands first

fn starts_with(s: &[u32], c: u32) -> bool
    ensures { result ≡ begins c s.now }
{
    s.first() == Some(&c)
}

// A prefix of n + 1 characters and ':' are read.
fn after_prefix(s: &[u32], n: usize) -> Result<Front<'_>, Reason>
    requires { n + 2 ≤ length s.now }
    ensures { found_of result ≡ after_prefix (take (n + 1) s.now) n (drop (n + 2) s.now) }
{
    let at = n + 2;
    if s.len() == at {
        return Err(Reason::DanglingColon);
    }
    let prefix = &s[..n + 1];
    let c = s[at];
    if c == 0x2A {
        return Ok(Front {
            tok: Tok::Name(NameTest::PrefixStar(prefix)),
            more: at,
        });
    }
    if !run_start(c) {
        return Err(Reason::DanglingColon);
    }
    let rest = &s[at..];
    let m = read_name(rest)?;
    Ok(Front {
        tok: Tok::Name(NameTest::Prefixed(prefix, &rest[..m + 1])),
        more: at + m,
    })
}

// An NCName of n + 1 characters is read.
fn after_name(s: &[u32], n: usize) -> Result<Front<'_>, Reason>
    requires { n + 1 ≤ length s.now }
    ensures { found_of result ≡ after_name (take (n + 1) s.now) n (drop (n + 1) s.now) }
{
    let at = n + 1;
    if s.len() == at || s[at] != 0x3A || starts_with(&s[at + 1..], 0x3A) {
        return Ok(Front {
            tok: Tok::Name(NameTest::Local(&s[..at])),
            more: n,
        });
    }
    after_prefix(s, n)
}

// A run starts with the first character.
fn name_first(s: &[u32]) -> Result<Front<'_>, Reason>
    requires { 1 ≤ length s.now }
    ensures { found_of result ≡ name_first (get_or s.now 0 0) (drop 1 s.now) }
{
    let n = read_name(s)?;
    after_name(s, n)
}

// What stands first, where that is no white space.
fn next_token(s: &[u32]) -> Result<Option<Front<'_>>, Reason>
    requires { gap_length s.now ≡ 0 }
    ensures { scan_of result ≡ scan s.now }
{
    let Some(&c) = s.first() else {
        return Ok(None);
    };
    if run_start(c) {
        return Ok(Some(name_first(s)?));
    }
    let twice = starts_with(&s[1..], c);
    let (tok, more) = match c {
        0x2F if twice => (Tok::DoubleSlash, 1),
        0x2F => (Tok::Slash, 0),
        0x3A if twice => (Tok::ColonColon, 1),
        0x3A => return Err(Reason::StrayColon),
        0x40 => (Tok::At, 0),
        0x2A => (Tok::Name(NameTest::Star), 0),
        0x2E => (Tok::Dot, 0),
        _ => return Err(Reason::Character),
    };
    Ok(Some(Front { tok, more }))
}

// The first token behind white space.
pub fn first_token(s: &[u32]) -> Result<Option<Token<'_>>, Reason>
    ensures { FirstOf s.now result }
{
    let start = gap_length(s);
    let rest = &s[start..];
    let Some(f) = next_token(rest)? else {
        return Ok(None);
    };
    Ok(Some(Token {
        tok: f.tok,
        start,
        behind: &rest[f.more + 1..],
    }))
}

// ---- all tokens

// Whether all of a text is tokens and white space; if not, the first reason to stop.
pub fn tokenize(s: &[u32]) -> Result<(), Reason>
    ensures { reason_of result ≡ fault_of (reasons.tokenize 0 s.now) }
{
    let mut rest = s;
    while let Some(t) = first_token(rest)? {
        rest = t.behind;
    }
    Ok(())
}

// ---- the end of the code
