// The path checker on the bytes that are handed in.
#![tactic(auto)]

ghost use Rattle.std.specs.Prelude.{◌≡◌, ℕ, [], ◌∷◌, ◌&&◌, ◌||◌, ◌≤◌, ltb, length, MatchOption, Err};
ghost use Rattle.utf8.specs.Utf8.{utf8, decode};
ghost use Rattle.reasons.specs.Reasons.{reason};
ghost use Rattle.tokens.specs.Places.{reason_of};
ghost use Rattle.prefixes.specs.Prefixes.{words_of};
ghost use Rattle.path_steps.specs.Steps.{kind_of};
ghost use Rattle.checker.specs.declared.Fault.TheVariants as fault;
ghost use Rattle.checker.specs.Answers.{refusal_number, told, number_of, checked};
ghost use Rattle.checker.specs.Parts.{Named, Turned, Decoded};

use path_steps::PathKind;
use tokens::Reason;

// A refusal of the input, by document 01's number.
#[derive(Clone, Copy, Debug, PartialEq, Eq)]
pub enum Refusal {
    NotUtf8 = 3,
    UnknownKind = 4,
    TooLong = 5,
}

// Why a path does not pass.
#[derive(Clone, Copy, Debug, PartialEq, Eq)]
pub enum Fault {
    Reason(Reason),
    Refused(Refusal),
}

impl Refusal {
    // No `From`, which would be no plainer, here and in `Fault`: at a call the name says what it is.
    pub fn number(self) -> u8
        ensures { result ≡ refusal_number self }
    {
        self as u8
    }
}

impl Fault {
    // The number at the door: a refusal's own, and 100 and k for the reason Xk.
    pub fn number(self) -> u32
        ensures { result ≡ number_of (told (Err self)) }
    {
        match self {
            Fault::Reason(k) => 100 + u32::from(k.number()),
            Fault::Refused(n) => u32::from(n.number()),
        }
    }
}

impl From<Reason> for Fault {
    ghost from_gives = { λ r f. f ≡ fault.Reason r };

    fn from(reason: Reason) -> Fault {
        Fault::Reason(reason)
    }
}

impl From<Refusal> for Fault {
    ghost from_gives = { λ r f. f ≡ fault.Refused r };

    fn from(refusal: Refusal) -> Fault {
        Fault::Refused(refusal)
    }
}

// Whether a path passes. The kind byte is 0 for a selector and 1 for a field; the prefixes have single spaces between
// them.
// The kind is a byte here: any caller may hand in any byte, also from C, and another one is refused by its number.
// Path and prefixes are no struct: they are handed in one by one, also from C, and the definitions take them so.
pub fn check_path(kind: u8, path: &[u8], prefixes: &[u8]) -> Result<(), Fault>
    ensures { told result ≡ checked kind path.now prefixes.now }
{
    let named = named_kind(kind)?;
    turn_back(path, prefixes)?;
    // Fixed memory: as many points as a path may have bytes.
    let mut points = [0u32; 255];
    validate(path, named, prefixes, &mut points)?;
    Ok(())
}

// The kind that a kind byte names. No TryFrom, which would be no plainer: one place asks, and names the refusal.
#[tactic(auto, unfolding(crate::specs::Answers::kind_byte))]
fn named_kind(kind: u8) -> Result<PathKind, Refusal>
    ensures { Named kind result }
{
    match kind {
        0 => Ok(PathKind::Selector),
        1 => Ok(PathKind::Field),
        _ => Err(Refusal::UnknownKind),
    }
}

// The first refusal that the texts meet, whichever kind it is.
fn turn_back(path: &[u8], prefixes: &[u8]) -> Result<(), Refusal>
    ensures { (kind : ℕ) → kind ≤ 1 → Turned kind path.now prefixes.now result }
{
    if !are_utf8(path, prefixes) {
        return Err(Refusal::NotUtf8);
    }
    if are_long(path, prefixes) {
        return Err(Refusal::TooLong);
    }
    Ok(())
}

// Whether both texts are UTF-8.
fn are_utf8(path: &[u8], prefixes: &[u8]) -> bool
    ensures { result ≡ (utf8 path.now && utf8 prefixes.now) }
{
    utf8_check::is_utf8(path) && utf8_check::is_utf8(prefixes)
}

// Whether one of them is over its limit.
fn are_long(path: &[u8], prefixes: &[u8]) -> bool
    ensures { result ≡ (ltb 255 (length path.now) || ltb 16384 (length prefixes.now)) }
{
    255 < path.len() || 16384 < prefixes.len()
}

// The reason that a path's code points give. They are written to `points`, so that the path is decoded once.
fn validate(path: &[u8], kind: PathKind, prefixes: &[u8], points: &mut [u32]) -> Result<(), Reason>
    requires { length path.now ≤ length points.old }
    ensures { reason_of result ≡ reason (kind_of kind) (decode path.now) (words_of prefixes.now) }
{
    let n = decode_path(path, points);
    path_walk::validate_identity_xpath(&points[..n], kind, prefixes)
}

// Writes the code points of a path to the front of `points`, and says how many they are.
// `n` is counted by hand: it is the answer, too, and behind the loop `enumerate` would not leave it.
fn decode_path(path: &[u8], points: &mut [u32]) -> usize
    requires { length path.now ≤ length points.old }
    ensures { Decoded path.now points.new result }
{
    let mut n: usize = 0;
    for code in code_points::Points(path) {
        points[n] = code;
        n += 1;
    }
    n
}

// ---- the end of the code
