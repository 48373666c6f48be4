// One step of a path, at the front of a text of code points.
#![tactic(auto)]

ghost use Rattle.std.specs.Prelude.{◌≡◌, ◌&&◌, drop, cond, Ok, Err};
ghost use Rattle.texts.specs.Texts.{same};
ghost use Rattle.grammar.specs.Paths.{child, attribute};
ghost use Rattle.reasons.specs.Reasons.{is_field, is_empty, first_test, attribute_step, axis_step, test_declared};
ghost use Rattle.tokens.specs.declared.Reason.TheVariants.{UndeclaredPrefix};
ghost use Rattle.tokens.specs.Places.{test_of, tokens_in};
ghost use Rattle.prefixes.specs.Prefixes.{words_of};
ghost use Rattle.path_steps.specs.Steps.{kind_of, TestFirst, ColonsTo, AxisFirst, attribute_by, axis_by, NameStepIs, StepIs};

use tokens::{NameTest, Reason, Tok};

// What kind of path it is.
#[derive(Clone, Copy, Debug, PartialEq, Eq)]
pub enum PathKind {
    Selector,
    Field,
}

// A name test that stands first, and the text behind it.
// It is made of a token in two places, where it is written out: a function for it would be as long as both.
#[derive(Clone, Copy)]
struct Test<'a> {
    name: NameTest<'a>,
    behind: &'a [u32],
}

// A step with an axis: the path's last one, or a child step.
#[derive(Clone, Copy)]
enum Axis {
    Last,
    Child,
}

fn is_field(kind: PathKind) -> bool
    ensures { result ≡ is_field (kind_of kind) }
{
    matches!(kind, PathKind::Field)
}

// ---- name tests

// The name test that stands first.
fn test_first(s: &[u32]) -> Option<Test<'_>>
    ensures { TestFirst s.now result }
{
    let Ok(Some(t)) = tokens::first_token(s) else {
        return None;
    };
    let Tok::Name(name) = t.tok else {
        return None;
    };
    Some(Test {
        name,
        behind: t.behind,
    })
}

// The text behind a '::' that stands first. It is asked behind each name, where mostly none stands: so no whole
// token is read for it.
fn behind_colons(s: &[u32]) -> Option<&[u32]>
    ensures { ColonsTo s.now result }
{
    let i = tokens::gap_length(s);
    s[i..].strip_prefix(&[0x3A, 0x3A])
}

// The name test behind a '::' that stands first.
fn axis_first(s: &[u32]) -> Option<Test<'_>>
    ensures { AxisFirst s.now result }
{
    test_first(behind_colons(s)?)
}

// ---- the two axes, by their name

fn is_child(name: &[u32]) -> bool
    ensures { result ≡ same name.now child }
{
    prefixes::spelled(name, b"child")
}

// Whether it is `attribute` where that may stand: in a field, if no token follows its name test. v is what follows
// that.
fn is_attribute(name: &[u32], v: &[u32], kind: PathKind) -> bool
    ensures { result ≡ (same name.now attribute && is_field (kind_of kind) && is_empty (tokens_in v.now)) }
{
    is_field(kind) && tokens::is_blank(v) && prefixes::spelled(name, b"attribute")
}

// ---- steps
// `kind` and `prefixes` are no struct: the definitions take them one by one, and each clause would name both fields.

// Refused where the name test has a prefix that is not declared.
fn require_prefix(n: NameTest<'_>, prefixes: &[u8]) -> Result<(), Reason>
    ensures { result ≡ cond (test_declared (words_of prefixes.now) (test_of n.entry)) (Ok tt) (Err UndeclaredPrefix) }
{
    if !prefixes::check_prefix(n, prefixes) {
        return Err(Reason::UndeclaredPrefix);
    }
    Ok(())
}

// The step of which '@' is read: it is none unless its name test is the last token.
fn attribute_step(s: &[u32], kind: PathKind, prefixes: &[u8]) -> Result<(), Reason>
    ensures { attribute_by result ≡ attribute_step (kind_of kind) (words_of prefixes.now) (first_test (tokens_in s.now)) (is_empty (drop 1 (tokens_in s.now))) }
{
    let t = test_first(s).ok_or(Reason::Step)?;
    if !tokens::is_blank(t.behind) {
        return Err(Reason::Step);
    }
    if !is_field(kind) {
        return Err(Reason::AttributeInSelector);
    }
    require_prefix(t.name, prefixes) // of an attribute
}

// The axis is the name test m, and t is the one behind its '::'.
fn axis_step(m: NameTest<'_>, t: Test<'_>, kind: PathKind, prefixes: &[u8]) -> Result<Axis, Reason>
    ensures { axis_by result ≡ axis_step (kind_of kind) (words_of prefixes.now) (test_of m.entry) (test_of t.entry.name)
        (is_empty (tokens_in t.entry.behind.now)) }
{
    let NameTest::Local(name) = m else {
        return Err(Reason::AxisNoPlainName);
    };
    if is_child(name) {
        require_prefix(t.name, prefixes)?; // of a child
        return Ok(Axis::Child);
    }
    if !is_attribute(name, t.behind, kind) {
        return Err(Reason::AxisNotAllowed);
    }
    require_prefix(t.name, prefixes)?;
    Ok(Axis::Last)
}

// The step that begins with the name test m: what stands behind it, or none where it is the path's last step.
fn name_step<'a>(m: Test<'a>, kind: PathKind, prefixes: &[u8]) -> Result<Option<&'a [u32]>, Reason>
    ensures { NameStepIs (kind_of kind) (words_of prefixes.now) m.entry result }
{
    let Some(t) = axis_first(m.behind) else {
        require_prefix(m.name, prefixes)?; // of the test itself
        return Ok(Some(m.behind));
    };
    match axis_step(m.name, t, kind, prefixes)? {
        Axis::Last => Ok(None),
        Axis::Child => Ok(Some(t.behind)),
    }
}

// The step that stands first: what stands behind it, or none where it is the path's last step.
pub fn step_at<'a>(
    s: &'a [u32],
    kind: PathKind,
    prefixes: &[u8],
) -> Result<Option<&'a [u32]>, Reason>
    ensures { StepIs (kind_of kind) (words_of prefixes.now) s.now result }
{
    // no step begins with a fault
    let first = tokens::first_token(s).map_err(|_| Reason::Step)?;
    let t = first.ok_or(Reason::TrailingSlash)?;
    match t.tok {
        Tok::Dot => Ok(Some(t.behind)),
        Tok::Slash | Tok::DoubleSlash | Tok::ColonColon => Err(Reason::Step),
        Tok::At => {
            attribute_step(t.behind, kind, prefixes)?;
            Ok(None)
        }
        Tok::Name(name) => {
            let behind = t.behind;
            name_step(Test { name, behind }, kind, prefixes)
        }
    }
}

// ---- the end of the code
