// What a parsed path matches, over lent bytes: the path's entries, the names of the open elements and the bindings of
// prefixes.
#![tactic(auto)]

ghost use Rattle.std.specs.Prelude.{◌≡◌, ℕ, Bool, cond, ◌&&◌, ◌+◌, ◌*◌, ◌<◌};
ghost use Rattle.lists.specs.Lists.{part};
ghost use Rattle.paths.specs.Matching.{local_fits, fits};
ghost use Rattle.paths.specs.Reading.{resolved};
ghost use Rattle.path_entries.specs.Entries.{local_from};
ghost use Rattle.bindings.specs.Bindings.{bound_by};
ghost use Rattle.std.proofs.Math.Option.{Option};
ghost use Rattle.texts.specs.Texts.{Text};
ghost use Rattle.matching.specs.Matched.{half_text, names_along, selected_by, reached_by};
ghost use Rattle.matching.specs.Walks.{name_at, names_from, may_match, test_of, ShortIn, PrefixIn, TestIn, StepsIn, attribute_of, AltIn, EndIn, some_seen, ends, node_in};

use bindings::Bindings;

// A branch of the tree: among the names of the open elements those below the element at depth `base`, down to the one
// at depth `depth`. It and the bindings stay two parameters: one struct of both would be no plainer, since a branch is
// made where a scope or selection is known and the bindings where the constraint is read, one for many branches.
#[derive(Clone, Copy)]
pub struct Branch<'a> {
    pub names: &'a [u8],
    pub base: u32,
    pub depth: u32,
}

// A name test: its prefix, if it has one, and its local part. One of no bytes is '*', as in the lent bytes: an Option
// would be no plainer, since only `local_fits` asks. Not the `Test` of `path_reader`, where the star is '*' itself: the
// crates don't stand on each other.
#[derive(Clone, Copy)]
struct Test<'a> {
    prefix: Option<&'a [u8]>,
    local: &'a [u8],
}

// What an alternative comes to: whether its path matches, and the local part of its attribute test, if it has one. The
// flag says nothing of the value beside it: an Option around that Option would be no plainer.
#[derive(Clone, Copy)]
struct Alt<'a> {
    matched: bool,
    attribute: Option<&'a [u8]>,
}

// ---- the names of the open elements
// A name goes by its number, no list of names is made: these are lent bytes, 514 a name, and the library takes no heap.

// The text of a half: its length stands before it.
fn half_text(h: &[u8]) -> &[u8]
    ensures { result.now ≡ half_text h.now }
{
    texts::clipped(h, 2, usize::from(numbers::two_at(h, 0)))
}

// The text in the half of the name of number i that begins so many bytes into its place: 0 for the namespace, 257 for
// the local part.
fn half_at(names: &[u8], i: u32, half: usize) -> &[u8]
    requires { half < 514 }
    ensures { result.now ≡ half_text (part names.now (514 * i + half) 257) }
{
    let first = 514 * (i as usize);
    half_text(texts::clipped(names, first + half, 257))
}

// ---- one name test. What reads from the front of bytes answers what it read and the bytes behind it.

// A text behind its length.
fn short_at(s: &[u8]) -> Option<(&[u8], &[u8])>
    ensures { ShortIn s.now result }
{
    let (&size, rest) = s.split_first()?;
    rest.split_at_checked(usize::from(size))
}

// The prefix of a test, if it has one. One function for this and `end_at`, handed what reads behind the flag, would be
// no plainer: its contract would have to speak of any closure, as that of `any_alternative` does.
fn prefix_at(s: &[u8]) -> Option<(Option<&[u8]>, &[u8])>
    ensures { PrefixIn s.now result }
{
    let (&flag, rest) = s.split_first()?;
    if flag == 0 {
        return Some((None, rest));
    }
    let (prefix, behind) = short_at(rest)?;
    Some((Some(prefix), behind))
}

// The whole test.
fn test_at(s: &[u8]) -> Option<(Test<'_>, &[u8])>
    ensures { TestIn s.now result }
{
    let (prefix, rest) = prefix_at(s)?;
    let (local, behind) = short_at(rest)?;
    Some((Test { prefix, local }, behind))
}

// Whether a local part is the one that is asked for. '*' takes any.
fn local_fits(wanted: &[u8], local: &[u8]) -> bool
    ensures { result ≡ local_fits (local_from wanted.now) local.now }
{
    wanted.is_empty() || texts::same(wanted, local)
}

// ---- the steps of an alternative

// Whether the name of number i fits. The local part comes first: most names differ there, and no binding is looked up
// for them.
fn test_fits(t: Test<'_>, names: &[u8], i: u32, b: &Bindings<'_>) -> bool
    ensures { result ≡ fits (resolved (bound_by b.now) (test_of t.entry)) (name_at i names.now) }
{
    if !local_fits(t.local, half_at(names, i, 257)) {
        return false;
    }
    match t.prefix {
        None => true,
        Some(prefix) => b.fits(prefix, half_at(names, i, 0)),
    }
}

// Whether the names from number `from` on fit the n tests one by one. Where these cannot match, and once a name does
// not fit, they are only walked over: `live` picks no other step, it is what the answer begins with.
fn steps_at<'a>(
    s: &'a [u8],
    n: u8,
    live: bool,
    names: &[u8],
    from: u32,
    b: &Bindings<'_>,
) -> Option<(bool, &'a [u8])>
    requires { from + n < 4294967296 }
    ensures { StepsIn (bound_by b.now) live (names_from from n names.now) n s.now result }
{
    let end = from + u32::from(n);
    let mut rest = s;
    let mut fit = live;
    for i in from..end {
        let (t, behind) = test_at(rest)?;
        fit = fit && test_fits(t, names, i, b);
        rest = behind;
    }
    Some((fit, rest))
}

// ---- one alternative

// The end of an alternative, behind its steps: the local part of its attribute test, if it has one.
fn end_at(s: &[u8]) -> Option<(Option<&[u8]>, &[u8])>
    ensures { EndIn s.now result }
{
    let (&flag, rest) = s.split_first()?;
    if flag == 0 {
        return Some((None, rest));
    }
    let (t, behind) = test_at(rest)?;
    Some((Some(t.local), behind))
}

// Whether n steps can take m names: with './/' the last ones, else all. The flag is a byte of the lent entry, of which
// any but 0 stands for './/'.
fn may_match(flag: u8, n: u32, m: u32) -> bool
    ensures { result ≡ may_match flag n m }
{
    if flag == 0 {
        return n == m;
    }
    n <= m
}

// An alternative, held against the names of the branch. Its n steps take the last n of them, which are all where all
// are asked for.
fn alternative_at<'a>(s: &'a [u8], on: &Branch<'_>, b: &Bindings<'_>) -> Option<(Alt<'a>, &'a [u8])>
    ensures { AltIn (bound_by b.now) (names_along on.now) s.now result }
{
    let (&flag, rest) = s.split_first()?;
    let (&n, rest) = rest.split_first()?;
    let steps = u32::from(n);
    let live = may_match(flag, steps, on.depth.saturating_sub(on.base));
    let from = on.depth.saturating_sub(steps);
    let (matched, rest) = steps_at(rest, n, live, on.names, from, b)?;
    let (attribute, behind) = end_at(rest)?;
    Some((Alt { matched, attribute }, behind))
}

// Whether it reaches the node that is asked for: the element itself, or an attribute of it with this local part.
fn reaches_node(a: Alt<'_>, local: Option<&[u8]>) -> bool
    ensures { result ≡ (ends (attribute_of a.entry.attribute) local.entry && a.entry.matched) }
{
    if !a.matched {
        return false;
    }
    match (a.attribute, local) {
        (None, None) => true,
        (Some(wanted), Some(local)) => local_fits(wanted, local),
        _ => false,
    }
}

// ---- all alternatives

// Whether some alternative of the path in the area passes the test, held against the names of the branch. Behind one
// that is cut off there is none.
fn any_alternative<F: Fn(Alt<'_>) -> bool>(
    area: &[u8],
    on: &Branch<'_>,
    b: &Bindings<'_>,
    test: F,
) -> bool
    requires { F.IsAlwaysCallable test }
    ensures { (t : Bool → Option (Option Text) → Bool) → ((a : _) (r : Bool) → F.post test a r → r ≡ t a.matched (attribute_of a.attribute)) → result ≡ some_seen t (bound_by b.now) (names_along on.now) area.now }
{
    let Some((&count, mut rest)) = area.split_first() else {
        return false;
    };
    for _i in 0..count {
        let Some((a, behind)) = alternative_at(rest, on, b) else {
            return false;
        };
        if test(a) {
            return true;
        }
        rest = behind;
    }
    false
}

// Whether some alternative of the selector in the area matches the names of the branch.
pub fn selects(area: &[u8], on: &Branch<'_>, b: &Bindings<'_>) -> bool
    ensures { result ≡ selected_by (bound_by b.now) area.now (names_along on.now) }
{
    any_alternative(area, on, b, |a| a.matched)
}

// Whether some alternative of the field in the area reaches the element at the end of the branch, or an attribute of it
// with this qualified name: then that node is one hit, and else none.
pub fn reaches(area: &[u8], on: &Branch<'_>, b: &Bindings<'_>, attribute: Option<&[u8]>) -> bool
    ensures { cond {A = ℕ} result 1 0 ≡ reached_by (bound_by b.now) area.now (names_along on.now) (node_in attribute.entry) }
{
    let local = attribute.map(open_names::after_colon);
    any_alternative(area, on, b, |a| reaches_node(a, local))
}

// ---- the end of the code
