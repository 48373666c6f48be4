// A whole path over its code points: `validate_path`, and `validate_identity_xpath` over the alternatives.
#![tactic(auto)]

ghost use Rattle.std.specs.Prelude.{◌≡◌};
ghost use Rattle.reasons.specs.Reasons.{start, validate_path, split_at, reason};
ghost use Rattle.reasons.specs.Reasons as reasons;
ghost use Rattle.tokens.specs.Places.{tokens_in, reason_of};
ghost use Rattle.prefixes.specs.Prefixes.{words_of};
ghost use Rattle.path_steps.specs.Steps.{kind_of};
ghost use Rattle.path_walk.specs.Walk.{SeparatorIs, BeginIs, vertical_bar};

use path_steps::PathKind;
use tokens::{Reason, Tok};

// `kind` and `prefixes` are no struct: the definitions take them one by one, and each clause would name both fields.

// ---- from step to step

// What stands behind the '/' that stands first where a step has ended, or none where no token stands. A fault is no
// separator either.
fn behind_step(s: &[u32]) -> Result<Option<&[u32]>, Reason>
    ensures { SeparatorIs s.now result }
{
    let Ok(first) = tokens::first_token(s) else {
        return Err(Reason::Separator);
    };
    let Some(t) = first else {
        return Ok(None);
    };
    match t.tok {
        Tok::Slash => Ok(Some(t.behind)),
        _ => Err(Reason::Separator), // another token
    }
}

// A step, and so on behind each '/'. Behind the last one a step must stand, too.
fn steps(s: &[u32], kind: PathKind, prefixes: &[u8]) -> Result<(), Reason>
    ensures { reason_of result ≡ reasons.steps (kind_of kind) (words_of prefixes.now) start (tokens_in s.now) }
{
    let mut rest = s;
    while let Some(behind) = path_steps::step_at(rest, kind, prefixes)? {
        let Some(next) = behind_step(behind)? else {
            return Ok(());
        };
        rest = next;
    }
    Ok(())
}

// ---- one alternative

// What stands behind a './/' that stands first, or none where a step does. Most paths do not begin with '.', and their
// first character shows it: so no token is read twice.
fn path_begin(s: &[u32]) -> Result<Option<&[u32]>, Reason>
    ensures { BeginIs s.now result }
{
    let i = tokens::gap_length(s);
    let Some((&first, behind)) = s[i..].split_first() else {
        return Err(Reason::EmptyAlternative);
    };
    if first != 0x2E {
        return Ok(None);
    }
    let Some(t) = tokens::first_token(behind).unwrap_or(None) else {
        return Ok(None);
    };
    match t.tok {
        Tok::DoubleSlash => Ok(Some(t.behind)),
        _ => Ok(None),
    }
}

// A path by its tokens, as far as the text is tokens.
fn validate_path(s: &[u32], kind: PathKind, prefixes: &[u8]) -> Result<(), Reason>
    ensures { reason_of result ≡ validate_path (kind_of kind) (words_of prefixes.now) (tokens_in s.now) }
{
    let Some(rest) = path_begin(s)? else {
        return steps(s, kind, prefixes);
    };
    if tokens::is_blank(rest) {
        return Err(Reason::DescentAlone);
    }
    steps(rest, kind, prefixes)
}

// A path that passes was read to its end, and has no fault. One that does not is read again: a fault anywhere in it
// comes before its reason.
fn alternative(s: &[u32], kind: PathKind, prefixes: &[u8]) -> Result<(), Reason>
    ensures { reason_of result ≡ reasons.alternative (kind_of kind) (words_of prefixes.now) s.now }
{
    let Err(why) = validate_path(s, kind, prefixes) else {
        return Ok(());
    };
    tokens::tokenize(s)?;
    Err(why)
}

// ---- the alternatives

// The first reason of the alternatives in their order: those between the '|'. Behind the last '|' one stands, too, be
// it empty.
fn alternatives(s: &[u32], kind: PathKind, prefixes: &[u8]) -> Result<(), Reason>
    ensures { reason_of result ≡ reasons.alternatives (kind_of kind) (words_of prefixes.now) (split_at vertical_bar s.now) }
{
    for one in s.split(|&c| c == 0x7C) {
        alternative(one, kind, prefixes)?;
    }
    Ok(())
}

// Whether a path passes; if not, the first reason. The prefixes are words with single spaces between them.
pub fn validate_identity_xpath(s: &[u32], kind: PathKind, prefixes: &[u8]) -> Result<(), Reason>
    ensures { reason_of result ≡ reason (kind_of kind) s.now (words_of prefixes.now) }
{
    if tokens::is_blank(s) {
        return Err(Reason::EmptyPath);
    }
    alternatives(s, kind, prefixes)
}

// ---- the end of the code
