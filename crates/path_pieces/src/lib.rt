// The pieces of a path's text: where one ends, the text cut there, what stands behind a text's front, and what a part
// between slashes is.
#![tactic(auto)]

ghost use Rattle.std.specs.Prelude.{◌≡◌, [], ◌∷◌, MatchOption};
ghost use Rattle.paths.specs.Reading.{split_at, behind};
ghost use Rattle.path_pieces.specs.Pieces.{piece_length, CutAt, standing, PartOf};

// A part between slashes: an attribute or a child by its name test, or the element itself.
#[derive(Clone, Copy)]
pub enum Part<'a> {
    Attribute(&'a [u8]),
    Itself,
    Child(&'a [u8]),
}

// What a part is, by how it begins.
pub fn as_part(t: &[u8]) -> Part<'_>
    ensures { PartOf t.now result }
{
    if let Some(test) = behind(t, b"@") {
        Part::Attribute(test)
    } else if let Some(test) = behind(t, b"attribute::") {
        Part::Attribute(test)
    } else if texts::same(t, b".") {
        Part::Itself
    } else {
        Part::Child(behind(t, b"child::").unwrap_or(t))
    }
}

// How many bytes stand before the first c; all of them where there is none.
pub fn piece_length(s: &[u8], c: u8) -> usize
    ensures { result ≡ piece_length c s.now }
{
    s.iter().position(|&b| b == c).unwrap_or(s.len())
}

// The piece before the first c and what stands behind that c. None where there is no c, and the whole text is one
// piece.
pub fn split_piece(s: &[u8], c: u8) -> Option<(&[u8], &[u8])>
    ensures { MatchOption result (split_at c s.now ≡ s.now ∷ []) (λ q. CutAt c s.now q.0.now q.1.now) }
{
    let size = s.iter().position(|&b| b == c)?;
    Some((&s[..size], &s[size + 1..]))
}

// What stands behind the bytes of another text, where a text begins with them. By the one comparison of texts and not by
// the library's `strip_prefix`, which would be a second one (docs/DECISIONS.md, D83).
pub fn behind<'a>(s: &'a [u8], front: &[u8]) -> Option<&'a [u8]>
    ensures { standing result ≡ behind front.now s.now }
{
    let rest = s.get(front.len()..)?;
    texts::same(front, texts::clipped(s, 0, front.len())).then_some(rest)
}

// ---- the end of the code
