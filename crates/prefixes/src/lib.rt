// The declared prefixes: words with single spaces between them, compared with code points in place.
#![tactic(auto)]

ghost use Rattle.std.specs.Prelude.{◌≡◌, ◌∷◌};
ghost use Rattle.texts.specs.Texts.{same};
ghost use Rattle.utf8.specs.Utf8.{decode};
ghost use Rattle.grammar.specs.Paths.{xml};
ghost use Rattle.reasons.specs.Reasons.{declares, test_declared};
ghost use Rattle.tokens.specs.Places.{test_of};
ghost use Rattle.prefixes.specs.Prefixes.{words_of};

use code_points::Points;
use tokens::NameTest;

// The prefix that needs no declaration, by its bytes.
const XML: &[u8] = b"xml";

// ---- one word

// Whether p is the word, which is given by its bytes. The first difference ends the walk.
pub fn spelled(p: &[u32], word: &[u8]) -> bool
    ensures { result ≡ same p.now (decode word.now) }
{
    p.iter().copied().eq(Points(word))
}

// ---- the words between spaces

// Whether p is one of the words.
fn listed(p: &[u32], prefixes: &[u8]) -> bool
    ensures { result ≡ declares (words_of prefixes.now) p.now }
{
    prefixes.split(|&b| b == 0x20).any(|word| spelled(p, word))
}

// Whether p is `xml` or one of the words.
fn declared(p: &[u32], prefixes: &[u8]) -> bool
    ensures { result ≡ declares (xml ∷ words_of prefixes.now) p.now }
{
    spelled(p, XML) || listed(p, prefixes)
}

// Whether the prefix of a name test, where it has one, is `xml` or declared.
#[tactic(auto, unfolding(reasons::specs::Reasons::test_declared))]
pub fn check_prefix(n: NameTest<'_>, prefixes: &[u8]) -> bool
    ensures { result ≡ test_declared (words_of prefixes.now) (test_of n.entry) }
{
    match n {
        NameTest::Star | NameTest::Local(_) => true,
        NameTest::PrefixStar(p) | NameTest::Prefixed(p, _) => declared(p, prefixes),
    }
}

// ---- the end of the code
