// The records of bytes one behind the other: four bytes of mark and length each, and as many as these say.
#![tactic(auto)]

ghost use Rattle.std.specs.Prelude.{◌≡◌, [], ◌∷◌, MatchOption};
ghost use Rattle.std.specs.Iterator.{YieldsFirstRef, item_count};
ghost use Rattle.session_spec.specs.Definitions.{frame};
ghost use Rattle.output_stores.specs.Stores.{standing};
ghost use Rattle.frames.specs.Frames.{parts};

// The record at the front and the bytes behind it. None where no whole one stands there.
pub fn split(s: &[u8]) -> Option<(&[u8], &[u8])>
    ensures cuts { parts result ≡ frame s.now }
    ensures stands { MatchOption result (standing frame s.now ≡ []) (λ q. standing frame s.now ≡ q.0.now ∷ standing frame q.1.now) }
{
    if s.len() < 4 {
        return None;
    }
    s.split_at_checked(usize::from(numbers::two_at(s, 2)) + 4)
}

// The records of bytes, one behind the other, as far as they are whole.
#[derive(Drop)]
pub struct Records<'a>(pub &'a [u8]);

impl<'a> Iterator for Records<'a> {
    type Item = &'a [u8];

    ghost next_gives = { YieldsFirstRef (λ s. standing frame s.0.now) };

    ghost remaining = { item_count (λ s. standing frame s.0.now) };

    fn next(&mut self) -> Option<&'a [u8]> {
        let (front, behind) = split(self.0)?;
        self.0 = behind;
        Some(front)
    }
}

// ---- the end of the code
