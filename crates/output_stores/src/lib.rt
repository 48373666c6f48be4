// What the tuple store and the report store share: a set of constraint numbers, bytes written behind the used ones; and
// the used part of a store.
#![tactic(auto)]

ghost use Rattle.std.specs.Prelude.{◌≡◌, ◌-◌, take};
ghost use Rattle.lists.specs.Lists.{part};
ghost use Rattle.output_stores.specs.Stores.{Appended, in_mask};

// Where a TU has its constraint, its scope and its field count, behind which its texts stand.
pub const TU_CONSTRAINT: usize = 4;

pub const TU_SCOPE: usize = 5;

pub const TU_COUNT: usize = 9;

pub const TU_TEXTS: usize = 10;

// Whether a constraint number is in a set, which has a bit for each of the 32 there can be. A set is a bare number,
// since C hands sets in and is handed them, and the definitions speak of its bits: a type of its own would be taken
// off at each.
pub fn has(mask: u32, constraint: u8) -> bool
    ensures { result ≡ in_mask mask constraint }
{
    constraint <= 31 && (mask >> constraint) % 2 == 1
}

// Adds bytes behind the used ones of a store, and answers the new used length. Where there is no room nothing changes.
// The old length then is no plainer as None: callers know that there is room, and go on from the length at once.
// Here and below the used length stands beside the store, as C lends both.
pub fn append_bytes(store: &mut [u8], used: usize, bytes: &[u8]) -> usize
    ensures { Appended store.old used bytes.now result store.new }
{
    if store.len() < bytes.len() || store.len() - bytes.len() < used {
        return used;
    }
    numbers::put_bytes(store, used, bytes);
    used + bytes.len()
}

// The used bytes of a store, as far as they are there.
// usize has 64 bits too, so the conversion loses nothing; try_from would add an error that never is.
pub fn used_of(store: &[u8], used: u64) -> &[u8]
    ensures { result.now ≡ take used store.now }
{
    texts::clipped(store, 0, used as usize)
}

// What a store holds between two used lengths, as far as it is there: nothing where the second is not larger.
pub fn between(store: &[u8], from: u64, to: u64) -> &[u8]
    ensures { result.now ≡ part store.now from (to - from) }
{
    texts::clipped(store, from as usize, to.saturating_sub(from) as usize)
}

// ---- the end of the code
