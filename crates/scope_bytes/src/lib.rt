// The open scopes as they are handed in and out: sixteen records of 12 bytes, loaded into the values that the code
// works on and stored back. Fixed memory: C lends all sixteen, however many are open, and the library takes no heap.
#![tactic(auto)]

ghost use Rattle.std.specs.Prelude.{◌≡◌};
ghost use mathlib.Core.List.{flat_map};
ghost use Rattle.lists.specs.Lists.{put};
ghost use Rattle.scope_bytes.specs.ScopeBytes.{scopes_in, scope_bytes};

use open_scopes::Scope;
use std::array;

// The sixteen scope records at the front of bytes. A byte that is not there counts as 0.
pub fn load_scopes(bytes: &[u8]) -> [Scope; 16]
    ensures { result ≡ scopes_in bytes.now }
{
    array::from_fn(|k| Scope {
        constraint: numbers::four_at(bytes, 12 * k),
        number: numbers::four_at(bytes, 12 * k + 4),
        depth: numbers::four_at(bytes, 12 * k + 8),
    })
}

// Writes them back to the front. Where there are fewer than 192 bytes nothing changes. It could not fail and still
// can't: no Result.
pub fn store_scopes(bytes: &mut [u8], list: [Scope; 16])
    ensures { bytes.new ≡ put bytes.old 0 (flat_map scope_bytes list) }
{
    if bytes.len() < 192 {
        return;
    }
    for (k, one) in list.iter().enumerate() {
        let start = 12 * k;
        numbers::put_four(bytes, start, one.constraint);
        numbers::put_four(bytes, start + 4, one.number);
        numbers::put_four(bytes, start + 8, one.depth);
    }
}

// ---- the end of the code
