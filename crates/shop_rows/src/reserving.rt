//! Capacity for more rows.

ghost use Rattle.std.specs.Prelude.{◌≡◌, ◌+◌, ◌≤◌, OnOk, vec_len, vec_capacity};

use std::alloc::AllocError;

/// Reserves capacity for `count` more rows. If it has to grow, the list grows by an eighth of its length, or by `count` if that is
/// more, so that a long list keeps at most an eighth of its length spare (`Vec::reserve` keeps up to half). Changes no row, even
/// if memory runs out.
pub fn reserve_rows<T>(rows: &mut Vec<T>, count: usize) -> Result<(), AllocError>
    ensures items { rows.new.items ≡ rows.old.items }
    ensures len { vec_len rows.new ≡ vec_len rows.old }
    ensures capacity { vec_capacity rows.old ≤ vec_capacity rows.new }
    ensures ok { OnOk result (vec_len rows.new + count ≤ vec_capacity rows.new) }
{
    let len = rows.len();
    if count <= rows.capacity() - len {
        return Ok(());
    }
    rows.reserve_exact(count.max(len / 8))
}
