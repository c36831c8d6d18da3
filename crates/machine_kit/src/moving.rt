ghost use Rattle.std.specs.Prelude.{◌≡◌, ◌++◌, ◌<◌, ◌≤◌, take, drop, vec_len, vec_capacity, OnOk};

use std::alloc::AllocError;

/// Takes the items between two places out.
pub(crate) fn take_out<V: Copy>(items: &mut Vec<V>, to: usize, from: usize)
    requires order { to ≤ from }
    requires within { from ≤ vec_len items.old }
    ensures { items.new.items ≡ take to items.old.items ++ drop from items.old.items }
{
    if to < from {
        let end = items.len();
        items.as_mut_slice().copy_within(from..end, to);
        items.truncate(to + (end - from));
    }
}

/// Makes room for one more item.
#[cold]
#[inline(never)]
pub(crate) fn make_room<V>(items: &mut Vec<V>) -> Result<(), AllocError>
    ensures same { items.new.items ≡ items.old.items }
    ensures len { vec_len items.new ≡ vec_len items.old }
    ensures room { OnOk result (vec_len items.new < vec_capacity items.new) }
{
    items.reserve(1)
}
