//! Elements moved within a list, all in one pass.
ghost use Rattle.std.specs.Prelude.{◌≡◌, ◌-◌, ◌<◌, ◌≤◌, ◌++◌, ◌∷◌, [], length, vec_len, slice_index_or};
ghost use Rattle.std.specs.List.{remove};
ghost use Rattle.patch_stacks.specs.State.{run_down};

use std::alloc::Allocator;

/// Moves what stands from `k` up to `stop` down to the place `front`:
///
///     a b c d e    `front` is 1, `k` is 2, `stop` is 4
///     a c b d e    c went down past b
///     a c d b e    so did d
pub(crate) fn turn_run_down<T>(list: &mut [T], front: usize, k: usize, stop: usize)
    requires down { front ≤ k }
    requires up { k ≤ stop }
    requires within { stop ≤ length list.old }
    ensures { (d : T) → list.new ≡ run_down d list.old front k (stop - k) }
{
    let passed = &mut list[front..stop];
    passed.rotate_left(k - front);
}

/// Takes out what stands at a place. What stands behind it is moved in one pass.
pub(crate) fn take_out<T, A: Allocator>(list: &mut Vec<T, A>, at: usize) -> T
    requires { at < vec_len list.old }
    ensures value { result ≡ slice_index_or list.old.items at result }
    ensures items { list.new.items ≡ remove list.old.items at }
{
    turn_up(list.as_mut_slice(), at);
    let last = list.len() - 1;
    list.remove(last)
}

/// Moves what stands at a place up to the end.
fn turn_up<T>(list: &mut [T], at: usize)
    requires { at < length list.old }
    ensures { (d : T) → list.new ≡ remove list.old at ++ slice_index_or list.old at d ∷ [] }
{
    let behind = &mut list[at..];
    behind.rotate_left(1);
}
