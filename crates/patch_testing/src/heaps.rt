//! Heaps that are full but for one hole, whose size decides which allocation is refused first.
ghost use Rattle.std.specs.Prelude.{◌≡◌, ◌≤◌, IfOk};
ghost use Rattle.patch_testing.specs.Heaps.{ArePieces, hole as the_hole};

use linked_list_allocator::LocalHeap;
use patch_model::OutOfMemory;
use std::alloc::Global;

/// How many bytes the heap of a test has.
pub const HEAP: usize = 65_536;

/// How many bytes the largest pieces have that fill a heap. The next ones have a quarter, and so on.
const LARGEST: usize = 16_384;

/// How many bytes the smallest pieces have.
const SMALLEST: usize = 16;

/// As many pieces of one size as are taken at most.
const MOST_PIECES: usize = 64;

/// Pieces of a heap, which are in the way of whoever wants memory of it.
pub type Ballast<'a> = Vec<Vec<u8, &'a LocalHeap>>;

/// Takes pieces of this size.
fn take_pieces<'a>(
    heap: &'a LocalHeap,
    ballast: &mut Ballast<'a>,
    size: usize,
) -> Result<(), OutOfMemory>
    requires { SMALLEST ≤ size }
    ensures { ArePieces ballast.old.items → ArePieces ballast.new.items }
{
    for _ in 0..MOST_PIECES {
        let Ok(piece) = vec![in heap; 0; size] else {
            break;
        };
        ballast.push(piece)?;
    }
    Ok(())
}

/// All of a heap's memory, but for less than the smallest piece.
fn all_of<'a>(alloc: Global, heap: &'a LocalHeap) -> Result<Ballast<'a>, OutOfMemory>
    ensures { IfOk result (λ ballast. ArePieces ballast.items) }
{
    let mut ballast = Vec::new(alloc);
    let mut size = LARGEST;
    while size >= SMALLEST {
        take_pieces(heap, &mut ballast, size)?;
        size /= 4;
    }
    Ok(ballast)
}

/// Takes all of a heap's memory but one hole of this size. That no more is left is no matter of contracts, which see no heap:
/// the test `a_full_heap_has_one_hole` looks.
pub fn fill<'a>(alloc: Global, heap: &'a LocalHeap, hole: usize) -> Result<Ballast<'a>, OutOfMemory>
    ensures { IfOk result (λ ballast. ArePieces ballast.items) }
{
    let kept: Vec<u8, &'a LocalHeap> = Vec::with_capacity(heap, hole)?;
    let ballast = all_of(alloc, heap)?;
    drop(kept);
    Ok(ballast)
}

/// The sizes of holes to be tried one after the other: none at first, each larger than the one before by 16 bytes, then by 64,
/// and at last no more.
pub fn hole_of(turn: usize) -> usize
    ensures { result ≡ the_hole turn }
{
    let small = turn.min(64);
    let large = turn.saturating_sub(small).min(1000);
    small * 16 + large * 64
}
