//! The value that a line puts.
ghost use Rattle.std.specs.Prelude.{◌≡◌, ◌+◌, ◌*◌, ◌++◌, ◌≤◌, IfOk, length, take};
ghost use Rattle.patch_commands.specs.Value.{value_of, is_short};

use crate::commands::MAX_VALUE_TEXT;
use patch_model::{Bytes, Items, OutOfMemory};
use std::alloc::Global;

/// Whether a piece, so many times over, has no more bytes than a line's value may. It lays nothing out.
#[tactic(auto, using(crate::proofs::Lengths::is_short_product))]
pub fn is_short_value(piece: &[u8], times: u32) -> bool
    ensures { result ≡ is_short piece.now times }
{
    match piece.len().checked_mul(times as usize) {
        Some(length) => length <= MAX_VALUE_TEXT,
        None => false,
    }
}

/// Writes the first bytes of a room once more, behind those that are laid there.
fn lay_again(room: &mut [u8], laid: usize, more: usize)
    requires enough { more ≤ laid }
    requires fits { laid + more ≤ length room.old }
    ensures { take (laid + more) room.new ≡ take laid room.old ++ take more room.old }
{
    let (front, rest) = room.split_at_mut(laid);
    rest[..more].copy_from_slice(&front[..more]);
}

/// Fills a room with a piece, so many times over. All that is laid is laid again in one run, so that a short piece is
/// copied in long runs.
fn lay(room: &mut [u8], piece: &[u8], times: usize)
    requires { length room.old ≡ length piece.now * times }
    ensures { room.new ≡ value_of piece.now times }
{
    if times == 0 {
        return;
    }
    room[..piece.len()].copy_from_slice(piece);
    let mut done = 1;
    while done < times {
        let more = done.min(times - done);
        lay_again(room, piece.len() * done, piece.len() * more);
        done += more;
    }
}

/// A piece, so many times over: the value that a line puts.
pub fn laid_out(alloc: Global, piece: &[u8], times: u32) -> Result<Bytes, OutOfMemory>
    ensures { IfOk result (λ value. value ≡ value_of piece.now times) }
{
    let Some(length) = piece.len().checked_mul(times as usize) else {
        return Err(OutOfMemory);
    };
    let mut value = Vec::with_capacity(alloc, length)?;
    value.resize(length, 0)?;
    lay(value.as_mut_slice(), piece, times as usize);
    Ok(Items::from_vec(value))
}

/// The value that a line puts: its piece itself, where that stands once.
pub fn value(alloc: Global, piece: Bytes, times: u32) -> Result<Bytes, OutOfMemory>
    ensures { IfOk result (λ value. value ≡ value_of piece times) }
{
    if times == 1 {
        return Ok(piece);
    }
    laid_out(alloc, piece.as_slice(), times)
}
