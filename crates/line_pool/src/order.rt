//! The order of the frames, with the place of each.

ghost use Rattle.std.specs.Prelude.{◌≡◌, ℕ, ◌<◌, length, slice_index, slice_set, IfOk};
ghost use Rattle.line_pool.specs.Kept.{IsOrder};

use std::alloc::{AllocError, Global};

/// The frames in their first order: each at the place of its own number.
pub fn first_order(alloc: Global, frames: u32) -> Result<Vec<u32>, AllocError>
    ensures long { IfOk result (λ order. length order.items ≡ frames) }
    ensures numbered { IfOk result (λ order. (i : ℕ) → i < frames → slice_index order.items i ≡ i) }
{
    let mut order = Vec::new(alloc);
    for frame in 0..frames {
        order.push(frame)?;
    }
    Ok(order)
}

/// Swaps a frame with the one at this place.
pub fn move_frame(order: &mut Vec<u32>, place: &mut Vec<u32>, frame: usize, to: usize)
    requires order { IsOrder order.old.items place.old.items }
    requires frame { frame < length order.old.items }
    requires to { to < length order.old.items }
    ensures order { IsOrder order.new.items place.new.items }
    ensures long { length order.new.items ≡ length order.old.items }
    ensures places { place.new.items
        ≡ slice_set (slice_set place.old.items (slice_index order.old.items to)
        (slice_index place.old.items frame)) frame to }
{
    let from = place[frame] as usize;
    let other = order[to];
    order[from] = other;
    order[to] = frame as u32;
    place[other as usize] = from as u32;
    place[frame] = to as u32;
}
