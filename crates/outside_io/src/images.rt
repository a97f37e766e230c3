//! The images that a crash may leave of a disk in memory, one for each number.
ghost use Rattle.std.specs.Prelude.{◌≡◌, ◌<◌, ◌≤◌, length, slice_index, IfOk, if◌then◌else◌};
ghost use Rattle.outside_io.specs.Draws.{draw, next_number};
ghost use Rattle.outside_io.specs.DrawnImages.{drawn_length, drawn_image};
ghost use Rattle.outside_io.specs.Images.{IsImage, is_written};
ghost use Rattle.outside_io.specs.ImageLaws.{IsGrown};
ghost use Rattle.outside_io.specs.Replayed.{state_of};

use crate::generator::draw;
use crate::replayed::{Replayed, any_has};
use lists::NoMemory;
use std::alloc::Global;

/// An image that a crash may leave: 0 the bytes at the last sync, 1 what a read finds, any other number one drawn from it.
pub(crate) fn image(alloc: Global, state: &Replayed, pick: u64) -> Result<Vec<u8>, NoMemory>
    requires grown { IsGrown (state_of state.now) }
    requires at_sync { IsImage (state_of state.now) state.now.stable.items }
    ensures image { IfOk result (λ image. IsImage (state_of state.now) image.items) }
    ensures at_sync { pick ≡ 0 → IfOk result (λ image. image.items ≡ state.now.stable.items) }
    ensures as_read { pick ≡ 1 → IfOk result (λ image. image.items ≡ state.now.seen.items) }
    ensures drawn { 1 < pick → IfOk result (λ image. image.items ≡ drawn_image (state_of state.now) pick) }
{
    match pick {
        0 => Ok(state.stable.to_vec(alloc)?),
        1 => Ok(state.seen.to_vec(alloc)?),
        _ => drawn_image(alloc, state, pick),
    }
}

// A length between, any bytes in the spans, and the rest as it reads, drawn in this order.
fn drawn_image(alloc: Global, state: &Replayed, number: u64) -> Result<Vec<u8>, NoMemory>
    requires grown { IsGrown (state_of state.now) }
    ensures image { IfOk result (λ image. IsImage (state_of state.now) image.items) }
    ensures drawn { IfOk result (λ image. image.items ≡ drawn_image (state_of state.now) number) }
{
    let mut x = number;
    let size = drawn_length(state, &mut x);
    let mut image = Vec::new(alloc);
    for k in 0..size {
        image.push(drawn_byte(state, &mut x, k))?;
    }
    Ok(image)
}

fn drawn_length(state: &Replayed, x: &mut u64) -> u64
    requires grown { IsGrown (state_of state.now) }
    ensures drawn { result ≡ drawn_length (state_of state.now) x.old }
    ensures number { x.new ≡ next_number x.old }
    ensures no_shorter { length state.now.stable.items ≤ result }
    ensures no_longer { result ≤ state.now.longest }
{
    let stable = state.stable.len() as u64;
    stable + draw(x, (state.longest - stable).saturating_add(1))
}

fn drawn_byte(state: &Replayed, x: &mut u64, k: u64) -> u8
    ensures byte { result ≡ (if is_written (state_of state.now).written k then draw x.old 256
        else slice_index state.now.seen.items k) }
    ensures number { x.new ≡ (if is_written (state_of state.now).written k then next_number x.old else x.old) }
{
    if any_has(&state.written, k) {
        draw(x, 256) as u8
    } else if k < state.seen.len() as u64 {
        state.seen[k as usize]
    } else {
        0
    }
}
