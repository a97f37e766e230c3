//! Which version of the file a cell needs.
ghost use Rattle.std.specs.Prelude.{◌≡◌, ◌≤◌, length};
ghost use Rattle.std.specs.List.{All};
ghost use Rattle.std.specs.Str.{bytes_eq};
ghost use Rattle.cell_base.specs.Fits.{TypeFits};
ghost use Rattle.cell_base.specs.Successors.{place_after};
ghost use Rattle.cell_file.specs.Printing.{is_plain, version_of};

use cell_base::{Cell, JobType};

/// Version 1 where each place of each type has the place after it as its only successor, and else version 2.
pub fn version_of(cell: &Cell) -> u32
    requires { All (TypeFits (length cell.now.resources)) cell.now.types }
    ensures { result ≡ version_of cell.now }
{
    for job_type in cell.types.as_slice() {
        if !is_plain(job_type) {
            return 2;
        }
    }
    1
}

fn is_plain(job_type: &JobType) -> bool
    requires { length job_type.now.next ≤ 64 }
    ensures { result ≡ is_plain job_type.now }
{
    let places = job_type.route.as_slice().len();
    for (place, next) in job_type.next.as_slice().iter().enumerate() {
        if !is_place_after(places, place, next.as_slice()) {
            return false;
        }
    }
    true
}

fn is_place_after(places: usize, place: usize, next: &[u16]) -> bool
    requires { place ≤ 64 }
    ensures { result ≡ bytes_eq next.now (place_after places place) }
{
    match next {
        [] => places <= place + 1,
        [only] => place + 1 < places && *only as usize == place + 1,
        _ => false,
    }
}
