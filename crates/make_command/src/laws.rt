//! What is the same of every number, each fact the contract of a function that does nothing else.
ghost use Rattle.std.specs.Prelude.{◌≡◌, length};
ghost use Rattle.cell_make.specs.Cells.{drawn_cell};
ghost use Rattle.cell_make.specs.Shifts.{drawn_shift};

/// Sixteen resources and eight types are drawn, and a shift of 64 sessions: the second line of a summary tells these numbers.
pub fn sizes_are_fixed(number: u64)
    ensures resources { length (drawn_cell number).resources ≡ 16 }
    ensures types { length (drawn_cell number).types ≡ 8 }
    ensures sessions { length (drawn_shift number).scripts ≡ 64 }
{
    let _ = number;
}
