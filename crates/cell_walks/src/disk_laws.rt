//! What every disk keeps, each law the contract of a function that does nothing.
ghost use Rattle.std.specs.Prelude.{ℕ, List, IfSome};

use outside_io::Disk;

/// What a disk reads as is one of the files that a crash may leave.
pub fn reads_an_image<D: Disk>(disk: &D)
    ensures { IfSome (D.reads_as disk.now) (D.may_leave disk.now) }
{}

/// Since this moment a crash might have left only what one may leave now.
pub fn leaves_only_now<D: Disk>(disk: &D)
    ensures { (file : List ℕ) → D.left_since disk.now (D.moment disk.now) file → D.may_leave disk.now file }
{}
