//! How far a command has come, with the disk that was handed in.
ghost use Rattle.std.specs.Prelude.{◌≡◌, Err};

use cell_walks::EarlyEnd;

/// What was made, and the disk that was handed in.
#[derive(Drop)]
pub struct Made<T, D> {
    pub made: T,
    pub disk: D,
}

/// What is to be answered, or the early end in its place, and the disk that was handed in.
pub type Answered<T, D> = Made<Result<T, EarlyEnd>, D>;

impl<T, D> Made<Result<T, EarlyEnd>, D> {
    /// The command ended before its answer.
    pub fn ended(end: EarlyEnd, disk: D) -> Answered<T, D>
        ensures made { result.made ≡ Err end }
        ensures disk { result.disk ≡ disk }
    {
        Made {
            made: Err(end),
            disk,
        }
    }
}
