//! The second line after a refusal, for a person at a terminal.
//!
//! What the program prints is fixed by the formats, and is for programs: `shift refused 6 session 2 steps 0`. `hint` makes one line in
//! plain words of it, with the file's name and the value that stands there:
//!
//! ```text
//! shift.toml, session 2, step 0, "process M9": the cell has no resource or type of this name
//! ```
//!
//! It is made after the command has ended, of the line that was printed last: a table has a place and a text for each such line. That line
//! says what the readers found, and nothing is judged once more: of the file only what stands at the place is looked at. Where a line can't
//! be made there is none. The crate stands on none that reads or decides, and promises nothing but that it returns.
#![tactic(auto)]

mod asked;
mod ended;
mod failed;
mod found;
mod hint_line;
mod journal_place;
mod line_place;
mod no_command;
mod place;
mod refusal;
mod refused;
mod texts;
mod toml_place;
mod unseen;

pub use ended::{Ended, hint};
pub use hint_line::HintLine;
pub use unseen::{BEGINS_WITH_MARK, BYTE_ORDER_MARK, ENDS_IN_RETURN};
