//! The real outside: files of the system, standard input and output and the clock, as the traits of `outside_io` want them; and the
//! words of the command line. The file of a journal is that of `journal_disk`.
//!
//! The programs `wishkabe` and `solo_program` hand these to their top calls, and nothing else uses them. Proved of each is that its calls
//! are safe and return, and that a call answers a failure only where its count of faults rose. None tells what it holds, since no proof
//! knows what a file does: that bytes go where they are meant to is tested, by `journal_tests` and by `checks/real-outside`.
//!
//! ```text
//! let mut files = DirFiles::new(&rt, false);
//! let mut out = OutSink::new(out_writer(&rt, rt.alloc()));
//! let pace = RestPace::new(&rt);
//! let ended = cell_main(&rt, rt.alloc(), &words, &mut files, &mut out, NullDisk, &pace);
//! ```
#![tactic(auto)]

mod dir_files;
mod failure;
mod in_source;
mod out_sink;
mod progress;
mod regular_files;
mod rest_pace;
mod seen_sink;
mod words;

pub use dir_files::DirFiles;
pub use failure::Failure;
pub use in_source::InSource;
pub use out_sink::{OutSink, out_writer};
pub use progress::Progress;
pub use regular_files::RegularFiles;
pub use rest_pace::RestPace;
pub use seen_sink::{Seen, SeenSink};
pub use words::words_after_name;
