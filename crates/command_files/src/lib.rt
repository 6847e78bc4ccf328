//! The files that a command line names: what reads and writes them, and what is told of them.
//!
//! To the layers above it promises: where an output is called safe, it was judged to be none of the inputs and no other
//! output, by what reads and writes files; standard input is read under `-`, once. A file is put in its place only when
//! it is whole: of that and of messages, rows show what no clause says.
//!
//! - `files`: where files are read and written.
//! - `late`: a file that is made when something is written into it first.
//! - `output`: standard output, and why it failed.
//! - `outputs`: which files a command may write.
//! - `placing`: a file that is written next to its place, and put there when it is whole.
//! - `telling`: what is told of files and numbers.
#![tactic(auto)]

mod files;
mod late;
mod output;
mod outputs;
mod placing;
mod telling;

pub use files::Files;
pub use late::LateFile;
pub use output::{Output, say_output_failure};
pub use outputs::{STANDARD, are_safe, is_any_standard, is_read_twice, is_standard, source_of};
pub use placing::put_in_place;
pub use telling::{
    Use, WHOLE_NUMBER, beginning, input_name, read_file, say_faulty_word, say_file_fault,
    say_if_faulty,
};
