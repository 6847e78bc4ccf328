//! Rows of text that programs run: what the programs with rows share.
//!
//! A file of rows is plain text. Empty lines and lines that begin with `#` are skipped; each other
//! line is a row, `ASKED -> WANTED`. A program runs the call that a row asks for, compares what
//! comes, in words, with what is wanted, and says so of each row that differs.
//!
//! - `row`: the files with rows where a program runs, and the rows of a file.
//! - `given`: memory that is always there, and memory that can be refused.
//! - `digits`: numbers, ranges and octets in words.
//! - `parsed`: requests and replies in words.
//! - `stop`: why a row is none that holds.
//! - `trial`: the runs of a row: as it stands, with each allocation refused in turn
//!   (behind the 32nd not each), with each prefix of its octets, and with each of its octets changed.
//! - `said`: what a program leaves behind, words of a command line, and output that fails.
//! - `written`: what a call writes, and marks between what is told.
//! - `report`: what is printed of a file.
//! - `program`: the files where a program runs, read, run and reported.
#![tactic(auto)]

mod digits;
mod given;
mod parsed;
mod program;
mod report;
mod row;
mod said;
mod stop;
mod trial;
mod written;

pub use digits::{first_and_last, number, octets, octets_in_words, push_octets, small, two_words};
pub use given::{Given, Memory};
pub use parsed::{reply_in, request_in};
pub use program::{Bench, run_files, run_folder};
pub use report::Report;
pub use row::{Row, names, rows};
pub use said::{Full, Printing, Said, status_within, words_of};
pub use stop::{Part, Stop, compare, differs, refusal, refused_memory};
pub use trial::{
    Counts, Trial, change_octets, run_number, run_octets, run_refused, run_text, run_trial,
    run_word, try_row,
};
pub use written::{buffer, buffer_in, push_mark, push_written, with_written, written_octets};
