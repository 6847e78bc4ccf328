//! Pages about a command line, made of the description by which clap parses it: completions for bash, zsh and fish, and
//! a man page.
//!
//! To the layer above it promises the names of the shells, and that each page returns; what the pages hold is shown by
//! rows and by the shells themselves, and isn't proved.
//!
//! - `shell`: the shells, and the completions for each.
//! - `arguments`: what an argument is completed with, and how it is called.
//! - `escaped`: texts as they stand in scripts of shells and in a man page.
//! - `bash`, `zsh`, `fish`: the completions.
//! - `man`: the man page. `prose`: what it says that clap does not know.
#![tactic(auto)]

mod arguments;
mod bash;
mod escaped;
mod fish;
mod man;
mod prose;
mod shell;
mod zsh;

pub use man::write_man_page;
pub use shell::{Shell, write_completions};
