//! The shells that have completions.

use crate::bash::write_bash;
use crate::fish::write_fish;
use crate::zsh::write_zsh;
use clap::Command;
use std::alloc::Global;
use std::io;
use std::io::Write;

/// A shell that completes words of a command line.
#[derive(Clone, Copy, Debug, PartialEq, Eq)]
pub enum Shell {
    Bash,
    Zsh,
    Fish,
}

impl Shell {
    ghost use Rattle.std.specs.Prelude.{◌≡◌, ◌≢◌, IfNone, IfSome};
    ghost use Rattle.command_pages.specs.Shells.{name_of};
    ghost use Rattle.command_pages.specs.declared.shell.Shell.{Shell};

    /// The shell of this name: `bash`, `zsh` or `fish`. Others have no completions.
    pub fn named(name: &str) -> Option<Shell>
        ensures known { IfSome result (λ s. name.now ≡ name_of s) }
        ensures other { IfNone result ((s : Shell) → name.now ≢ name_of s) }
    {
        if name == "bash" {
            Some(Shell::Bash)
        } else if name == "zsh" {
            Some(Shell::Zsh)
        } else if name == "fish" {
            Some(Shell::Fish)
        } else {
            None
        }
    }
}

/// Writes the completions of a command, its subcommands, their flags and their files, for a shell.
///
/// # Errors
/// A failed write, or want of memory.
pub fn write_completions<W: Write>(
    alloc: Global,
    shell: Shell,
    command: &Command<'_>,
    out: &mut W,
) -> io::Result<()> {
    match shell {
        Shell::Bash => write_bash(alloc, command, out),
        Shell::Zsh => write_zsh(alloc, command, out),
        Shell::Fish => write_fish(alloc, command, out),
    }
}
