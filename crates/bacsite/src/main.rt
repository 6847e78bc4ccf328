//! The program `bacsite`: BACnet devices at work, from the command line.
//!
//! What its words ask for is told and done by `command_line`.
#![tactic(auto)]

use command_line::{Files, Output, say_output_failure};
use console::{say_failed, say_refused};
use std::alloc::Global;
use std::cell::Cell;
use std::fs::Metadata;
use std::io::{BufWriter, ErrorKind, IsTerminal, Read, Stdin, Stdout, Write};
use std::os::unix::fs::MetadataExt;
use std::process::ExitCode;
use std::{env, fs, io};
use tags::Fault;

fn main(rt: HostRuntime) -> ExitCode {
    let alloc: Global = rt.alloc();
    let mut err = rt.stderr();
    let failure = Cell::new(None);
    match BufWriter::new(alloc, Output::new(rt.stdout(), &failure)) {
        Ok(mut out) => {
            let status = run(&rt, &mut out, &mut err);
            let status = ended(status, out.flush(), &mut err);
            say_output_failure(status, &failure, is_in_colour(&rt), &mut err);
            ExitCode::from(status)
        }
        Err(_) => ExitCode::from(say_refused(Fault::Memory, &mut err)),
    }
}

/// Does what the words of the command line ask for, and answers the exit status.
fn run<O: Write, E: Write>(rt: &HostRuntime, out: &mut O, err: &mut E) -> u8 {
    match words_of(rt) {
        Ok(words) => command_line::run(
            Some(rt),
            rt.alloc(),
            words.as_slice(),
            &Host(rt),
            is_in_colour(rt),
            out,
            err,
        ),
        Err(error) if error.kind() == ErrorKind::OutOfMemory => { say_refused(Fault::Memory, err) }
        Err(error) => {
            let _ = writeln!(err, "bacsite: {error}");
            2
        }
    }
}

/// The exit status once all is written that waits, which may fail.
fn ended<E: Write>(status: u8, written: io::Result<()>, err: &mut E) -> u8 {
    match written {
        Err(error) if status == 0 => say_failed(&error, err),
        Ok(()) | Err(_) => status,
    }
}

/// Whether messages have colours: the standard error is a terminal, and `NO_COLOR` isn't set.
fn is_in_colour(rt: &HostRuntime) -> bool {
    rt.stderr().is_terminal() && env::var(rt, "NO_COLOR").is_err()
}

/// The files of the operating system; `-` is standard input and standard output.
#[derive(Clone, Copy)]
struct Host<'a>(&'a HostRuntime);

/// A file that is written piece by piece.
#[derive(Drop)]
enum Written {
    File(fs::File),
    Output(Stdout),
}

impl Write for Written {
    fn write(&mut self, buf: &[u8]) -> io::Result<usize> {
        match self {
            Written::File(file) => file.write(buf),
            Written::Output(out) => out.write(buf),
        }
    }

    fn flush(&mut self) -> io::Result<()> {
        match self {
            Written::File(file) => file.flush(),
            Written::Output(out) => out.flush(),
        }
    }
}

/// A file that is read piece by piece.
#[derive(Drop)]
enum Source {
    File(fs::File),
    Input(Stdin),
}

impl Read for Source {
    fn read(&mut self, buf: &mut [u8]) -> io::Result<usize> {
        match self {
            Source::File(file) => file.read(buf),
            Source::Input(input) => input.read(buf),
        }
    }
}

/// The name of standard input where a file is read, and of standard output where one is written.
const STANDARD: &str = "-";

impl Files for Host<'_> {
    // What the operating system holds is known to no contract.
    ghost reads = { λ _ _ _. Unit {0} };

    ghost writes = { λ _ _ _. Unit {0} };

    ghost same = { λ _ _ _. Unit {0} };

    ghost apart = { λ _ _ _. Unit {0} };

    type File = Written;

    type Input = Source;

    fn read(&self, alloc: Global, name: &str) -> io::Result<Vec<u8>> {
        if name != STANDARD {
            return fs::read(self.0, name);
        }
        let mut text = Vec::new(alloc);
        self.0.stdin().read_to_end(&mut text)?;
        Ok(text)
    }

    fn open(&self, name: &str) -> io::Result<Source> {
        if name == STANDARD {
            return Ok(Source::Input(self.0.stdin()));
        }
        Ok(Source::File(fs::File::open(self.0, name)?))
    }

    fn write(&self, name: &str, octets: &[u8]) -> io::Result<()> {
        if name == STANDARD {
            return self.0.stdout().write_all(octets);
        }
        fs::write(self.0, name, octets)
    }

    fn create(&self, name: &str) -> io::Result<Written> {
        if name == STANDARD {
            return Ok(Written::Output(self.0.stdout()));
        }
        Ok(Written::File(fs::File::create(self.0, name)?))
    }

    fn cut(&self, file: &mut Written, octets: u64) -> io::Result<()> {
        match file {
            Written::File(file) => file.set_len(octets),
            Written::Output(_) => Err(ErrorKind::Unsupported.into()),
        }
    }

    fn is_same(&self, one: &str, other: &str) -> bool {
        match (fs::metadata(self.0, one), fs::metadata(self.0, other)) {
            (Ok(one), Ok(other)) => one.is_file() && is_one(&one, &other),
            (Err(_), Err(_)) => self.is_same_place(one, other),
            (Ok(_), Err(_)) | (Err(_), Ok(_)) => false,
        }
    }

    fn target(&self, alloc: Global, name: &str) -> io::Result<Option<String>> {
        if name == STANDARD {
            return Ok(None);
        }
        match fs::symlink_metadata(self.0, name) {
            Ok(found) if found.is_symlink() => self.linked(name),
            Ok(found) if !found.is_file() => Ok(None),
            Ok(_) => Ok(Some(String::from_str(alloc, name)?)),
            Err(error) if error.kind() == ErrorKind::NotFound => {
                Ok(Some(String::from_str(alloc, name)?))
            }
            Err(error) => Err(error),
        }
    }

    fn write_new(&self, name: &str, octets: &[u8]) -> io::Result<()> {
        let mut file = fs::File::create_new(self.0, name)?;
        match file.write_all(octets) {
            Ok(()) => Ok(()),
            Err(error) => {
                let _ = fs::remove_file(self.0, name);
                Err(error)
            }
        }
    }

    fn rename(&self, from: &str, to: &str) -> io::Result<()> {
        if let Ok(old) = fs::metadata(self.0, to) {
            // what could be read and written before can be so then
            let _ = fs::set_permissions(self.0, from, old.permissions());
        }
        fs::rename(self.0, from, to)
    }

    fn remove(&self, name: &str) -> io::Result<()> {
        fs::remove_file(self.0, name)
    }
}

/// Whether these are of one file.
fn is_one(one: &Metadata, other: &Metadata) -> bool {
    one.dev() == other.dev() && one.ino() == other.ino()
}

/// The folder of a file, and its name there.
fn folder_and_name<'n>(name: &'n str) -> (&'n str, &'n str) {
    match name.rsplit_once('/') {
        Some(("", name)) => ("/", name),
        Some((folder, name)) => (folder, name),
        None => (".", name),
    }
}

impl Host<'_> {
    /// Whether these names, at which no file is, are of one place.
    fn is_same_place(&self, one: &str, other: &str) -> bool {
        let (folder, name) = folder_and_name(one);
        let (other_folder, other_name) = folder_and_name(other);
        if name != other_name {
            return false;
        }
        match (
            fs::metadata(self.0, folder),
            fs::metadata(self.0, other_folder),
        ) {
            (Ok(folder), Ok(other_folder)) => is_one(&folder, &other_folder),
            (Err(_), _) | (_, Err(_)) => folder == other_folder,
        }
    }

    /// The name of the file that a link leads to; `None` where it leads to none.
    fn linked(&self, name: &str) -> io::Result<Option<String>> {
        match fs::metadata(self.0, name) {
            Ok(found) if found.is_file() => {
                Ok(Some(fs::canonicalize(self.0, name)?.into_string()))
            }
            Ok(_) | Err(_) => Ok(None),
        }
    }
}

/// The words of the command line, the first of them being the program's name.
fn words_of(rt: &HostRuntime) -> io::Result<Vec<String>> {
    let words = env::args(rt)?.collect(rt.alloc())?;
    Ok(words)
}
