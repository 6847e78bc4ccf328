//! Where files are read and written.

ghost use Rattle.std.specs.Prelude.{◌≡◌, ℕ, List, true, false, IfOk, IfSome, OnOk, string_bytes};

use std::alloc::Global;
use std::io;
use std::io::{Read, Write};

/// What reads and writes files: the operating system, or texts that stand for it. The name `-` is standard input where
/// a file is read, and standard output where one is written.
pub trait Files {
    /// A file that is written piece by piece.
    type File: Write + Drop;

    /// A file that is read piece by piece.
    type Input: Read + Drop;

    /// A file of this name may be read as this text.
    ghost reads: { Self → List ℕ → List ℕ → Type 0 };

    /// A file of this name may be written with this text.
    ghost writes: { Self → List ℕ → List ℕ → Type 0 };

    /// These names may be of one file.
    ghost same: { Self → List ℕ → List ℕ → Type 0 };

    /// These names may be of two files.
    ghost apart: { Self → List ℕ → List ℕ → Type 0 };

    /// The octets of the file of this name.
    ///
    /// # Errors
    /// Those of reading, and want of memory.
    fn read(&self, alloc: Global, name: &str) -> io::Result<Vec<u8>>
        ensures { IfOk result (λ text. reads self.now name.now text.items) };

    /// The file of this name, to be read piece by piece.
    ///
    /// # Errors
    /// Those of opening.
    fn open(&self, name: &str) -> io::Result<Self::Input>;

    /// Writes these octets into the file of this name, and nothing else is in it then.
    ///
    /// # Errors
    /// Those of writing.
    fn write(&self, name: &str, octets: &[u8]) -> io::Result<()>
        ensures { OnOk result (writes self.now name.now octets.now) };

    /// The file of this name, which is empty then, to be written piece by piece.
    ///
    /// # Errors
    /// Those of writing.
    fn create(&self, name: &str) -> io::Result<Self::File>;

    /// Cuts a file that is written piece by piece behind so many octets.
    ///
    /// # Errors
    /// Those of writing, and of what is no file, as a pipe.
    fn cut(&self, file: &mut Self::File, octets: u64) -> io::Result<()>;

    /// Whether these names are of one file: the same one, also by a link; or, where neither is there, the same name in
    /// the same folder.
    fn is_same(&self, one: &str, other: &str) -> bool
        ensures same { result ≡ true → same self.now one.now other.now }
        ensures apart { result ≡ false → apart self.now one.now other.now };

    /// The name of the file that another one is renamed to where this name is to be written: that which its links lead
    /// to. `None` where nothing may be renamed to it, as to a device, a pipe or standard output.
    ///
    /// # Errors
    /// Those of looking there, and want of memory.
    fn target(&self, alloc: Global, name: &str) -> io::Result<Option<String>>
        ensures { IfOk result (λ found. IfSome found (λ target.
            (text : List ℕ) → writes self.now (string_bytes target) text → writes self.now name.now text)) };

    /// Writes these octets into a new file of this name. Where that fails, nothing is left of it.
    ///
    /// # Errors
    /// `AlreadyExists` where there is one of this name, and those of writing.
    fn write_new(&self, name: &str, octets: &[u8]) -> io::Result<()>
        ensures { OnOk result (writes self.now name.now octets.now) };

    /// Gives a file another name, in place of the file that has it.
    ///
    /// # Errors
    /// Those of renaming.
    fn rename(&self, from: &str, to: &str) -> io::Result<()>
        ensures { OnOk result ((text : List ℕ) → writes self.now from.now text → writes self.now to.now text) };

    /// Removes a file.
    ///
    /// # Errors
    /// Those of removing.
    fn remove(&self, name: &str) -> io::Result<()>;
}
