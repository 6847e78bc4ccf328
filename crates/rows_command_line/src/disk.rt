//! Files in memory, of which one call may fail.

use command_line::Files;
use std::alloc::{AllocError, Global};
use std::cell::{Cell, RefCell};
use std::io;
use std::io::{ErrorKind, Read};

/// A file in memory.
#[derive(Drop)]
pub(crate) struct DiskFile {
    pub(crate) name: String,
    pub(crate) octets: Vec<u8>,
}

/// Files in memory: `live.script` is also `./live.script` and `link.script`, `-` is standard input, and `pipe` is no
/// file that another one may be renamed to. What is written to standard output is the file of that name.
#[derive(Drop)]
pub(crate) struct Disk {
    alloc: Global,
    files: RefCell<Vec<DiskFile>>,
    /// The number of the call that fails, counted from the next one on; 0 where none does any more.
    failing: Cell<u64>,
}

/// What is written to standard output.
const OUTPUT: &str = "standard output";

/// The name of the file that a name leads to.
fn real_name(name: &str) -> &str {
    match name.strip_prefix("./").unwrap_or(name) {
        "link.script" => "live.script",
        name => name,
    }
}

/// The place of a file, if there is one of this name.
fn place_of(files: &[DiskFile], name: &str) -> Option<usize> {
    files.iter().position(|file| file.name.as_str() == name)
}

/// The octets of a file, if there is one of this name.
pub(crate) fn octets_of<'f>(files: &'f [DiskFile], name: &str) -> Option<&'f [u8]> {
    let place = place_of(files, name)?;
    let file = files.get(place)?;
    Some(file.octets.as_slice())
}

/// Puts a file among others, in place of that of its name.
fn put_into(files: &mut Vec<DiskFile>, file: DiskFile) -> Result<(), AllocError> {
    match place_of(files.as_slice(), file.name.as_str()) {
        Some(place) if place < files.len() => {
            files[place] = file;
            Ok(())
        }
        Some(_) | None => Ok(files.push(file)?),
    }
}

/// Takes the file of a name from others, if there is one.
fn taken_from(files: &mut Vec<DiskFile>, name: &str) -> Option<DiskFile> {
    match place_of(files.as_slice(), name) {
        Some(place) if place < files.len() => Some(files.swap_remove(place)),
        Some(_) | None => None,
    }
}

impl Disk {
    /// Files of these names and texts, of which the call of this number fails.
    pub(crate) fn new(
        alloc: Global,
        texts: &[(&str, &[u8])],
        failing: u64,
    ) -> Result<Disk, AllocError> {
        let mut files = Vec::new(alloc);
        for (name, text) in texts {
            files.push(DiskFile {
                name: String::from_str(alloc, name)?,
                octets: Vec::from_slice(alloc, text)?,
            })?;
        }
        Ok(Disk {
            alloc,
            files: RefCell::new(files),
            failing: Cell::new(failing),
        })
    }

    /// Whether the call that was to fail was made.
    pub(crate) fn has_failed(&self) -> bool {
        self.failing.get() == 0
    }

    /// Its files.
    pub(crate) fn into_files(self) -> Vec<DiskFile> {
        let Disk { files, .. } = self;
        files.into_inner()
    }

    /// Makes a call, which may fail.
    fn call(&self) -> io::Result<()> {
        let left = self.failing.get();
        self.failing.set(left.saturating_sub(1));
        if left == 1 {
            return Err(ErrorKind::StorageFull.into());
        }
        Ok(())
    }

    /// Puts a file there, in place of that of its name.
    fn put(&self, name: &str, octets: &[u8]) -> io::Result<()> {
        let file = DiskFile {
            name: String::from_str(self.alloc, name)?,
            octets: Vec::from_slice(self.alloc, octets)?,
        };
        let mut files = self.files.try_borrow_mut()?;
        put_into(&mut files, file)?;
        Ok(())
    }

    /// Takes a file away.
    fn take(&self, name: &str) -> io::Result<DiskFile> {
        let mut files = self.files.try_borrow_mut()?;
        match taken_from(&mut files, name) {
            Some(file) => Ok(file),
            None => Err(ErrorKind::NotFound.into()),
        }
    }
}

/// A file that is read piece by piece.
#[derive(Drop)]
pub(crate) struct Opened {
    octets: Vec<u8>,
    read: usize,
}

impl Read for Opened {
    fn read(&mut self, buf: &mut [u8]) -> io::Result<usize> {
        let mut left = match self.octets.get(self.read..) {
            Some(left) => left,
            None => &[],
        };
        let count = left.read(buf)?;
        self.read = self.read.saturating_add(count);
        Ok(count)
    }
}

impl Files for Disk {
    // No clause tells what they hold.
    ghost reads = { λ _ _ _. Unit {0} };

    ghost writes = { λ _ _ _. Unit {0} };

    ghost same = { λ _ _ _. Unit {0} };

    ghost apart = { λ _ _ _. Unit {0} };

    type File = Vec<u8>;

    type Input = Opened;

    fn open(&self, name: &str) -> io::Result<Opened> {
        let octets = self.read(self.alloc, name)?;
        Ok(Opened { octets, read: 0 })
    }

    fn read(&self, alloc: Global, name: &str) -> io::Result<Vec<u8>> {
        self.call()?;
        let files = self.files.try_borrow()?;
        match octets_of(files.as_slice(), real_name(name)) {
            Some(octets) => Ok(Vec::from_slice(alloc, octets)?),
            None => Err(ErrorKind::NotFound.into()),
        }
    }

    fn write(&self, name: &str, octets: &[u8]) -> io::Result<()> {
        self.call()?;
        let name = if name == "-" { OUTPUT } else { name };
        self.put(name, octets)
    }

    fn create(&self, name: &str) -> io::Result<Vec<u8>> {
        self.call()?;
        self.put(name, b"")?;
        Ok(Vec::new(self.alloc))
    }

    fn cut(&self, _file: &mut Vec<u8>, _octets: u64) -> io::Result<()> {
        Ok(())
    }

    fn is_same(&self, one: &str, other: &str) -> bool {
        real_name(one) == real_name(other)
    }

    fn target(&self, alloc: Global, name: &str) -> io::Result<Option<String>> {
        self.call()?;
        match real_name(name) {
            "-" | "pipe" => Ok(None),
            name => Ok(Some(String::from_str(alloc, name)?)),
        }
    }

    fn write_new(&self, name: &str, octets: &[u8]) -> io::Result<()> {
        self.call()?;
        if place_of(self.files.try_borrow()?.as_slice(), name).is_some() {
            return Err(ErrorKind::AlreadyExists.into());
        }
        self.put(name, octets)
    }

    fn rename(&self, from: &str, to: &str) -> io::Result<()> {
        self.call()?;
        let file = self.take(from)?;
        self.put(to, file.octets.as_slice())
    }

    fn remove(&self, name: &str) -> io::Result<()> {
        self.call()?;
        self.take(name)?;
        Ok(())
    }
}
