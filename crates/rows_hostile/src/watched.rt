//! What hears octets, and how it is watched: what it refuses or drops leaves it as it was.

use sheets::{Given, Stop, Trial, change_octets, differs};
use std::alloc::Global;
use std::cell::RefCell;

/// What hears octets.
pub(crate) trait Hearer: Sized + Drop {
    /// An equal one.
    ///
    /// # Errors
    /// Want of memory.
    fn copy(&self) -> Result<Self, Stop>;

    /// Hears octets, and answers whether it refuses or drops them: nothing comes of them.
    ///
    /// # Errors
    /// `Differs` for a refusal that it has not, and where what it says can't be read; want of memory.
    fn drops(&mut self, alloc: Global, octets: &[u8]) -> Result<bool, Stop>;

    /// What it tells where it is asked.
    ///
    /// # Errors
    /// `Differs` where it tells nothing; want of memory.
    fn told(&mut self, alloc: Global) -> Result<Vec<u8>, Stop>;
}

/// What hears octets, one that hears only what is dropped, and one that hears all first.
#[derive(Drop)]
pub(crate) struct Watched<H: Hearer> {
    fresh: H,
    quiet: H,
    tried: H,
}

impl<H: Hearer> Watched<H> {
    /// Watches what hears octets.
    ///
    /// # Errors
    /// Want of memory.
    pub(crate) fn new(fresh: H) -> Result<Watched<H>, Stop> {
        let quiet = fresh.copy()?;
        let tried = fresh.copy()?;
        Ok(Watched {
            fresh,
            quiet,
            tried,
        })
    }

    /// Octets are heard, and by the quiet one too where they are dropped.
    ///
    /// # Errors
    /// `Differs` where that one doesn't drop them; those of hearing.
    pub(crate) fn hear(&mut self, alloc: Global, octets: &[u8]) -> Result<(), Stop> {
        if !self.tried.drops(alloc, octets)? {
            self.tried = self.fresh.copy()?;
            return Ok(());
        }
        if !self.quiet.drops(alloc, octets)? {
            return Err(differs(alloc, "octets that are dropped, and then not"));
        }
        Ok(())
    }

    /// Whether the quiet one still tells what the fresh one tells.
    ///
    /// # Errors
    /// `Differs` where it doesn't; those of telling.
    pub(crate) fn check(&mut self, alloc: Global) -> Result<(), Stop> {
        let told = self.fresh.told(alloc)?;
        if self.quiet.told(alloc)?.as_slice() != told.as_slice() {
            return Err(differs(alloc, "a change where octets were refused or dropped"));
        }
        Ok(())
    }
}

/// One that hears octets, for the runs of a row.
#[derive(Drop)]
struct Heard<H: Hearer> {
    watched: RefCell<Watched<H>>,
}

impl<'a, H: Hearer> Trial<'a> for Heard<H> {
    fn answer(&self, given: Given<'a>, octets: &[u8]) -> Result<String, Stop> {
        match self.watched.try_borrow_mut() {
            Ok(mut watched) => watched.hear(given.alloc, octets)?,
            Err(_) => return Err(differs(given.alloc, "a hearer that is in use")),
        }
        Ok(String::new(given.alloc))
    }
}

impl<H: Hearer> Heard<H> {
    /// Whether what was dropped left it as it was.
    fn check(&self, alloc: Global) -> Result<(), Stop> {
        match self.watched.try_borrow_mut() {
            Ok(mut watched) => watched.check(alloc),
            Err(_) => Err(differs(alloc, "a hearer that is in use")),
        }
    }
}

/// Says octets as they stand, each of their prefixes, and them with each octet changed, and answers how many runs these
/// last are.
///
/// # Errors
/// `Differs` where what hears them does otherwise than it says; want of memory.
pub(crate) fn say_changed<H: Hearer>(
    given: Given<'_>,
    hearer: H,
    octets: &[u8],
) -> Result<u64, Stop> {
    let heard = Heard {
        watched: RefCell::new(Watched::new(hearer)?),
    };
    heard.answer(given, octets)?;
    let runs = change_octets(given, &heard, octets)?;
    heard.check(given.alloc)?;
    Ok(runs)
}
