//! Who looks on at a live run.

use runner::Internetwork;
use std::alloc::Allocator;
use std::io;
use wire::Got;

/// Who sees a live run, turn behind turn, and changes nothing of it.
pub trait Observer<A: Allocator + Copy> {
    /// Sees a site behind a turn, and the datagram that a stranger sent, if the turn had one that was heard.
    ///
    /// # Errors
    /// Those of writing, and want of memory; they end the run.
    fn see(&mut self, site: &Internetwork<A>, stray: Option<Got<'_>>) -> io::Result<()>;
}

/// Nobody looks on.
#[derive(Clone, Copy, Debug)]
pub struct Nobody;

impl<A: Allocator + Copy> Observer<A> for Nobody {
    fn see(&mut self, _site: &Internetwork<A>, _stray: Option<Got<'_>>) -> io::Result<()> {
        Ok(())
    }
}
