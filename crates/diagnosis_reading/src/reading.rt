//! A capture that is read to its end.

use crate::diagnosed::Diagnosed;
use crate::told::{Form, print_found};
use captures::Packet;
use diagnosis::Settings;
use packet_choice::{Choosing, Excerpt, Failure, Taker, read_packets};
use std::alloc::Allocator;
use std::io;
use std::io::{Read, Write};

/// When findings are printed.
#[derive(Clone, Copy, PartialEq, Eq)]
pub enum Telling {
    /// As they come about; none is kept then.
    AtOnce,
    /// By the caller, later.
    Later,
    /// Not at all: they are counted, and none is kept.
    Never,
}

/// What is asked of a capture.
#[derive(Clone, Copy)]
pub struct Request<'c> {
    pub settings: Settings,
    /// Which packets are asked for.
    pub excerpt: Excerpt<'c>,
    /// When findings are printed, and how.
    pub telling: Telling,
    pub form: Form,
}

/// Takes the packets of a capture, and tells what is found.
#[derive(Drop)]
struct Teller<'c, 'w, A: Allocator + Copy, W: Write> {
    alloc: A,
    request: Request<'c>,
    choosing: Choosing<'c>,
    diagnosed: Diagnosed<A>,
    out: &'w mut W,
}

impl<A: Allocator + Copy, W: Write> Taker for Teller<'_, '_, A, W> {
    fn take(&mut self, packet: &Packet<'_>) -> Result<(), Failure> {
        let chosen = self.choosing.choose(packet);
        self.diagnosed.take(packet, chosen, self.request.excerpt)?;
        self.tell()
    }
}

impl<A: Allocator + Copy, W: Write> Teller<'_, '_, A, W> {
    /// Prints what was found, if that is to be at once, and keeps it only where it is told later.
    fn tell(&mut self) -> Result<(), Failure> {
        let telling = self.request.telling;
        if telling == Telling::Later || self.diagnosed.findings().kept().is_empty() {
            return Ok(());
        }
        if telling == Telling::AtOnce {
            if let Err(error) = self.print() {
                return Err(Failure::Writing(error));
            }
        }
        self.diagnosed.forget_findings();
        Ok(())
    }

    /// Prints what was found, and that nothing of it waits anywhere.
    fn print(&mut self) -> io::Result<()> {
        let findings = self.diagnosed.findings();
        print_found(self.alloc, self.request.form, findings, &mut *self.out)?;
        self.out.flush()
    }
}

/// What a file of pcap or pcapng shows, which is read to its end in bounded memory; `None` where it is none of both.
/// What is found is printed as it comes about, or kept.
///
/// # Errors
/// Those of reading and writing, and want of memory.
pub fn diagnose<A: Allocator + Copy, R: Read, W: Write>(
    alloc: A,
    request: Request<'_>,
    input: &mut R,
    out: &mut W,
) -> Result<Option<Diagnosed<A>>, Failure> {
    let mut teller = Teller {
        alloc,
        request,
        choosing: Choosing::new(request.excerpt),
        diagnosed: Diagnosed::new(alloc, request.settings, request.excerpt)?,
        out,
    };
    if !read_packets(alloc, input, &mut teller)? {
        return Ok(None);
    }
    finish(&mut teller)?;
    let Teller { diagnosed, .. } = teller;
    Ok(Some(diagnosed))
}

/// Finds what can be found only at the end, and tells it.
fn finish<A: Allocator + Copy, W: Write>(teller: &mut Teller<'_, '_, A, W>) -> Result<(), Failure> {
    teller.diagnosed.finish(teller.request.excerpt)?;
    teller.tell()
}
