//! The parts of a site that a text says, and the site of a text.

ghost use Rattle.std.specs.Prelude.{◌≡◌, ◌⊎◌, IfErr, IfOk, OnOk};
ghost use Rattle.site.specs.Sound.{IsSound};
ghost use Rattle.site_text.specs.Document.{IsCause, IsDocument};

use crate::row::{Row, Stop};
use crate::stations::{networks, stations};
use crate::unread::NoParts;
use site::Site;
use site_parts::Parts;
use std::alloc::{Allocator, Global};
use tags::Fault;
use toml::Table;

/// The site that a text of TOML describes, in memory of `alloc`. The document is read in memory of `reading`.
///
/// # Errors
/// `BadSite` for a text that is no document, a key that is unknown, missing or of another kind or range, and parts
/// that do not fit together; or `Memory`.
pub fn site_of<A: Allocator + Copy>(
    reading: Global,
    alloc: A,
    text: &[u8],
) -> Result<Site<A>, Fault>
    ensures document { OnOk result (IsDocument text.now) }
    ensures sound { IfOk result IsSound }
    ensures refused { IfErr result (λ fault. (fault ≡ Fault.Memory) ⊎ (fault ≡ Fault.BadSite)) }
{
    match parts_of(reading, alloc, text) {
        Ok(parts) => {
            let site = Site::new(alloc, parts)?;
            Ok(site)
        }
        Err(NoParts::Memory) => Err(Fault::Memory),
        Err(NoParts::Document(_) | NoParts::Key(_)) => Err(Fault::BadSite),
    }
}

/// The parts of a site that a text of TOML describes, in memory of `alloc`. The document is read in memory of
/// `reading`. They need not fit together.
///
/// # Errors
/// `Document` where the text is no document, `Key` for the first key that is unknown, missing or of another kind or
/// range, or `Memory`.
pub fn parts_of<A: Allocator + Copy>(
    reading: Global,
    alloc: A,
    text: &[u8],
) -> Result<Parts<A>, NoParts<A>>
    ensures document { OnOk result (IsDocument text.now) }
    ensures refused { IfErr result (IsCause text.now) }
{
    let document = match toml::table_from_slice(reading, text) {
        Ok(document) => document,
        Err(error) if error.is_memory() => return Err(NoParts::Memory),
        Err(error) => return Err(NoParts::Document(error)),
    };
    match parts_in(alloc, &document) {
        Ok(parts) => Ok(parts),
        Err(Stop::Memory) => Err(NoParts::Memory),
        Err(Stop::Key(found)) => match found.kept(alloc) {
            Ok(key) => Err(NoParts::Key(key)),
            Err(_) => Err(NoParts::Memory),
        },
    }
}

/// The parts that a document says.
fn parts_in<A: Allocator + Copy>(alloc: A, document: &Table) -> Result<Parts<A>, Stop<'_>> {
    let document = Row::document(document);
    document.only(&["network", "bbmd", "router", "device", "client"])?;
    let networks = networks(alloc, document)?;
    let stations = stations(alloc, document)?;
    Ok(Parts { networks, stations })
}
