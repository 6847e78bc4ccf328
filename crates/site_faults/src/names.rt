//! Names of stations.

ghost use Rattle.std.specs.Prelude.{◌↔◌, IfOk, IsTrue};
ghost use Rattle.std.specs.List.{AllByRecursion};
ghost use Rattle.site_parts.specs.Names.{IsName};
ghost use Rattle.site.specs.Apart.{AreApart};
ghost use Rattle.site.specs.Named.{AreNamed, names};

use crate::part::Part;
use crate::shown::{name_of, row_behind};
use crate::told::{Listener, Told};
use site::{have_names, have_names_apart};
use site_parts::Station;
use std::alloc::Allocator;
use std::io;

/// Whether stations have names, no two the same; what is wrong is told.
pub(crate) fn tell_named<A: Allocator, L: Listener>(
    stations: &[Station<A>],
    out: &mut L,
) -> io::Result<bool>
    ensures { IfOk result (λ b. IsTrue b ↔ AreNamed stations.now) }
{
    let each = tell_names(stations, out)?;
    let apart = tell_names_apart(stations, out)?;
    Ok(each && apart)
}

fn tell_names<A: Allocator, L: Listener>(stations: &[Station<A>], out: &mut L) -> io::Result<bool>
    ensures { IfOk result (λ b. IsTrue b ↔ AllByRecursion IsName (names stations.now)) }
{
    let is_sound = have_names(stations);
    if !is_sound {
        out.tell(Told::NoName.of(Part::Site.whole()))?;
    }
    Ok(is_sound)
}

fn tell_names_apart<A: Allocator, L: Listener>(
    stations: &[Station<A>],
    out: &mut L,
) -> io::Result<bool>
    ensures { IfOk result (λ b. IsTrue b ↔ AreApart (names stations.now)) }
{
    let is_sound = have_names_apart(stations);
    if !is_sound {
        tell_same(stations, out)?;
    }
    Ok(is_sound)
}

/// Tells each station that has the name of an earlier one.
fn tell_same<A: Allocator, L: Listener>(stations: &[Station<A>], out: &mut L) -> io::Result<()> {
    for (at, station) in stations.iter().enumerate() {
        tell_namesake(&stations[..at], station, out)?;
    }
    Ok(())
}

/// Tells the first of these that has the station's name.
fn tell_namesake<A: Allocator, L: Listener>(
    before: &[Station<A>],
    station: &Station<A>,
    out: &mut L,
) -> io::Result<()> {
    let name = name_of(station);
    for (at, other) in before.iter().enumerate() {
        if name_of(other) == name {
            let told = Told::SameName {
                name,
                first: row_behind(&before[..at], other),
                second: row_behind(before, station),
            };
            let (first, second) = (Part::Station(at), Part::Station(before.len()));
            return out.tell(told.of_both(first.key("name"), second.key("name")));
        }
    }
    Ok(())
}
