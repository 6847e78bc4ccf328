//! Names of stations.

ghost use Rattle.std.specs.Prelude.{◌↔◌, IsTrue};
ghost use Rattle.std.specs.List.{AllByRecursion};
ghost use Rattle.site_parts.specs.Names.{IsName};
ghost use Rattle.site.specs.Apart.{AreApart, IsOther};
ghost use Rattle.site.specs.Named.{names};

use site_parts::{Station, is_name};
use std::alloc::Allocator;

/// Whether each station's name is 1 to 32 letters and digits.
pub fn have_names<A: Allocator>(stations: &[Station<A>]) -> bool
    ensures { IsTrue result ↔ AllByRecursion IsName (names stations.now) }
{
    let mut left = stations;
    while let [first, rest @ ..] = left {
        if !has_name(first) {
            return false;
        }
        left = rest;
    }
    true
}

/// Whether a station's name is 1 to 32 letters and digits.
fn has_name<A: Allocator>(station: &Station<A>) -> bool
    ensures { IsTrue result ↔ IsName station.now.name }
{
    is_name(station.name.as_slice())
}

/// Whether no two stations have one name.
pub fn have_names_apart<A: Allocator>(stations: &[Station<A>]) -> bool
    ensures { IsTrue result ↔ AreApart (names stations.now) }
{
    let mut left = stations;
    while let [first, rest @ ..] = left {
        if !is_new_name(first, rest) {
            return false;
        }
        left = rest;
    }
    true
}

/// Whether none of the others has the station's name.
fn is_new_name<A: Allocator>(station: &Station<A>, others: &[Station<A>]) -> bool
    ensures { IsTrue result ↔ AllByRecursion (IsOther station.now.name) (names others.now) }
{
    let mut left = others;
    while let [first, rest @ ..] = left {
        if !have_other_names(station, first) {
            return false;
        }
        left = rest;
    }
    true
}

/// Whether two stations have names that differ.
fn have_other_names<A: Allocator>(a: &Station<A>, b: &Station<A>) -> bool
    ensures { IsTrue result ↔ IsOther a.now.name b.now.name }
{
    a.name.as_slice() != b.name.as_slice()
}
