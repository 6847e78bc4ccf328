//! The objects that a device opens with, at its start and at each restart.

ghost use Rattle.std.specs.Prelude.{◌≡◌, ◌⊎◌, None, IfOk, IfErr};
ghost use Rattle.world_sites.specs.Opening as spec;
ghost use Rattle.world_sites.specs.Opening.{object_site};
ghost use Rattle.object_model.specs.Site.{IsSite, opening_table};

use object_model::SiteObjects;
use objects::Table;
use site::Site;
use site_parts::Station;
use site_views::{at_address, opening_objects};
use std::alloc::{AllocError, Allocator};
use tags::Fault;

/// The table of the device at an address of the internetwork as the site opens it, in memory of `alloc` (12).
///
/// # Errors
/// `NoSuch` where no device of the site is there; or `Memory`.
#[tactic(auto, using(crate::proofs::OpeningLaws::opening_rules))]
pub fn opening_of<A: Allocator + Copy>(
    alloc: A,
    site: &Site<A>,
    address: npdu::Station,
) -> Result<Table<A>, Fault>
    ensures opening { IfOk result (λ table. table ≡ (object_site site.now).opening address) }
    ensures cause { IfErr result (λ fault. (fault ≡ Fault.Memory) ⊎
        ((fault ≡ Fault.NoSuch) × ((object_site site.now).instance_of address ≡ None))) }
{
    let Some(objects) = objects_at(alloc, address, site.stations())? else {
        return Err(Fault::NoSuch);
    };
    let table = table_of(alloc, objects)?;
    Ok(table)
}

/// The objects of the device at an address, if there is one.
fn objects_at<A: Allocator + Copy>(
    alloc: A,
    address: npdu::Station,
    stations: &[Station<A>],
) -> Result<Option<SiteObjects<A>>, AllocError>
    ensures { IfOk result (λ objects. objects ≡ spec.objects_at address stations.now) }
{
    match at_address(address, stations) {
        Some(station) => {
            let objects = opening_objects(alloc, station)?;
            Ok(objects)
        }
        None => Ok(None),
    }
}

/// The table of sound objects.
fn table_of<A: Allocator + Copy>(alloc: A, objects: SiteObjects<A>) -> Result<Table<A>, Fault>
    requires sound { IsSite objects }
    ensures opened { IfOk result (λ table. table ≡ opening_table objects) }
    ensures cause { IfErr result (λ fault. fault ≡ Fault.Memory) }
{
    let table = Table::new(alloc, objects)?;
    Ok(table)
}
