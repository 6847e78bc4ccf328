//! An example of a caller: a request is answered from the objects of a site (`objects`).
#![tactic(auto)]

ghost use Rattle.std.specs.Prelude.{◌≡◌, IfOk};
ghost use Rattle.object_model.specs.Site.{opening_table};
ghost use Rattle.objects.specs.Machine.{reply};

use objects::{SiteObjects, Table};
use primitives::{Reply, Request};
use std::alloc::Allocator;
use tags::Fault;

/// What the device with these objects answers to its first request (15).
///
/// # Errors
/// `BadSite` where no device has these objects, or `Memory`.
pub fn first_answer<A: Allocator + Copy>(
    alloc: A,
    site: SiteObjects<A>,
    request: &Request<A>,
) -> Result<Reply<A>, Fault>
    ensures { IfOk result (λ answer. answer ≡ reply (opening_table site) request.now) }
{
    let mut table = Table::new(alloc, site)?;
    Ok(table.apply(request)?)
}
