//! Lists of addresses.

ghost use Rattle.std.specs.Prelude.{◌≡◌, ◌++◌, [], OnOk, option_map, unwrap_or};
ghost use Rattle.bbmd_tables.specs.Tables.{is_among, others, same_address};

use bvll::Address;
use std::alloc::{AllocError, Allocator};

/// Whether two addresses are one.
pub fn is_same(a: Address, b: Address) -> bool
    ensures { result ≡ same_address a b }
{
    a == b
}

/// Whether the address is one of these.
pub fn is_among(address: Address, all: &[Address]) -> bool
    ensures { result ≡ is_among address all.now }
{
    all.contains(&address)
}

/// Whether the address is one of these, and not that one.
pub(crate) fn is_another(address: Address, without: Address, all: &[Address]) -> bool
    ensures { result ≡ is_among address (others without all.now) }
{
    for other in all {
        if !is_same(*other, without) && is_same(*other, address) {
            return true;
        }
    }
    false
}

/// Appends these addresses without that one.
///
/// # Errors
/// Want of memory.
pub fn append_others<A: Allocator>(
    out: &mut Vec<Address, A>,
    without: Address,
    all: &[Address],
) -> Result<(), AllocError>
    ensures { OnOk result (out.new.items ≡ out.old.items ++ others without all.now) }
{
    for address in all {
        if !is_same(*address, without) {
            out.push(*address)?;
        }
    }
    Ok(())
}

/// Appends the foreign devices that hear what one of them has distributed: all but that one (J.4.5).
///
/// # Errors
/// Want of memory.
pub(crate) fn append_other_devices<A: Allocator>(
    out: &mut Vec<Address, A>,
    from: Address,
    served: &[Address],
) -> Result<(), AllocError>
    ensures { OnOk result (out.new.items ≡ out.old.items ++ others from served.now) }
{
    append_others(out, from, served)
}

/// These addresses, or none.
pub fn or_nobody<A: Allocator>(alloc: A, addresses: Option<Vec<Address, A>>) -> Vec<Address, A>
    ensures { result.items ≡ unwrap_or (option_map (λ v. v.items) addresses) [] }
{
    match addresses {
        Some(addresses) => addresses,
        None => Vec::new(alloc),
    }
}
