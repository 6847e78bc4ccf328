//! The numbers that are kept of keys: by their invoke IDs, and then by their clients.

ghost use Rattle.std.specs.Prelude.{◌≡◌, ◌<◌, Some, IfOk, IsSome, OnOk, length};
ghost use Rattle.npdu.specs.Mac.{station_cmp};
ghost use Rattle.sorted_map.specs.Entries.{value_of};
ghost use Rattle.world_log.specs.Issues.{IsKeptOf, IsPutIn, IsSameIn, IsSameOf, flat, kept_of, number_of};

use crate::key::Key;
use npdu::Station;
use sorted_map::SortedMap;
use std::alloc::{AllocError, Allocator};

/// The number of the last issue of each client under one invoke ID, and none of a client for whose first issue there is
/// room alone.
pub(crate) type ClientNumbers<A> = SortedMap<Station, Option<usize>, A>;

/// .. by the invoke IDs: what is sought is a place first, and few clients ask under one.
pub(crate) type LastNumbers<A> = Vec<ClientNumbers<A>, A>;

/// Returns the number that is kept of a client.
#[tactic(auto, using(crate::proofs::NumberLaws::client_rules))]
fn number_of_client<A: Allocator + Copy>(
    clients: &ClientNumbers<A>,
    client: Station,
) -> Option<usize>
    ensures { result ≡ flat (value_of station_cmp client clients.now) }
{
    match clients.get(client) {
        Some(number) => number,
        None => None,
    }
}

/// Returns the number that is kept of a key.
pub(crate) fn number_in<A: Allocator + Copy>(last: &LastNumbers<A>, key: Key) -> Option<usize>
    ensures { result ≡ number_of last.now.items key }
{
    match last.get(usize::from(key.invoke_id)) {
        Some(clients) => number_of_client(clients, key.client),
        None => None,
    }
}

/// Makes room for the number of a client.
///
/// # Errors
/// Want of memory. All is then as it was.
#[tactic(auto, using(crate::proofs::NumberLaws::room_rules))]
fn make_room<A: Allocator + Copy>(
    clients: &mut ClientNumbers<A>,
    client: Station,
) -> Result<(), AllocError>
    ensures made { OnOk result (IsSome (value_of station_cmp client clients.new)) }
    ensures same { IsSameIn clients.old clients.new }
{
    if clients.get(client).is_some() {
        return Ok(());
    }
    clients.insert(client, None)?;
    Ok(())
}

/// Makes a place for the clients under an invoke ID.
///
/// # Errors
/// Want of memory.
#[tactic(auto, using(crate::proofs::NumberLaws::row_rules))]
fn make_row<A: Allocator + Copy>(
    last: &mut LastNumbers<A>,
    invoke_id: usize,
) -> Result<(), AllocError>
    ensures there { OnOk result (invoke_id < length last.new.items) }
    ensures same { IsSameOf last.old.items last.new.items }
{
    let alloc = *last.allocator();
    while last.len() <= invoke_id {
        last.push(SortedMap::new(alloc))?;
    }
    Ok(())
}

/// Makes room for the number of a key.
///
/// # Errors
/// Want of memory. All is then as it was.
#[tactic(auto, using(crate::proofs::NumberLaws::place_rules))]
pub(crate) fn make_place<A: Allocator + Copy>(
    last: &mut LastNumbers<A>,
    key: Key,
) -> Result<(), AllocError>
    ensures made { OnOk result (IsSome (kept_of last.new.items key)) }
    ensures same { IsSameOf last.old.items last.new.items }
{
    let place = usize::from(key.invoke_id);
    make_row(last, place)?;
    make_room(&mut last[place], key.client)
}

/// A client for which there is room has this number then.
#[tactic(auto, using(crate::proofs::NumberLaws::put_rules))]
fn put_in<A: Allocator + Copy>(clients: &mut ClientNumbers<A>, client: Station, number: usize)
    requires { IsSome (value_of station_cmp client clients.old) }
    ensures { IsPutIn client (Some number) clients.old clients.new }
{
    let put: Result<_, _> = clients.insert(client, Some(number));
    let _ = put.unwrap();
}

/// A key for which there is room has this number then. It takes no memory.
#[tactic(auto, using(crate::proofs::NumberLaws::putting_rules))]
pub(crate) fn put_number<A: Allocator + Copy>(last: &mut LastNumbers<A>, key: Key, number: usize)
    requires { IsSome (kept_of last.old.items key) }
    ensures { IsKeptOf key (Some number) last.old.items last.new.items }
{
    put_in(&mut last[usize::from(key.invoke_id)], key.client, number);
}

/// Returns equal numbers, in memory of `alloc`.
///
/// # Errors
/// Want of memory.
pub(crate) fn copy_of<A: Allocator + Copy>(
    alloc: A,
    last: &[ClientNumbers<A>],
) -> Result<LastNumbers<A>, AllocError>
    ensures { IfOk result (λ copy. copy.items ≡ last.now) }
{
    let mut copies = Vec::with_capacity(alloc, last.len())?;
    for clients in last {
        copies.push(clients.copy_with_room(0)?)?;
    }
    Ok(copies)
}
