//! The map from who asked to the key of the newest record.

ghost use Rattle.std.specs.Prelude.{◌≡◌, Some, OnOk, OnErr, slice_get};
ghost use Rattle.answers.specs.objects.Machine.{after};
ghost use Rattle.remembered.specs.Keeping.{HasNow, IsSet, IsSameMap};
ghost use Rattle.remembered.specs.Keeping as map;

use crate::record::Asker;
use answers::Executor;
use primitives::Request;
use sorted_map::SortedMap;
use std::alloc::{AllocError, Allocator};
use std::collections::VecDeque;

/// The keys of askers, in the order of the askers.
pub(crate) type AskerKeys<A> = SortedMap<Asker, usize, A>;

/// Gives an asker that has this key the one again that it had, or none. It takes no memory.
fn put_back<A: Allocator + Copy>(
    keys: &mut AskerKeys<A>,
    asker: Asker,
    key: usize,
    had: Option<usize>,
)
    requires { map.get keys.old asker ≡ Some key }
    ensures { HasNow asker had keys.old keys.new }
{
    match had {
        Some(before) => {
            keys.insert(asker, before).unwrap();
        }
        None => keys.remove_pair(asker, key),
    }
}

/// Sets the key of an asker, and has a request executed: where that finds no memory, the asker has again the key that
/// it had.
pub(crate) fn run_with_key<E: Executor<A>, A: Allocator + Copy>(
    keys: &mut AskerKeys<A>,
    asker: Asker,
    key: usize,
    executor: &mut E,
    request: &Request<A>,
) -> Result<(), AllocError>
    ensures set { OnOk result (IsSet asker key keys.old keys.new) }
    ensures ran { OnOk result (E.table_of executor.new ≡ after (E.table_of executor.old) request.now) }
    ensures same_keys { OnErr result (IsSameMap keys.old keys.new) }
    ensures same_table { OnErr result (E.table_of executor.new ≡ E.table_of executor.old) }
{
    let had = keys.insert(asker, key)?;
    if executor.run(request).is_err() {
        put_back(keys, asker, key, had);
        return Err(AllocError);
    }
    Ok(())
}

/// Returns the key at a place of the queue.
pub(crate) fn key_in<A: Allocator>(order: &VecDeque<usize, A>, place: usize) -> Option<usize>
    ensures { result ≡ slice_get order.now.items place }
{
    order.get(place).copied()
}
