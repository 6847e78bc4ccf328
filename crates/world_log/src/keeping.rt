//! What grows in a world: room for it is taken before anything changes.

ghost use Rattle.std.specs.Prelude.{◌≡◌, ◌≤◌, ◌<◌, ◌+◌, ◌++◌, ◌∷◌, [], length};
ghost use Rattle.std.specs.Vec.{vec_capacity, vec_len};

use std::alloc::Allocator;

/// Puts a value behind others, where there is room.
pub(crate) fn push_reserved<T: Drop, A: Allocator>(list: &mut Vec<T, A>, value: T)
    requires { vec_len list.old < vec_capacity list.old }
    ensures items { list.new.items ≡ list.old.items ++ value ∷ [] }
    ensures len { vec_len list.new ≡ vec_len list.old + 1 }
    ensures room { vec_capacity list.old ≤ vec_capacity list.new }
{
    list.push(value).unwrap();
}

/// Puts values behind others, where there is room.
pub(crate) fn append_reserved<T: Drop, A: Allocator>(list: &mut Vec<T, A>, more: Vec<T, A>)
    requires { vec_len list.old + length more.items ≤ vec_capacity list.old }
    ensures items { list.new.items ≡ list.old.items ++ more.items }
    ensures len { vec_len list.new ≡ vec_len list.old + length more.items }
    ensures room { vec_capacity list.old ≤ vec_capacity list.new }
{
    for value in more {
        push_reserved(list, value);
    }
}
