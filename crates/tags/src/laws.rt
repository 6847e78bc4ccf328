//! What holds of every spelling of tags and values (20.2). A function without a body is
//! a law: its contract, for the proofs of the layers above.

ghost use Rattle.std.specs.Prelude.{◌≡◌, ◌↔◌, IsTrue};
ghost use Rattle.tags.specs.Laws.{OneTag, OneValue, OneList, TagIsSpelled, ValueIsSpelled, ListIsSpelled};
ghost use Rattle.tags.specs.Laws.{TagIsShortest, ValueIsShortest, BuiltIsItself, TagReadsBack, ValueReadsBack};
ghost use Rattle.tags.specs.Laws.{RefusesTagOnce, RefusesOnce};

use crate::value::Value;
use std::alloc::Allocator;

/// The octets of one tag never begin those of another (20.2.1).
pub fn one_tag()
    ensures { OneTag }
{}

/// The octets of one value never begin those of another (20.2).
pub fn one_value<A: Allocator>()
    ensures { OneValue A }
{}

/// Octets spell one list of values only.
#[tactic(auto, using(crate::proofs::ValueLaws::one_list))]
pub fn one_list<A: Allocator>()
    ensures { OneList A }
{}

/// The canonical octets of a tag spell it (20.2.1).
pub fn tag_is_spelled()
    ensures { TagIsSpelled }
{}

/// The canonical octets of a sound value spell it.
#[tactic(auto, using(crate::proofs::CanonicalLaws::canonical_spells))]
pub fn value_is_spelled<A: Allocator>()
    ensures { ValueIsSpelled A }
{}

/// The canonical octets of sound values, one after another, spell the list.
#[tactic(auto, using(crate::proofs::CanonicalLaws::canonicals_spell))]
pub fn list_is_spelled<A: Allocator>()
    ensures { ListIsSpelled A }
{}

/// No octets that spell a tag are fewer than its canonical ones.
pub fn tag_is_shortest()
    ensures { TagIsShortest }
{}

/// No octets that spell a value are fewer than its canonical ones.
#[tactic(auto, using(crate::proofs::ShortestLaws::value_shortest))]
pub fn value_is_shortest<A: Allocator>()
    ensures { ValueIsShortest A }
{}

/// An element is spelled by itself alone.
pub fn built_is_itself<A: Allocator>()
    ensures { BuiltIsItself A }
{}

/// What is written of a tag is read as that tag, whatever follows it.
pub fn tag_reads_back()
    ensures { TagReadsBack }
{}

/// What is written of a sound value is read as that value, whatever follows it.
pub fn value_reads_back<A: Allocator>()
    ensures { ValueReadsBack A }
{}

/// Octets that are refused as a tag begin with none, and have one refusal.
pub fn tag_is_refused_once()
    ensures { RefusesTagOnce }
{}

/// Octets that are refused as a value begin with none, and have one refusal.
pub fn value_is_refused_once<A: Allocator>()
    ensures { RefusesOnce A }
{}

/// `==` of values is equality: the same variant with the same numbers and octets, wherever in
/// memory these lie.
pub fn equality<A: Allocator>(left: &Value<A>, right: &Value<A>) -> bool
    ensures { IsTrue result ↔ (left.now ≡ right.now) }
{
    left == right
}
