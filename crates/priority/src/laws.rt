//! What holds of any slots of a commandable property (19.2). A function without a body is a law:
//! its contract, for the proofs of the layers above.

ghost use Rattle.priority.specs.Laws.{PutIsHeld, PutLeavesOthers, PutKeepsLength, FirstIsInForce, NoFirstIsNoneFilled};
ghost use Rattle.priority.specs.Laws.{PutIsInForce, NewAreEmpty, SameAtEachLevel};

/// Sixteen empty slots are sixteen, and each is empty.
pub fn new_are_empty<T>()
    ensures { NewAreEmpty T }
{}

/// What is put into a slot stands there.
pub fn put_is_held<T>()
    ensures { PutIsHeld T }
{}

/// What stands in every other slot stays.
pub fn put_leaves_others<T>()
    ensures { PutLeavesOthers T }
{}

/// There are as many slots as before.
pub fn put_keeps_length<T>()
    ensures { PutKeepsLength T }
{}

/// The first filled slot has a value exactly where that is in force: some level's slot holds it,
/// and the slots of all higher priorities are empty.
pub fn first_is_in_force<T>()
    ensures { FirstIsInForce T }
{}

/// There is no first filled slot exactly where every slot is empty.
pub fn no_first_is_none_filled<T>()
    ensures { NoFirstIsNoneFilled T }
{}

/// A value put into a slot is in force where the slots of all higher priorities are empty.
#[tactic(auto, using(crate::proofs::SlotLaws::put_rules))]
pub fn put_is_in_force<T>()
    ensures { PutIsInForce T }
{}

/// As many slots that hold the same at each level are the same.
pub fn same_at_each_level<T>()
    ensures { SameAtEachLevel T }
{}
