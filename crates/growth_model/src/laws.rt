//! Laws of growth: each function's contract is a law, and its body is empty.

ghost use Rattle.growth_model.specs.Laws.{OnePartIsOne, FirstPartsAreOne, FirstPartsDecide, OneHeadIsOne, FirstHeadsAreOne, DrainsAddUp};

/// What a database grows to is determined: by one part, and by the first parts of a run.
pub fn growth_is_determined()
    ensures part { OnePartIsOne }
    ensures parts { FirstPartsAreOne }
{}

/// The database after the first parts of a run rests on their segments alone, and on nothing that comes later.
pub fn first_parts_decide()
    ensures { FirstPartsDecide }
{}

/// The head under which a database's rows are counted is determined too.
pub fn heads_are_determined()
    ensures part { OneHeadIsOne }
    ensures parts { FirstHeadsAreOne }
{}

/// What drains add, taken together, is the sum of what some of them and the others add.
pub fn drains_add_up()
    ensures { DrainsAddUp }
{}
