// What the definitions say together, which layers above lean on.
ghost use Rattle.device.specs.Laws.{CountsAgree, EmptyCounts, MadeCounts, FreedCounts, GoneCounts, WritesInOrder};
ghost use Rattle.device.specs.Stored.{StoredApart};

// What a device counts of a converted layout is what its entries count.
pub fn counts_agree()
    ensures { CountsAgree }
{}

// How many sets live in a pool, and what they use, from call to call.
pub fn sets_are_counted()
    ensures empty { EmptyCounts }
    ensures made { MadeCounts }
    ensures freed { FreedCounts }
    ensures gone { GoneCounts }
{}

// Several writes in one call are as good as one call for each.
pub fn writes_are_in_order()
    ensures { WritesInOrder }
{}

// No two stored descriptors have one meaning, so that what is said of their meaning is said of them.
pub fn stored_are_apart()
    ensures { StoredApart }
{}
