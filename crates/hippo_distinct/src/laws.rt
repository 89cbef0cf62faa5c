//! Laws on DISTINCT and on grouped queries.
ghost use Rattle.hippo_distinct.specs.DistinctNeeds.{DistinctQueryNeeds};
ghost use Rattle.hippo_distinct.specs.GroupedNeeds.{GroupedQueryNeeds};

/// A DISTINCT query needs a virtual tuple exactly when some row of its answer comes only from
/// combinations with the tuple.
pub fn distinct_query_needs()
    ensures { DistinctQueryNeeds }
{}

/// A grouped query needs a virtual tuple exactly when the row of some group disappears or changes
/// after the members with the tuple are removed.
pub fn grouped_query_needs()
    ensures { GroupedQueryNeeds }
{}
