// The laws of IDs, ranges and sets: each function's contract is one law, and its proof is what it stands for.
ghost use Rattle.store.specs.Laws.{AnIdIsAReplicaAndACounter, OnlyNeighboursOfOneReplicaJoin, NeighbouringReplicasNeverJoin, OnlyIdsAreInSets, OneListForOneSet};
ghost use Rattle.store.specs.Laws.{MaximalRangesAreTheFewest, NothingNewChangesNothing, OneRangeMoreAtMost};
ghost use Rattle.store.specs.Laws.{RangesAreCountedByTheirFirstIds, AddingByMembership, RemovingByMembership, NextIsTheLowestRangeNotBelow, TotalFollowsEachSet, SetNumbersReadBack};

/// REPLID and counter make an ID, and can be read from it.
pub fn id_is_a_replica_and_a_counter()
    ensures { AnIdIsAReplicaAndACounter }
{}

/// Two ranges become one only where they overlap or are neighbours in one replica.
pub fn only_neighbours_of_one_replica_join()
    ensures { OnlyNeighboursOfOneReplicaJoin }
{}

/// The last ID of a replica and the first of the next are two ranges.
pub fn neighbouring_replicas_never_join()
    ensures { NeighbouringReplicasNeverJoin }
{}

/// No number below 2^48, and none of 2^64 or more, is in any set.
pub fn only_ids_are_in_sets()
    ensures { OnlyIdsAreInSets }
{}

/// Two lists of maximal ranges with the same IDs are the same list.
pub fn one_list_for_one_set()
    ensures { OneListForOneSet }
{}

/// A set has as many maximal ranges as it has IDs whose predecessor of the same REPLID is not in it.
pub fn ranges_are_counted_by_their_first_ids()
    ensures { RangesAreCountedByTheirFirstIds }
{}

/// No fewer ranges name the same IDs than the maximal ones.
pub fn maximal_ranges_are_the_fewest()
    ensures { MaximalRangesAreTheFewest }
{}

/// A set with a range added has the IDs of both, and again as maximal ranges.
pub fn adding_by_membership()
    ensures { AddingByMembership }
{}

/// A set with a range removed has its IDs but those of the range, and again as maximal ranges.
pub fn removing_by_membership()
    ensures { RemovingByMembership }
{}

/// Adding what is there, and removing what is not there, changes nothing.
pub fn nothing_new_changes_nothing()
    ensures { NothingNewChangesNothing }
{}

/// A range added or removed makes at most one range more.
pub fn one_range_more_at_most()
    ensures { OneRangeMoreAtMost }
{}

/// What `next` answers, in terms of the IDs that are in the set.
pub fn next_is_the_lowest_range_not_below()
    ensures { NextIsTheLowestRangeNotBelow }
{}

/// Empty sets have the total 0, and each set counts by its own ranges.
pub fn total_follows_each_set()
    ensures { TotalFollowsEachSet }
{}

/// The eleven sets have the numbers 0 to 10, each its own, and no other number has one.
pub fn set_numbers_read_back()
    ensures { SetNumbersReadBack }
{}
