//! Laws of lists that have the same entries, and of how many buckets a book has. Each function does
//! nothing; its contract is the law.

ghost use Rattle.nonces.specs.Laws.{HasLeastPowerOfTwo, HasOneLeastPowerOfTwo, HaveSameLive, IsSameAsItself, IsSameBothWays, IsSameThrough, IsSameWithOneMore, IsSeenAlike};

/// To have the same entries is an equivalence.
pub fn same_entries_are_an_equivalence()
    ensures itself { IsSameAsItself }
    ensures both_ways { IsSameBothWays }
    ensures through { IsSameThrough }
{}

/// Lists that have the same entries are alike to a book: an entry is seen in both or in neither,
/// they take one more alike, and where entries are distinct the same of them live.
pub fn same_entries_are_alike()
    ensures seen { IsSeenAlike }
    ensures more { IsSameWithOneMore }
    ensures live { HaveSameLive }
{}

/// Each capacity has one count of buckets: the bound on the steps of `find` speaks of it.
pub fn a_capacity_has_one_count_of_buckets()
    ensures there { HasLeastPowerOfTwo }
    ensures one { HasOneLeastPowerOfTwo }
{}
