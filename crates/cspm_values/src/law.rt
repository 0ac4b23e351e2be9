//! Laws of values. Their functions do nothing: the contracts are the laws.
ghost use Rattle.cspm_values.specs.Laws.{ValuesInOrder, SetsOfTheSame};

/// Any two values are in order, and are the same where neither comes first.
pub fn values_in_order()
    ensures { ValuesInOrder }
{}

/// Lists with the same members make the same set.
pub fn sets_of_the_same()
    ensures { SetsOfTheSame }
{}
