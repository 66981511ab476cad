//! Laws of the standard order of terms: each is the contract of a function that does nothing.
ghost use Rattle.iso_model.specs.Terms.OrderLaws.{OrderIsTotal, AlikeAreIdentical};
ghost use Rattle.iso_model.specs.Terms.SortingLaws.{SortedAscends, KeysNeverDescend, KeysKeepTheirElements};

/// The standard order is a total order.
pub fn order_is_total()
    ensures { OrderIsTotal }
{}

/// Only identical terms stand alike in it.
pub fn alike_are_identical()
    ensures { AlikeAreIdentical }
{}

/// A sorted list ascends.
pub fn sorted_ascends()
    ensures { SortedAscends }
{}

/// The keys of a list that was sorted by them never descend.
pub fn keys_never_descend()
    ensures { KeysNeverDescend }
{}

/// Sorting by keys keeps all elements of each key, as they came.
pub fn keys_keep_their_elements()
    ensures { KeysKeepTheirElements }
{}
