//! Laws of what is prepared.
ghost use Rattle.iso_prep.specs.PreparationLaws.{PreparedAreTerms};

/// Of a clause or a goal that is well formed, the prepared head and body are well formed.
pub fn prepared_are_terms()
    ensures { PreparedAreTerms }
{}
