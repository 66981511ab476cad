//! Laws of variables and of substitutions: each is the contract of a function that does nothing.
ghost use Rattle.iso_model.specs.Terms.VariableLaws.{ListedAreOccurring, ListedOnce, ComposedApplies, ComposingInAnyOrder, ImagesAgree, VariablesOfImage};

/// The list of a term's variables has those that occur in it.
pub fn listed_are_occurring()
    ensures { ListedAreOccurring }
{}

/// It has each of them once.
pub fn listed_once()
    ensures { ListedOnce }
{}

/// To apply a composition is to apply one substitution and then the other.
pub fn composed_applies()
    ensures { ComposedApplies }
{}

/// Composing three substitutions needs no brackets.
pub fn composing_in_any_order()
    ensures { ComposingInAnyOrder }
{}

/// Substitutions make the same of a term exactly where they agree on its variables.
pub fn images_agree()
    ensures { ImagesAgree }
{}

/// The variables of an image are those of the values of the term's variables.
pub fn variables_of_image()
    ensures { VariablesOfImage }
{}
