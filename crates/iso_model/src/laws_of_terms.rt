//! Laws of which trees are terms: each is the contract of a function that does nothing.
ghost use Rattle.iso_model.specs.Terms.TermLaws.{MeaningIsTerm, ImageIsTerm, UnifierGivesTerms, UnifyingGivesTerms, CopyIsTerm, NoUnifierAtClash};

/// What a Rust term means is a term exactly where each compound in it has 1 to 255 arguments.
pub fn meaning_is_term()
    ensures { MeaningIsTerm }
{}

/// A term stays one where its variables are replaced by terms.
pub fn image_is_term()
    ensures { ImageIsTerm }
{}

/// The unifier of two terms gives terms to all variables.
pub fn unifier_gives_terms()
    ensures { UnifierGivesTerms }
{}

/// Unifying terms under a substitution that gives terms gives terms.
pub fn unifying_gives_terms()
    ensures { UnifyingGivesTerms }
{}

/// A copy of a term is a term.
pub fn copy_is_term()
    ensures { CopyIsTerm }
{}

/// Terms that clash have no unifier.
pub fn no_unifier_at_clash()
    ensures { NoUnifierAtClash }
{}
