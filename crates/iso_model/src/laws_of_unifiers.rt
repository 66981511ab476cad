//! Laws of unifiers: each is the contract of a function that does nothing.
ghost use Rattle.iso_model.specs.Terms.UnifierLaws.{AtMostOneUnifier, UnifierOrNone, UnifierIsMostGeneral, UnifierIsSubstitution, UnifierConcernsItsTerms, NoUnifierInside, UnifyingUnder, UnifyingUnderNothing, UnifyingEitherWay, UnifyingArguments, UnifyingKeepsAge, UnifyingStaysBelow, UnifyingInTurn};

/// Two terms have at most one unifier.
pub fn at_most_one_unifier()
    ensures { AtMostOneUnifier }
{}

/// Two terms have a unifier, or no substitution makes them equal.
pub fn unifier_or_none()
    ensures { UnifierOrNone }
{}

/// Each substitution that makes two terms equal comes from their unifier by a further one.
pub fn unifier_is_most_general()
    ensures { UnifierIsMostGeneral }
{}

/// A unifier is finite and idempotent.
pub fn unifier_is_substitution()
    ensures { UnifierIsSubstitution }
{}

/// A unifier leaves variables of neither term alone, and brings none into a value.
pub fn unifier_concerns_its_terms()
    ensures { UnifierConcernsItsTerms }
{}

/// No variable is unified with a term in which it stands deeper.
pub fn no_unifier_inside()
    ensures { NoUnifierInside }
{}

/// Unifying under a substitution gives the most general substitution that extends it and makes the terms equal.
pub fn unifying_under()
    ensures { UnifyingUnder }
{}

/// Unifying under the substitution that binds nothing gives the unifier.
pub fn unifying_under_nothing()
    ensures { UnifyingUnderNothing }
{}

/// Which term stands first makes no difference.
pub fn unifying_either_way()
    ensures { UnifyingEitherWay }
{}

/// Compounds of one name are unified by their arguments.
pub fn unifying_arguments()
    ensures { UnifyingArguments }
{}

/// Unifying keeps that variables stand for older ones.
pub fn unifying_keeps_age()
    ensures { UnifyingKeepsAge }
{}

/// Unifying terms of variables below a number binds only those.
pub fn unifying_stays_below()
    ensures { UnifyingStaysBelow }
{}

/// Lists of terms are unified member by member, each pair under what came of those before.
pub fn unifying_in_turn()
    ensures { UnifyingInTurn }
{}
