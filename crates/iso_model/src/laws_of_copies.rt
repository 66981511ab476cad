//! Laws of copies of terms: each is the contract of a function that does nothing.
ghost use Rattle.iso_model.specs.Terms.CopyLaws.{VariablesOfCopy, RangeOfCopy, CopyIsVariant, CopyOfNumbered, CopyFromZero, CopyOfCopy, SizeOfCopy, SizeOfRenamed, VariablesOfRenamed};

/// The variables of a copy are n, n + 1, .. by first occurrence, as many as the term has.
pub fn variables_of_copy()
    ensures { VariablesOfCopy }
{}

/// Each variable of a copy is at least n and below n plus their number.
pub fn range_of_copy()
    ensures { RangeOfCopy }
{}

/// A copy can be renamed back.
pub fn copy_is_variant()
    ensures { CopyIsVariant }
{}

/// A copy of a term whose variables are 0, 1, .. by first occurrence adds n to each of them.
pub fn copy_of_numbered()
    ensures { CopyOfNumbered }
{}

/// The variables of a copy from 0 are 0, 1, .. by first occurrence.
pub fn copy_from_zero()
    ensures { CopyFromZero }
{}

/// A copy of a copy is a copy of the term.
pub fn copy_of_copy()
    ensures { CopyOfCopy }
{}

/// A copy has the size of the term and as many variables.
pub fn size_of_copy()
    ensures { SizeOfCopy }
{}

/// A renamed term has the size of the term and as many variables.
pub fn size_of_renamed()
    ensures { SizeOfRenamed }
{}

/// Renaming adds n to each variable in the list of variables.
pub fn variables_of_renamed()
    ensures { VariablesOfRenamed }
{}
