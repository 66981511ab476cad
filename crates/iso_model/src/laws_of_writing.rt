//! The law of what is written: the contract of a function that does nothing.
ghost use Rattle.iso_model.specs.Syntax.WritingLaws.{WrittenTermsAreReadAgain};

/// What is written of a term, quoted, is read again as that term, under the same operators (7.10.5).
pub fn written_terms_are_read_again()
    ensures { WrittenTermsAreReadAgain }
{}
