//! Worked terms: what they are written as. All are the contract of a function that does nothing.
ghost use Rattle.iso_model.specs.Worked.Terms.{TextsWithSigns, TextsWithBrackets, TextsWithWords, TextsWithAnOperator, CanonicalTexts, UnquotedTexts, TextsOfNumberedVariables};

/// How terms are written.
pub fn worked_terms()
    // What terms with signs are written as (7.10.5).
    ensures texts_with_signs { TextsWithSigns }
    // What operands of too high a priority, and operators that are operands, are written as.
    ensures texts_with_brackets { TextsWithBrackets }
    // What braces, lists and operators that are words are written as.
    ensures texts_with_words { TextsWithWords }
    // What terms of an operator that was added are written as.
    ensures texts_with_an_operator { TextsWithAnOperator }
    // What `write_canonical` writes -5, the atom `it's`, `f(X, g(a, 1), Y, X)` and `1 - [a|b]` as.
    ensures canonical_texts { CanonicalTexts }
    // What terms are written as without quotes, three of them with an empty name.
    ensures unquoted_texts { UnquotedTexts }
    // What `'$VAR'(N)` is written as.
    ensures texts_of_numbered_variables { TextsOfNumberedVariables }
{}
