//! Worked texts: the tokens and the reading of short clauses. All are the contract of a function that does nothing.
ghost use Rattle.iso_model.specs.Worked.Texts.{TokensOfThreeClauses, TokensOfAllForms, ReadingOfThreeClauses, NoClauses, ReadingOfSigns, ReadingOfBrackets, ReadingOfIntegers, NoTerms};

/// What texts read as, and which are no clauses.
pub fn worked_texts()
    // The tokens of `eq(X, X).`, of `p(Y, _) :- q, r(1, Y).` and of `l:-l. % again`, each with its place (6.4).
    ensures tokens_of_three_clauses { TokensOfThreeClauses }
    // The tokens of a text with items in quotes, a character code and numbers in other bases, what they stand for,
    // and the tokens of an item that isn't well closed (6.4.2.1, 6.4.4, 6.4.6).
    ensures tokens_of_all_forms { TokensOfAllForms }
    // The clauses that the three texts are by the grammar, with their variables' names (6.2, 6.3).
    ensures reading_of_three_clauses { ReadingOfThreeClauses }
    // `p(a :- b).`, `p :- .` and `p (a).` are no clauses (6.3.3, 6.3.4).
    ensures no_clauses { NoClauses }
    // What terms with signs are read as (6.3.4.2).
    ensures reading_of_signs { ReadingOfSigns }
    // What terms with brackets, lists, braces and quoted items are read as (6.3.4 to 6.3.7).
    ensures reading_of_brackets { ReadingOfBrackets }
    // What integers of all forms are read as (6.4.4).
    ensures reading_of_integers { ReadingOfIntegers }
    // Six texts that are no terms (6.3, 6.4).
    ensures no_terms { NoTerms }
{}
