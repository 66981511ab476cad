//! Worked loads: how much stands in the store at most while small programs run. All are the contract of a function
//! that does nothing.
ghost use Rattle.iso_model.specs.Worked.Loads.{TrueLoads, AtomsLoad, FactsLoad, GrowthLoads, BallLoads, FindallLoads, RetractallLoads, NegationLoads};

/// The greatest loads of small programs: no state that the run comes to has a greater one, and one has it.
pub fn worked_loads()
    // `true.`: 1.
    ensures one_goal { TrueLoads }
    // `p. q :- p, p.` with the query `q`: 1.
    ensures atoms { AtomsLoad }
    // `p(1). p(2). p(1).` with the query `p(X)`: 5.
    ensures facts { FactsLoad }
    // `f(X) :- f(g(X)).` with the query `f(a)`: 3, and 5 for each step of the budget.
    ensures growth { GrowthLoads }
    // A ball that meets two catch marks counts at each of them, over what was built there.
    ensures ball { BallLoads }
    // The list of findall/3 counts its size.
    ensures list { FindallLoads }
    // retractall/1 counts the largest head.
    ensures heads { RetractallLoads }
    // The goal of `\+` counts its size.
    ensures negation { NegationLoads }
{}
