//! Worked goals of bagof/3, setof/3 and ^/2. All are the contract of a function that does nothing.
ghost use Rattle.iso_model.specs.Worked.Groups.{FreeVariables, GroupsInOrder, GroupsOfVariants, SetsAreSorted, GroupsCheck, ExistsRunsItsGoal};

/// Which variables are free in goals, how solutions come in groups, and what is checked.
pub fn worked_groups()
    // The free variables of goals with `V^` and without, for a template (7.1.1.4).
    ensures free_variables { FreeVariables }
    // Groups stand in the order of their first solutions, and keep the order of theirs (8.10.2).
    ensures order { GroupsInOrder }
    // Witnesses are of one group where they are equal up to a renaming of variables (8.10.2).
    ensures variants { GroupsOfVariants }
    // setof/3 has each item once, in the standard order (8.10.3).
    ensures sets { SetsAreSorted }
    // The goal and the result are checked before the goal is run; without a solution they fail (8.10.2.3, 8.10.3.3).
    ensures checks { GroupsCheck }
    // `V^G` runs `G` as `call/1` does (own).
    ensures exists { ExistsRunsItsGoal }
{}
