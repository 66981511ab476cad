//! Laws of programs: each is the contract of a function that does nothing.
ghost use Rattle.iso_logic.specs.ProgramLaws.{ProgramsProveTheSame, ProgramsMakeDefiniteDatabases};

/// A definite database stays so where definite clauses are added, and the first database is definite.
pub fn programs_make_definite_databases()
    ensures { ProgramsMakeDefiniteDatabases }
{}

/// A database of definite clauses proves exactly what the program proves that it is made of.
pub fn programs_prove_the_same()
    ensures { ProgramsProveTheSame }
{}
