//! The arguments of a call that a head meets with variables and constants.
ghost use Rattle.std.specs.Prelude.{◌≡◌, ◌<◌, ℕ, List, [], ◌∷◌, IfOk, IsTrue, length, map};
ghost use Rattle.std.specs.List.{All};
ghost use Rattle.iso_store_core.specs.Presents.{Grows};
ghost use Rattle.iso_store_core.specs.Retaining.{RetainsAll};
ghost use Rattle.iso_compile.specs.Orders.{parts_cells};
ghost use Rattle.iso_code.specs.Loaded.{IsSoundGet, part_at, operand_got};
ghost use Rattle.iso_reading.specs.Reading.{StandsReady};
ghost use Rattle.iso_code.specs.Standing.{Carries};
ghost use Rattle.iso_reading.specs.Gets.{MeetsGets};

use super::reading::read_operand;
use iso_cells::Cells;
use iso_code::{Get, Operand};
use iso_store_core::StoreFault;

/// Meets the arguments one after the other.
#[inline(always)]
fn meet_each<S: Cells>(
    store: &mut S,
    gets: &[Get],
    arguments: &[S::Word],
    environment: &mut [S::Word],
    compounds: &mut [S::Word],
) -> Result<bool, StoreFault>
    requires sound { All (IsSoundGet (length (S.names store.old)) (length arguments.now) (length environment.old)) gets.now }
    requires ready { StandsReady (S.present store.old) environment.old arguments.now compounds.old (map operand_got gets.now) }
    ensures meets { IfOk result (λ answer. MeetsGets (S.names store.old) gets.now (S.present store.old) (S.present store.new) environment.old environment.new arguments.now compounds.new answer) }
    ensures carries { IfOk result (λ answer. IsTrue answer → Carries (S.present store.old) (S.present store.new)) }
    ensures environment { length environment.new ≡ length environment.old }
    ensures compounds { compounds.new ≡ compounds.old }
    ensures cells { Grows (S.present store.old) (S.present store.new) (parts_cells (map (part_at [] 0) (map operand_got gets.now))) 0 }
    ensures full { result ≡ Err StoreFault.Full → S.full store.new }
    ensures rest { RetainsAll S.Store store.old store.new }
{
    for get in gets {
        let argument = arguments[get.argument];
        if !read_operand(store, &get.operand, argument, environment, compounds)? {
            return Ok(false);
        }
    }
    Ok(true)
}

/// Meets arguments of the call with variables and constants (`get_variable`, `get_value`, `get_constant`). False where
/// they don't unify. The errors: the store is full, or memory was refused.
#[inline(always)]
pub fn meet_gets<S: Cells>(
    store: &mut S,
    gets: &[Get],
    arguments: &[S::Word],
    environment: &mut [S::Word],
    compounds: &mut [S::Word],
) -> Result<bool, StoreFault>
    requires sound { All (IsSoundGet (length (S.names store.old)) (length arguments.now) (length environment.old)) gets.now }
    requires ready { StandsReady (S.present store.old) environment.old arguments.now compounds.old (map operand_got gets.now) }
    ensures meets { IfOk result (λ answer. MeetsGets (S.names store.old) gets.now (S.present store.old) (S.present store.new) environment.old environment.new arguments.now compounds.new answer) }
    ensures carries { IfOk result (λ answer. IsTrue answer → Carries (S.present store.old) (S.present store.new)) }
    ensures environment { length environment.new ≡ length environment.old }
    ensures compounds { compounds.new ≡ compounds.old }
    ensures cells { Grows (S.present store.old) (S.present store.new) (parts_cells (map (part_at [] 0) (map operand_got gets.now))) 0 }
    ensures full { result ≡ Err StoreFault.Full → S.full store.new }
    ensures rest { RetainsAll S.Store store.old store.new }
{
    match gets {
        // At most four variables alone: since it is known here that they are, this is compiled to code without a loop.
        [
            Get {
                argument,
                operand: Operand::New(variable),
            },
        ] => {
            let one = [Get {
                argument: *argument,
                operand: Operand::New(*variable),
            }];
            meet_each(store, &one, arguments, environment, compounds)
        }
        [
            Get {
                argument: first,
                operand: Operand::New(first_variable),
            },
            Get {
                argument: second,
                operand: Operand::New(second_variable),
            },
        ] => {
            let all = [
                Get {
                    argument: *first,
                    operand: Operand::New(*first_variable),
                },
                Get {
                    argument: *second,
                    operand: Operand::New(*second_variable),
                },
            ];
            meet_each(store, &all, arguments, environment, compounds)
        }
        [
            Get {
                argument: first,
                operand: Operand::New(first_variable),
            },
            Get {
                argument: second,
                operand: Operand::New(second_variable),
            },
            Get {
                argument: third,
                operand: Operand::New(third_variable),
            },
        ] => {
            let all = [
                Get {
                    argument: *first,
                    operand: Operand::New(*first_variable),
                },
                Get {
                    argument: *second,
                    operand: Operand::New(*second_variable),
                },
                Get {
                    argument: *third,
                    operand: Operand::New(*third_variable),
                },
            ];
            meet_each(store, &all, arguments, environment, compounds)
        }
        [
            Get {
                argument: first,
                operand: Operand::New(first_variable),
            },
            Get {
                argument: second,
                operand: Operand::New(second_variable),
            },
            Get {
                argument: third,
                operand: Operand::New(third_variable),
            },
            Get {
                argument: fourth,
                operand: Operand::New(fourth_variable),
            },
        ] => {
            let all = [
                Get {
                    argument: *first,
                    operand: Operand::New(*first_variable),
                },
                Get {
                    argument: *second,
                    operand: Operand::New(*second_variable),
                },
                Get {
                    argument: *third,
                    operand: Operand::New(*third_variable),
                },
                Get {
                    argument: *fourth,
                    operand: Operand::New(*fourth_variable),
                },
            ];
            meet_each(store, &all, arguments, environment, compounds)
        }
        _ => meet_each(store, gets, arguments, environment, compounds),
    }
}
