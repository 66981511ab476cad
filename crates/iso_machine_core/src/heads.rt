//! The head of a clause is met.
ghost use Rattle.std.specs.Prelude.{◌≡◌, ◌<◌, ◌+◌, ◌++◌, ◌^◌, ℕ, List, [], IfOk, IsTrue, Bool, length, map};
ghost use Rattle.std.specs.List.{All};
ghost use Rattle.iso_store_core.specs.Presents.{Grows};
ghost use Rattle.iso_store_core.specs.Retaining.{CountsCells, RetainsAll};
ghost use Rattle.iso_compile.specs.CodeLaws.{State};
ghost use Rattle.iso_compile.specs.Orders.{parts_cells};
ghost use Rattle.iso_code.specs.Loaded.{AreSound, IsSoundGet, AreMarked, AreNextGroups, met_behind, part_at, operand_got, all_operands};
ghost use Rattle.iso_code.specs.Standing.{Setting, Ready};
ghost use Rattle.iso_writing.specs.Pushing.{news, cells_of_blocks};
ghost use Rattle.iso_code.specs.Standing.{files};
ghost use Rattle.iso_code.specs.Standing.{Carries};
ghost use Rattle.iso_machine_core.specs.Heads.{MeetsHead};

use super::blocks::meet_blocks;
use iso_cells::Cells;
use iso_code::Head;
use iso_reading::meet_gets;
use iso_store_core::StoreFault;

/// Meets the arguments of a call with the head of a clause, whose variables are numbered from `first` on (7.7.10). The
/// words of variables that it meets are at their places from here on. The list of words is for those of arguments.
/// False where they don't unify; then it is open what is bound and what the lists have. The errors: the store is full,
/// or memory was refused.
pub fn meet_head<S: Cells>(
    store: &mut S,
    first: u64,
    head: &Head,
    arguments: &[S::Word],
    environment: &mut [S::Word],
    compounds: &mut [S::Word],
    words: &mut Vec<S::Word>,
) -> Result<bool, StoreFault>
    requires gets { All (IsSoundGet (length (S.names store.old)) (length arguments.now) (length environment.old)) head.now.gets.items }
    requires blocks { AreSound (length (S.names store.old)) (length arguments.now) (length environment.old) (length compounds.old) head.now.blocks.items }
    requires ready { (t : Setting) × (met : ℕ → Bool) × (state : State) × Ready (S.present store.old) (files environment.old arguments.now compounds.old) t met state × (t.first ≡ first)
        × AreMarked met (map operand_got head.now.gets.items ++ all_operands head.now.blocks.items) × AreNextGroups (met_behind met (map operand_got head.now.gets.items)) head.now.blocks.items }
    requires numbers { (S.present store.old).next < 2 ^ 63 }
    ensures meets { IfOk result (λ answer. MeetsHead (S.names store.old) head.now.gets.items head.now.blocks.items first (S.present store.old) (S.present store.new)
        (files environment.old arguments.now compounds.old) (files environment.new arguments.now compounds.new) answer) }
    ensures carries { IfOk result (λ answer. IsTrue answer → Carries (S.present store.old) (S.present store.new)) }
    ensures environment { length environment.new ≡ length environment.old }
    ensures compounds { length compounds.new ≡ length compounds.old }
    ensures cells { CountsCells S.Store → Grows (S.present store.old) (S.present store.new)
        (parts_cells (map (part_at [] 0) (map operand_got head.now.gets.items)) + cells_of_blocks head.now.blocks.items + news (all_operands head.now.blocks.items)) (news (all_operands head.now.blocks.items)) }
    ensures full { result ≡ Err StoreFault.Full → S.full store.new }
    ensures rest { RetainsAll S.Store store.old store.new }
{
    if !meet_gets(
        store,
        head.gets.as_slice(),
        arguments,
        environment,
        compounds,
    )? {
        return Ok(false);
    }
    let blocks = head.blocks.as_slice();
    meet_blocks(
        store,
        first,
        blocks,
        arguments,
        environment,
        compounds,
        words,
    )
}
