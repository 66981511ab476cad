//! A clause that is added to two lists: that of its procedure, and that of a part of it.
ghost use Rattle.std.specs.Prelude.{◌≡◌, ◌<◌, ◌++◌, ◌∷◌, [], Some, None, length, slice_set, slice_index_or, IfOk, OnOk, OnErr};
ghost use Rattle.iso_clauses.specs.Blocks.{nothing_kept, pushed};

use super::blocks::{Entry, push_both};
use super::ids::ClauseId;
use super::slots::{Label, Slot};
use std::alloc::AllocError;

/// Adds a clause to a procedure and to a part of it. The error is that memory was refused; nothing changed then.
pub fn add<C: Drop>(
    entries: &mut Vec<Entry>,
    lists: &mut Vec<Entry>,
    slots: &mut Vec<Slot<C>>,
    label: Label,
    clause: C,
) -> Result<ClauseId, AllocError>
    requires place { label.procedure < length entries.old.items }
    requires part { label.part < length lists.old.items }
    ensures number { IfOk result (λ id. id ≡ length slots.old.items) }
    ensures slots { OnOk result (slots.new.items
        ≡ slots.old.items ++ record { value = Some clause; label = label; died = None } ∷ []) }
    ensures entries { OnOk result (entries.new.items ≡ slice_set entries.old.items label.procedure
        (pushed label.side (length slots.old.items)
        (slice_index_or entries.old.items label.procedure nothing_kept))) }
    ensures lists { OnOk result (lists.new.items ≡ slice_set lists.old.items label.part
        (pushed label.side (length slots.old.items)
        (slice_index_or lists.old.items label.part nothing_kept))) }
    ensures slots_stay { OnErr result (slots.new.items ≡ slots.old.items) }
    ensures entries_stay { OnErr result (entries.new.items ≡ entries.old.items) }
    ensures lists_stay { OnErr result (lists.new.items ≡ lists.old.items) }
{
    let id = ClauseId::of(slots.len());
    let slot = Slot {
        value: Some(clause),
        label,
        died: None,
    };
    slots.push(slot)?;
    let whole = &mut entries[label.procedure];
    let part = &mut lists[label.part];
    if push_both(whole, part, id, label.side).is_err() {
        let _ = slots.pop();
        return Err(AllocError);
    }
    Ok(id)
}
