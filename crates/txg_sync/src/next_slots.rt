ghost use Rattle.std.specs.Prelude.{◌≡◌, OnOk};
ghost use Rattle.table_state.specs.Pools.{slots_after};

use pool_model::SlotChange;
use slot_table::SlotMap;
use std::alloc::AllocError;

/// Changes slots in place: of the changes of one slot the last counts. The error is want of memory; the slots are then
/// given up.
pub fn set_slots(slots: &mut SlotMap, changes: &[SlotChange]) -> Result<(), AllocError>
    ensures { OnOk result (slots.new ≡ slots_after changes.now slots.old) }
{
    'changes: for change in changes {
        slots.set(change)?;
    }
    Ok(())
}
