ghost use Rattle.std.specs.Prelude.{◌≡◌, ◌==◌, ℕ, Bool, true, None, IfOk};
ghost use Rattle.std.specs.List.{list_any};
ghost use Rattle.std.specs.Map.{set_value};
ghost use Rattle.std.specs.BTreeMap.{is_at};
ghost use Rattle.std.specs.Ordering.{nat_cmp};
ghost use Rattle.grant_book.specs.Lanes.{is_named, view_at};

use ddt_entry::Pointer;
use std::alloc::{AllocError, Global};
use std::collections::BTreeMap;
use std::marker::Model;

/// What a slot holds while its lane runs: a pointer, and which of the lane's commands wrote it, or none of
/// them.
#[derive(Clone, Copy, Debug, PartialEq, Eq)]
pub struct SlotView {
    /// What the slot holds.
    pub pointer: Pointer,
    /// The index of the command that wrote it in this group, or none.
    pub written: Option<u32>,
}

/// The slots that a lane's commands name, each with what it holds, or nothing.
#[derive(Drop)]
pub struct LaneSlots {
    views: BTreeMap<u32, Option<SlotView>>,
}

impl Model for LaneSlots {
    ghost use Rattle.std.specs.Prelude.{ℕ, List, Option};
    ghost use Rattle.grant_book.specs.declared.lane_slots.SlotView.{SlotView};

    ghost Value = { List (ℕ × Option SlotView) };

    ghost view = { λ slots. slots.views.entries };
}

impl LaneSlots {
    /// Names these slots, all of them empty. The error is want of memory.
    pub fn new(alloc: Global, slots: &[u32]) -> Result<LaneSlots, AllocError>
        ensures named { IfOk result (λ lane. (slot : ℕ) → is_named slot lane ≡ list_any (λ named. slot == named) slots.now) }
        ensures empty { IfOk result (λ lane. (slot : ℕ) → view_at slot lane ≡ None) }
    {
        let mut views = BTreeMap::new(alloc);
        'slots: for slot in slots {
            views.insert(*slot, None)?;
        }
        Ok(LaneSlots { views })
    }

    /// What a slot holds. Takes no memory.
    pub fn get(&self, slot: u32) -> Option<SlotView>
        ensures { result ≡ view_at slot self.now }
    {
        self.views.get(&slot).copied().flatten()
    }

    /// A slot that is named holds this from now on. Takes no memory.
    pub fn set(&mut self, slot: u32, view: Option<SlotView>)
        requires { is_named slot self.old ≡ true }
        ensures set { self.new ≡ set_value (is_at (nat_cmp slot)) self.old view }
    {
        if let Some(held) = self.views.get_mut(&slot) {
            *held = view;
        }
    }
}
