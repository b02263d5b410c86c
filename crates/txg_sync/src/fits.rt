//! That slots, entries and changes at hand fit their ranges, by the types of their fields. The functions do nothing:
//! whoever needs the law of a list at hand calls its function.

ghost use Rattle.std.specs.List.{AllByRecursion};
ghost use Rattle.ddt_entry.specs.Spelling.{Fits, HomeFits};
ghost use Rattle.ddt_entry.specs.declared.entry.Change.TheVariants.{Entry as AnEntry};
ghost use Rattle.table_state.specs.Spelling.{FitsSlot};

use ddt_entry::{Change, Entry, Home};
use log_pair::LogPair;
use slot_table::SlotRecord;
use table_state::{key_fits, slot_fits};

/// Slots that code has in hand fit.
pub fn slots_fit(slots: &[SlotRecord])
    ensures { AllByRecursion FitsSlot slots.now }
{
    'slots: for held in slots {
        slot_fits(*held);
    }
}

/// The changes of logs that code has in hand fit.
pub fn logs_fit(logs: &LogPair)
    ensures active { AllByRecursion Fits logs.now.logs.active }
    ensures flushing { AllByRecursion Fits logs.now.logs.flushing }
{
    changes_fit(logs.kept(0));
    changes_fit(logs.kept(1));
}

/// Entries that code has in hand fit.
pub fn entries_fit(entries: &[Entry])
    ensures { AllByRecursion (λ entry. Fits (AnEntry entry)) entries.now }
{
    'entries: for entry in entries {
        change_fits(Change::Entry(*entry));
    }
}

/// Changes that code has in hand fit.
fn changes_fit(changes: &[Change])
    ensures { AllByRecursion Fits changes.now }
{
    'changes: for change in changes {
        change_fits(*change);
    }
}

/// A change by value fits.
fn change_fits(change: Change)
    ensures { Fits change }
{
    match change {
        Change::Entry(entry) => {
            key_fits(entry.key);
            home_fits(entry.home);
        }
        Change::Gone(key) => key_fits(key),
    }
}

/// A home by value fits, since its types say so; behind a reference the checker doesn't see it.
fn home_fits(home: Home)
    ensures { HomeFits home }
{}
