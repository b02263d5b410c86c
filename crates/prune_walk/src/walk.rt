ghost use Rattle.std.specs.Prelude.{◌≡◌, ◌≤◌, ℕ, map, IfOk, IfErr};
ghost use Rattle.page_tree.specs.declared.fault.PageFault.TheVariants.{Memory};
ghost use Rattle.ddt_entry.specs.declared.entry.Change.TheVariants.{Gone as GoneOf};
ghost use Rattle.pool_model.specs.Pool.{Pool};
ghost use Rattle.pool_model.specs.Table.{entries_found, Matches};
ghost use Rattle.pool_model.specs.Prune.{prune_changes};
ghost use Rattle.prune_walk.specs.Candidates.{candidates, table_of_parts};

use crate::ages::{taken_by, unique_homes};
use ddt_class::Classes;
use disk_model::Disk;
use log_pair::LogPair;
use page_tree::{PageFault, PageReader};
use pool_model::{EntryList, PruneRule};
use std::alloc::Global;

/// The homes that a prune takes at a moment in seconds, of those that the table finds with a count of 1: the
/// oldest first, and then by key. Reads no sector yet. The error is want of memory.
pub fn candidates<D: Disk, P: PageReader<D>>(
    alloc: Global,
    classes: &Classes,
    logs: &LogPair,
    disk: &D,
    reader: &mut P,
    rule: PruneRule,
    moment: u64,
) -> Result<EntryList, PageFault>
    requires fits { P.fits reader.old disk.now }
    ensures taken { IfOk result (λ taken.
        taken.items ≡ candidates (entries_found (table_of_parts classes.now logs.now 0)) rule moment) }
    ensures pruned { (pool : Pool) (age : ℕ) → Matches pool (table_of_parts classes.now logs.now age)
        → IfOk result (λ taken. map (λ entry. GoneOf entry.key) taken.items ≡ prune_changes pool rule moment) }
    ensures fault { IfErr result (λ fault. fault ≡ Memory) }
    ensures fits { P.fits reader.new disk.now }
    ensures count { P.faults reader.old ≤ P.faults reader.new }
{
    classes.is_table();
    let stored = classes.entries(alloc, disk, reader)?;
    let found = logs.homes_found(alloc, stored.as_slice())?;
    let taken = taken_by(rule, moment, unique_homes(found))?;
    Ok(EntryList::from_vec(taken))
}
