ghost use Rattle.std.specs.Prelude.{◌≡◌, ◌+◌, ◌^◌, ◌<◌, ℕ, List, IfOk, All, map, ◌++◌};
ghost use Rattle.ddt_entry.specs.declared.key.Key.{Key};
ghost use Rattle.pool_model.specs.Group.{Rules, opening_of, after_lanes, lanes_in_turn};
ghost use Rattle.pool_model.specs.Plain.{Told, told_of, lanes, prune, quota, set_mode};
ghost use Rattle.pool_model.specs.Mirrors.{task_of, act_of};
ghost use Rattle.pool_model.specs.Run.{first_standing, noted_course, sealed_standing};
ghost use Rattle.plain_run.specs.Courses.{WritesContent};
ghost use Rattle.plain_run.specs.Openings.{bytes_at, opening_by};
ghost use Rattle.plain_run.specs.Placed.{placed_of};
ghost use Rattle.plain_run.specs.Standings.{standing_of};

use crate::course::PlainCourse;
use crate::group::after_lanes;
use crate::opening::{PlacedBlock, PlainOpening, copied_blocks, placed};
use ddt_entry::KeyOf;
use plain_pool::{PlainPointer, PlainPool};
use plain_table::{KeptLogs, PlainTable, sync_logged};
use pool_model::{GroupNote, LanesGroup, Mode, PruneRule};
use std::alloc::{AllocError, Global};

/// A pool with its table, the bytes at each place that is named, how many sectors it has, and those of
/// its image's pages.
#[derive(Drop)]
pub struct PlainStanding {
    pub pool: PlainPool,
    pub table: PlainTable,
    pub logs: KeptLogs,
    pub blocks: Vec<PlacedBlock>,
    pub sectors: u64,
    pub pages: Vec<u64>,
}

impl PlainStanding {
    /// The empty pool of a new image of so many sectors.
    pub fn new(alloc: Global, sectors: u64) -> PlainStanding
        ensures { standing_of result ≡ first_standing sectors }
    {
        PlainStanding {
            pool: PlainPool::new(alloc),
            table: PlainTable::new(alloc),
            logs: KeptLogs::new(alloc),
            blocks: Vec::new(alloc),
            sectors,
            pages: Vec::new(alloc),
        }
    }

    /// The course of a group of lanes' commands by its note, the lanes one after another.
    pub fn course<K: KeyOf>(
        &self,
        alloc: Global,
        keyer: &K,
        group: &LanesGroup,
        note: &GroupNote,
    ) -> Result<PlainCourse, AllocError>
        requires room { self.now.pool.group + 1 < 2 ^ 64 }
        requires contents { All (λ command. WritesContent (act_of command.verb)) group.now.commands.items }
        ensures { IfOk result (λ course. course ≡ noted_course (lanes_in_turn (K.keying keyer.now))
            (standing_of self.now) group.now.moment (map task_of group.now.commands.items) (told_of note.now)) }
    {
        let opening = self.opening(alloc, group.moment)?;
        let pool = self.pool.copied(alloc)?;
        after_lanes(
            alloc,
            keyer,
            &opening,
            pool,
            group.commands.as_slice(),
            note,
        )
    }

    /// What stands after a group of lanes' commands, by its note, with these pages.
    pub fn after_group<K: KeyOf>(
        self,
        alloc: Global,
        keyer: &K,
        group: &LanesGroup,
        note: &GroupNote,
        pages: Vec<u64>,
    ) -> Result<PlainStanding, AllocError>
        requires room { self.pool.group + 1 < 2 ^ 64 }
        requires contents { All (λ command. WritesContent (act_of command.verb)) group.now.commands.items }
        ensures { IfOk result (λ next. standing_of next
            ≡ sealed_standing (lanes_in_turn (K.keying keyer.now)) (standing_of self)
            (lanes group.now.moment (map task_of group.now.commands.items)) (told_of note.now) pages.items) }
    {
        let opening = self.opening(alloc, group.moment)?;
        let course = self.course(alloc, keyer, group, note)?;
        self.after_course(alloc, &opening, course, pages)
    }

    /// What stands after a prune, with these pages.
    pub fn after_prune(
        self,
        alloc: Global,
        rule: PruneRule,
        moment: u64,
        pages: Vec<u64>,
    ) -> Result<PlainStanding, AllocError>
        requires { self.pool.group + 1 < 2 ^ 64 }
        ensures { (rules : Rules) (told : Told) → IfOk result (λ next.
            standing_of next ≡ sealed_standing rules (standing_of self) (prune moment rule) told pages.items) }
    {
        let PlainStanding {
            pool,
            table,
            logs,
            blocks,
            sectors,
            pages: _,
        } = self;
        let number = pool.group + 1;
        let changes = pool.prune_changes(alloc, rule, moment)?;
        let after = sync_logged(alloc, &table, &logs, changes.as_slice())?;
        Ok(PlainStanding {
            pool: pool.after_prune(alloc, rule, moment)?.in_group(number),
            table: after.table,
            logs: after.logs,
            blocks,
            sectors,
            pages,
        })
    }

    /// What stands after the quota was set, or taken away, with these pages.
    pub fn after_quota(
        self,
        alloc: Global,
        limit: Option<u64>,
        pages: Vec<u64>,
    ) -> Result<PlainStanding, AllocError>
        requires { self.pool.group + 1 < 2 ^ 64 }
        ensures { (rules : Rules) (told : Told) → IfOk result (λ next.
            standing_of next ≡ sealed_standing rules (standing_of self) (quota limit) told pages.items) }
    {
        let number = self.pool.group + 1;
        let after = sync_logged(alloc, &self.table, &self.logs, &[])?;
        Ok(PlainStanding {
            pool: self.pool.with_quota(limit).in_group(number),
            table: after.table,
            logs: after.logs,
            blocks: self.blocks,
            sectors: self.sectors,
            pages,
        })
    }

    /// What stands after the mode of a lane was set, with these pages.
    pub fn after_mode(
        self,
        alloc: Global,
        lane: u32,
        mode: Mode,
        pages: Vec<u64>,
    ) -> Result<PlainStanding, AllocError>
        requires { self.pool.group + 1 < 2 ^ 64 }
        ensures { (rules : Rules) (told : Told) → IfOk result (λ next.
            standing_of next ≡ sealed_standing rules (standing_of self) (set_mode lane mode) told pages.items) }
    {
        let number = self.pool.group + 1;
        let after = sync_logged(alloc, &self.table, &self.logs, &[])?;
        Ok(PlainStanding {
            pool: self.pool.with_mode(lane, mode).in_group(number),
            table: after.table,
            logs: after.logs,
            blocks: self.blocks,
            sectors: self.sectors,
            pages,
        })
    }

    /// What the next group finds when it opens at a moment.
    pub fn opening(&self, alloc: Global, moment: u64) -> Result<PlainOpening, AllocError>
        requires { self.now.pool.group + 1 < 2 ^ 64 }
        ensures { (key_of : List ℕ → Key) → IfOk result (λ opening.
            opening_by key_of opening ≡ opening_of key_of (standing_of self.now) moment) }
    {
        Ok(PlainOpening {
            table: self.table.copied(alloc)?,
            blocks: copied_blocks(alloc, self.blocks.as_slice())?,
            number: self.pool.group + 1,
            moment,
        })
    }

    /// What stands after a group of lanes' commands, by its course, with these pages.
    pub fn after_course(
        self,
        alloc: Global,
        opening: &PlainOpening,
        course: PlainCourse,
        pages: Vec<u64>,
    ) -> Result<PlainStanding, AllocError>
        ensures { (key_of : List ℕ → Key) → IfOk result (λ next.
            standing_of next ≡ after_lanes (opening_by key_of opening.now) (standing_of self) course pages.items) }
    {
        let changes = course.changes_of(alloc, opening)?;
        let after = sync_logged(alloc, &self.table, &self.logs, changes.as_slice())?;
        let found = self.pool;
        Ok(PlainStanding {
            pool: course.pool.in_group(opening.number),
            table: after.table,
            logs: after.logs,
            blocks: blocks_after(alloc, found.pointers.as_slice(), self.blocks)?,
            sectors: self.sectors,
            pages,
        })
    }
}

/// The bytes at each place after a group: those of the pointers that it found, or else as it found them.
fn blocks_after(
    alloc: Global,
    pointers: &[PlainPointer],
    mut blocks: Vec<PlacedBlock>,
) -> Result<Vec<PlacedBlock>, AllocError>
    ensures { IfOk result (λ after. after.items ≡ map placed_of pointers.now ++ blocks.items) }
{
    let mut after = placed_blocks(alloc, pointers)?;
    after.append(&mut blocks)?;
    Ok(after)
}

/// The pointers' bytes at their places.
fn placed_blocks(alloc: Global, pointers: &[PlainPointer]) -> Result<Vec<PlacedBlock>, AllocError>
    ensures { IfOk result (λ blocks. blocks.items ≡ map placed_of pointers.now) }
{
    let mut blocks = Vec::new(alloc);
    for pointer in pointers {
        blocks.push(placed(alloc, pointer)?)?;
    }
    Ok(blocks)
}
