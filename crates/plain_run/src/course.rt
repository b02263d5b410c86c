ghost use Rattle.std.specs.Prelude.{◌≡◌, [], ◌∷◌, ◌++◌, ℕ, List, ◌^◌, ◌<◌, IfOk, length, if◌then◌else◌};
ghost use Rattle.std.specs.Option.{option_copied};
ghost use Rattle.ddt_entry.specs.declared.key.Key.{Key};
ghost use Rattle.pool_model.specs.Plain.{reply_of, read, to_free};
ghost use Rattle.pool_model.specs.Mirrors.{task_of, act_of, content_of};
ghost use Rattle.pool_model.specs.Pool.{run_length, held};
ghost use Rattle.pool_model.specs.Command.{is_fault, last_tracked, known_home, uses_table, naming, replied, released, placed, write_row, after_write, take_fresh, pointer_at, after_free, free_by_mark, after_act, after};
ghost use Rattle.plain_pool.specs.Pointers.{mark_of};
ghost use Rattle.plain_run.specs.Openings.{opening_by};
ghost use Rattle.home_rules.specs.Rows.{mark_since, row_of, spot_of};
ghost use Rattle.plain_run.specs.Courses.{turn_of, WritesContent};

use crate::answer::{PlainAnswer, is_fault};
use crate::fresh::{PlaceQueue, next_fresh, take_fresh};
use crate::opening::{PlainKnown, PlainOpening, known_at, sight};
use crate::row::mode_row;
use ddt_entry::{Key, KeyOf};
use home_rules::{Row, Spot, taken_row};
use plain_pool::{Mark, PlainPointer, PlainPool, copied_block};
use pool_model::{Block, Command, CommandAnswer, FreeAnswer, Mode, Payload, ReadAnswer, Verb};
use quota_rule::allows;
use reserved_list::ReservedList;
use std::alloc::{AllocError, Global};
use std::marker::Model;
use std::mem;

/// A group after some of its commands.
#[derive(Drop)]
pub struct PlainCourse {
    pub pool: PlainPool,
    /// The pools before this one, from the newest on.
    pub earlier: Vec<PlainPool>,
    /// The fresh places that each lane has left.
    pub fresh: Vec<PlaceQueue>,
    /// The runs that were given out, each with its first sector and its length.
    pub given: Vec<(u64, u64)>,
    pub answers: Vec<PlainAnswer>,
    /// The keys of the table that were named.
    pub touched: Vec<Key>,
}

impl Model for PlainCourse {
    ghost use Rattle.pool_model.specs.Command.{Course};

    ghost Value = { Course };

    ghost use Rattle.plain_run.specs.Courses.{course_of};

    ghost view = { course_of };
}

impl PlainCourse {
    /// A tracked pointer of the key in the newest of the course's pools that has one.
    fn last_tracked(&self, key: &Key) -> Option<&PlainPointer>
        ensures { option_copied result ≡ last_tracked key.now (self.now.pool ∷ self.now.earlier) }
    {
        match self.pool.first_tracked(key) {
            Some(pointer) => Some(pointer),
            None => last_tracked(self.earlier.as_slice(), key),
        }
    }

    /// The home of a key at this moment: by the pools of this group, or else by the table as the group
    /// found it.
    pub fn known_home(
        &self,
        alloc: Global,
        opening: &PlainOpening,
        key: &Key,
    ) -> Result<Option<PlainKnown>, AllocError>
        ensures { (key_of : List ℕ → Key) → IfOk result (λ known.
            known ≡ known_home (opening_by key_of opening.now) self.now key.now) }
    {
        let count = self.pool.count_at(key) as u64;
        match self.last_tracked(key) {
            Some(pointer) => Ok(Some(known_at(alloc, pointer, count)?)),
            None => opening.known_in_table(alloc, key),
        }
    }

    /// The course with one more answer.
    fn replied(mut self, answer: CommandAnswer) -> Result<PlainCourse, AllocError>
        ensures { IfOk result (λ next. next ≡ replied (reply_of answer) self) }
    {
        self.answers.push(PlainAnswer { answer })?;
        Ok(self)
    }

    /// The course with one more named key, where the lane uses the table.
    fn naming(mut self, named: bool, key: Key) -> Result<PlainCourse, AllocError>
        ensures { IfOk result (λ next. next ≡ naming named key self) }
    {
        if named {
            self.touched.push(key)?;
        }
        Ok(self)
    }

    /// The course with another pool, and this one before it.
    fn moved_on(mut self, pool: PlainPool) -> Result<PlainCourse, AllocError>
        ensures { IfOk result (λ next.
            next ≡ record self { pool = pool; earlier = self.pool ∷ self.earlier }) }
    {
        let before = mem::replace(&mut self.pool, pool);
        self.earlier.insert(0, before)?;
        Ok(self)
    }

    /// The course without the slot's pointer.
    fn released(self, alloc: Global, command: &Command) -> Result<PlainCourse, AllocError>
        ensures { IfOk result (λ next. next ≡ released self (task_of command.now)) }
    {
        let pool = self.pool.copied(alloc)?;
        self.moved_on(pool.without_pointer(command.lane, command.slot))
    }

    /// The course with the write's pointer at its spot. The key is the content's.
    fn placed(
        self,
        alloc: Global,
        opening: &PlainOpening,
        command: &Command,
        key: Key,
        content: Block,
        spot: Spot,
    ) -> Result<PlainCourse, AllocError>
        requires { 0 < length content.items }
        ensures { (key_of : List ℕ → Key) → key_of content.items ≡ key → IfOk result (λ next.
            next ≡ placed (opening_by key_of opening.now) self (task_of command.now) content.items (spot_of spot)) }
    {
        match spot {
            Spot::Nowhere => Ok(self),
            Spot::AtHome { home, since } => {
                let mark = Mark::Tracked { since };
                let pointer = pointer_at(command, key, content, home.place, home.birth, mark);
                let pool = self.pool.copied(alloc)?.with_pointer(pointer)?;
                self.moved_on(pool)
            }
            Spot::AtFresh { since } => {
                let mark = mark_since(since);
                let place = next_fresh(self.fresh.as_slice(), command.lane);
                let pointer = pointer_at(command, key, content, place, opening.number, mark);
                let pool = self.pool.copied(alloc)?.with_pointer(pointer)?;
                self.given_out(command.lane, place, run_length(&key))?
                    .moved_on(pool)
            }
        }
    }

    /// The course with this place, the next of the lane, given out for a run of so many sectors.
    fn given_out(mut self, lane: u32, place: u64, length: u64) -> Result<PlainCourse, AllocError>
        ensures { IfOk result (λ next. next
            ≡ record self { fresh = take_fresh lane self.fresh; given = self.given ++ (place, length) ∷ [] }) }
    {
        self.given.push((place, length))?;
        self.fresh = take_fresh(self.fresh, lane);
        Ok(self)
    }

    /// What a write answers, and where its pointer goes.
    fn write_row<K: KeyOf>(
        &self,
        alloc: Global,
        keyer: &K,
        opening: &PlainOpening,
        command: &Command,
        noted: &CommandAnswer,
        content: &[u8],
    ) -> Result<Row, AllocError>
        requires some { 0 < length content.now }
        requires fits { length content.now < 2 ^ 32 }
        ensures { IfOk result (λ row. row_of row ≡ write_row (opening_by (K.keying keyer.now).key_of opening.now)
            self.now (turn_of command.now noted.now) content.now) }
    {
        if self.pool.held(command.lane, command.slot).is_some() {
            return Ok(taken_row());
        }
        let key = keyer.key(content);
        let known = self.known_home(alloc, opening, &key)?;
        let keys = self.pool.keys_in(alloc)?.len() as u64;
        let allowed = allows(keys, self.pool.quota);
        let mode = self.pool.mode_of(command.lane);
        Ok(mode_row(
            mode,
            keyer,
            opening,
            &known,
            content,
            is_fault(noted),
            allowed,
        ))
    }

    /// A write of a content.
    fn after_write<K: KeyOf>(
        self,
        alloc: Global,
        keyer: &K,
        opening: &PlainOpening,
        command: &Command,
        noted: &CommandAnswer,
        content: Block,
    ) -> Result<PlainCourse, AllocError>
        requires some { 0 < length content.items }
        requires fits { length content.items < 2 ^ 32 }
        ensures { IfOk result (λ next. next ≡ after_write (opening_by (K.keying keyer.now).key_of opening.now)
            self (turn_of command.now noted.now) content.items) }
    {
        let key = keyer.key(content.as_slice());
        let named = uses_table(self.pool.mode_of(command.lane));
        let row = self.write_row(alloc, keyer, opening, command, noted, content.as_slice())?;
        self.placed(alloc, opening, command, key, content, row.spot)?
            .replied(CommandAnswer::Write(row.answer))?
            .naming(named, key)
    }

    /// A read of a slot.
    fn after_read<K: KeyOf>(
        self,
        alloc: Global,
        keyer: &K,
        opening: &PlainOpening,
        command: &Command,
        noted: &CommandAnswer,
    ) -> Result<PlainCourse, AllocError>
        ensures { IfOk result (λ next. next ≡ after_act read (opening_by (K.keying keyer.now).key_of opening.now)
            self (turn_of command.now noted.now)) }
    {
        let sight = match self.pool.held(command.lane, command.slot) {
            None => ReadAnswer::Empty,
            Some(pointer) => sight(alloc, keyer, pointer, opening, is_fault(noted))?,
        };
        self.replied(CommandAnswer::Read(sight))
    }

    /// A free of a slot.
    fn after_free(
        self,
        alloc: Global,
        command: &Command,
        noted: &CommandAnswer,
    ) -> Result<PlainCourse, AllocError>
        ensures { IfOk result (λ next. next
            ≡ after_free (held self.pool command.now.lane command.now.slot) self (turn_of command.now noted.now)) }
    {
        match self.pool.held(command.lane, command.slot) {
            None => self.replied(CommandAnswer::Free(FreeAnswer::Empty)),
            Some(pointer) => {
                let mark = pointer.mark;
                let key = pointer.key;
                self.free_by_mark(alloc, command, noted, mark, key)
            }
        }
    }

    /// What a free of a pointer does, by its mark.
    fn free_by_mark(
        self,
        alloc: Global,
        command: &Command,
        noted: &CommandAnswer,
        mark: Mark,
        key: Key,
    ) -> Result<PlainCourse, AllocError>
        ensures { IfOk result (λ next. next
            ≡ free_by_mark (mark_of mark) self (turn_of command.now noted.now) key) }
    {
        match mark {
            Mark::Plain => self
                .released(alloc, command)?
                .replied(CommandAnswer::Free(FreeAnswer::Freed)),
            Mark::Tracked { .. } => self
                .freed_by_table(alloc, command, noted, FreeAnswer::Counted)?
                .naming(true, key),
            Mark::Loose => self
                .freed_by_table(alloc, command, noted, FreeAnswer::Loose)?
                .naming(true, key),
        }
    }

    /// A free that the table decides: nothing is done where a read of the device failed.
    fn freed_by_table(
        self,
        alloc: Global,
        command: &Command,
        noted: &CommandAnswer,
        answer: FreeAnswer,
    ) -> Result<PlainCourse, AllocError>
        ensures { IfOk result (λ next. next ≡ (if is_fault (reply_of noted.now)
            then replied (to_free FreeAnswer.Fault) self
            else replied (to_free answer) (released self (task_of command.now)))) }
    {
        if is_fault(noted) {
            return self.replied(CommandAnswer::Free(FreeAnswer::Fault));
        }
        self.released(alloc, command)?
            .replied(CommandAnswer::Free(answer))
    }

    /// One command. `noted` is the answer that was noted of it: its reads of the device failed exactly
    /// where that is a fault, and nothing else of it is used. The error is want of memory.
    pub fn after<K: KeyOf>(
        self,
        alloc: Global,
        keyer: &K,
        opening: &PlainOpening,
        command: &Command,
        noted: &CommandAnswer,
    ) -> Result<PlainCourse, AllocError>
        requires { WritesContent (act_of command.now.verb) }
        ensures { IfOk result (λ next. next ≡ after (opening_by (K.keying keyer.now).key_of opening.now)
            self (turn_of command.now noted.now)) }
    {
        match &command.verb {
            Verb::Write(payload) => {
                let content = content_of(alloc, payload)?;
                self.after_write(alloc, keyer, opening, command, noted, content)
            }
            Verb::Read => self.after_read(alloc, keyer, opening, command, noted),
            Verb::Free => self.after_free(alloc, command, noted),
        }
    }
}

/// The bytes of a payload.
fn content_of(alloc: Global, payload: &Payload) -> Result<Block, AllocError>
    ensures { IfOk result (λ block. block.items ≡ content_of payload.now) }
{
    match payload {
        Payload::Bytes(block) => copied_block(alloc, block),
        Payload::Repeat { byte, times } => {
            let bytes = vec![in alloc; *byte; *times as usize]?;
            Ok(ReservedList::from_vec(bytes))
        }
    }
}

/// The pointer of a command's slot.
fn pointer_at(
    command: &Command,
    key: Key,
    content: Block,
    place: u64,
    birth: u64,
    mark: Mark,
) -> PlainPointer
    requires { 0 < length content.items }
    ensures { result ≡ pointer_at (task_of command.now) key content.items place birth (mark_of mark) }
{
    PlainPointer {
        lane: command.lane,
        slot: command.slot,
        key,
        content,
        place,
        birth,
        mark,
    }
}

/// The mark of a pointer that the table counts since a moment, or not at all.
fn mark_since(since: Option<u64>) -> Mark
    ensures { mark_of result ≡ mark_since since }
{
    match since {
        None => Mark::Plain,
        Some(since) => Mark::Tracked { since },
    }
}

/// How many sectors the blocks of a key take.
fn run_length(key: &Key) -> u64
    ensures { result ≡ run_length key.now }
{
    (u64::from(key.len) + 4095) / 4096
}

/// A tracked pointer of the key in the first of these pools that has one.
fn last_tracked<'a>(pools: &'a [PlainPool], key: &Key) -> Option<&'a PlainPointer>
    ensures { option_copied result ≡ last_tracked key.now pools.now }
{
    for pool in pools {
        if let Some(pointer) = pool.first_tracked(key) {
            return Some(pointer);
        }
    }
    None
}

/// Whether a lane in this mode names keys of the table.
fn uses_table(mode: Mode) -> bool
    ensures { result ≡ uses_table mode }
{
    match mode {
        Mode::Off => false,
        Mode::On | Mode::Verify => true,
    }
}
