ghost use Rattle.std.specs.Prelude.{◌≡◌, ◌≤◌, ◌↔◌, IsTrue, IfOk, map};
ghost use Rattle.pool_model.specs.Stats.{stats_of};
ghost use Rattle.pool_stats.specs.References.{standing_of, reference_of};
ghost use Rattle.plain_pool.specs.Pointers.{mark_of};
ghost use Rattle.plain_pool.specs.Small.{IsSmall};

use crate::pointer::{Mark, PlainPointer};
use crate::pool::PlainPool;
use pool_model::Stats;
use pool_stats::{Reference, Standing};
use std::alloc::{AllocError, Global};

/// A mark without its moment.
fn standing_of(mark: Mark) -> Standing
    ensures { result ≡ standing_of (mark_of mark) }
{
    match mark {
        Mark::Plain => Standing::Plain,
        Mark::Tracked { .. } => Standing::Tracked,
        Mark::Loose => Standing::Loose,
    }
}

/// What the statistics see of a pointer.
fn reference_of(pointer: &PlainPointer) -> Reference
    ensures { result ≡ reference_of pointer.now }
{
    Reference {
        key: pointer.key,
        standing: standing_of(pointer.mark),
    }
}

/// What the statistics see of these pointers. The error is want of memory.
fn references_of(alloc: Global, pointers: &[PlainPointer]) -> Result<Vec<Reference>, AllocError>
    ensures { IfOk result (λ references. references.items ≡ map reference_of pointers.now) }
{
    let mut references = Vec::new(alloc);
    'pointers: for pointer in pointers {
        references.push(reference_of(pointer))?;
    }
    Ok(references)
}

impl PlainPool {
    /// Whether the pool has few enough pointers, and keys short enough, for each number of its report.
    pub fn is_small(&self) -> bool
        ensures { IsTrue result ↔ IsSmall self.now }
    {
        self.pointers.len() <= 1 << 20
            && self.pointers.iter().all(|pointer| pointer.key.len <= 4096)
    }

    /// What `stat` prints of the pool. The error is want of memory.
    pub fn stats(&self, alloc: Global) -> Result<Stats, AllocError>
        requires { IsSmall self.now }
        ensures { IfOk result (λ stats. stats ≡ stats_of self.now) }
    {
        let references = references_of(alloc, self.pointers.as_slice())?;
        pool_stats::stats(alloc, references.as_slice())
    }
}
