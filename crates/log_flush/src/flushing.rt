ghost use Rattle.std.specs.Prelude.{◌≡◌, ◌≤◌, ◌<◌, ◌++◌, [], ◌∷◌, take, nat_lt, if◌then◌else◌, IfOk, IfErr, OnOk};
ghost use Rattle.page_tree.specs.declared.fault.PageFault.TheVariants.{Memory};
ghost use Rattle.pool_model.specs.Table.{set_entry, drop_entry, flush_entry};
ghost use Rattle.log_flush.specs.Flushing.{freed_by, freed_in, stage_of, first_flushed, so_flushed, finished, IsSecondStep};

use ddt_class::Classes;
use ddt_entry::{Change, Entry};
use disk_model::Disk;
use log_pair::LogPair;
use page_tree::{PageFault, PageReader};
use pool_model::PlaceList;
use std::alloc::{AllocError, Global};

/// Brings the first `limit` records of the flushing log to the stored table, or all where there are fewer,
/// and answers the places that are free then, those of the records whose home no pointer counts. Where
/// nothing is left the flushing log is emptied. The error is want of memory; the table is then given up.
pub fn flush<D: Disk, P: PageReader<D>>(
    alloc: Global,
    classes: &mut Classes,
    logs: &mut LogPair,
    disk: &D,
    reader: &mut P,
    limit: u64,
) -> Result<PlaceList, PageFault>
    requires fits { P.fits reader.old disk.now }
    ensures zap { OnOk result (classes.new ≡ (so_flushed limit (stage_of classes.old logs.old [])).zap) }
    ensures logs { OnOk result (logs.new ≡ finished (so_flushed limit (stage_of classes.old logs.old [])).logs) }
    ensures places { IfOk result (λ places. places.items ≡ freed_in (take limit logs.old.flush)) }
    ensures step { 0 < limit → OnOk result (IsSecondStep limit classes.old logs.old classes.new logs.new) }
    ensures fault { IfErr result (λ fault. fault ≡ Memory) }
    ensures fits { P.fits reader.new disk.now }
    ensures count { P.faults reader.old ≤ P.faults reader.new }
{
    let mut places = PlaceList::new(alloc);
    flush_records(classes, logs, disk, reader, limit, &mut places)?;
    if logs.len(1) == 0 {
        logs.empty_flushing(disk, reader)?;
    }
    Ok(places)
}

/// Brings the first `limit` records of the flushing log to the stored table, or all where there are fewer,
/// and appends the places that they release.
fn flush_records<D: Disk, P: PageReader<D>>(
    classes: &mut Classes,
    logs: &mut LogPair,
    disk: &D,
    reader: &mut P,
    limit: u64,
    places: &mut PlaceList,
) -> Result<(), PageFault>
    requires fits { P.fits reader.old disk.now }
    ensures flushed { OnOk result (stage_of classes.new logs.new places.new.items
        ≡ so_flushed limit (stage_of classes.old logs.old places.old.items)) }
    ensures fault { IfErr result (λ fault. fault ≡ Memory) }
    ensures fits { P.fits reader.new disk.now }
    ensures count { P.faults reader.old ≤ P.faults reader.new }
{
    let count = limit.min(logs.len(1));
    'records: for _ in 0..count {
        flush_first(classes, logs, disk, reader, places)?;
    }
    Ok(())
}

/// Brings the first record of the flushing log to the stored table, where there is one, and appends the
/// place that it releases.
fn flush_first<D: Disk, P: PageReader<D>>(
    classes: &mut Classes,
    logs: &mut LogPair,
    disk: &D,
    reader: &mut P,
    places: &mut PlaceList,
) -> Result<(), PageFault>
    requires fits { P.fits reader.old disk.now }
    ensures flushed { OnOk result (stage_of classes.new logs.new places.new.items
        ≡ first_flushed (stage_of classes.old logs.old places.old.items)) }
    ensures fault { IfErr result (λ fault. fault ≡ Memory) }
    ensures fits { P.fits reader.new disk.now }
    ensures count { P.faults reader.old ≤ P.faults reader.new }
{
    let Some(change) = logs.pop_flush() else {
        return Ok(());
    };
    flush_change(classes, disk, reader, &change)?;
    release(places, &change)?;
    Ok(())
}

/// Brings a record to the stored table: a home that is counted is set, any other goes.
fn flush_change<D: Disk, P: PageReader<D>>(
    classes: &mut Classes,
    disk: &D,
    reader: &mut P,
    change: &Change,
) -> Result<(), PageFault>
    requires fits { P.fits reader.old disk.now }
    ensures flushed { OnOk result (classes.new ≡ flush_entry classes.old change.now) }
    ensures fault { IfErr result (λ fault. fault ≡ Memory) }
    ensures fits { P.fits reader.new disk.now }
    ensures count { P.faults reader.old ≤ P.faults reader.new }
{
    match change {
        Change::Entry(entry) => flush_home(classes, disk, reader, entry),
        Change::Gone(key) => {
            classes.take_out(disk, reader, key)?;
            Ok(())
        }
    }
}

/// Sets a home that is counted in the stored table, and takes any other out.
fn flush_home<D: Disk, P: PageReader<D>>(
    classes: &mut Classes,
    disk: &D,
    reader: &mut P,
    entry: &Entry,
) -> Result<(), PageFault>
    requires fits { P.fits reader.old disk.now }
    ensures flushed { OnOk result (classes.new ≡ (if nat_lt 0 entry.now.home.count
        then set_entry entry.now classes.old else drop_entry entry.now.key classes.old)) }
    ensures fault { IfErr result (λ fault. fault ≡ Memory) }
    ensures fits { P.fits reader.new disk.now }
    ensures count { P.faults reader.old ≤ P.faults reader.new }
{
    if entry.home.count > 0 {
        return classes.put(disk, reader, &entry.key, entry.home);
    }
    classes.take_out(disk, reader, &entry.key)?;
    Ok(())
}

/// The place that a record releases as it leaves: that of a home that no pointer is counted under.
fn freed_by(change: &Change) -> Option<u64>
    ensures { result ≡ freed_by change.now }
{
    match change {
        Change::Entry(entry) if entry.home.count == 0 => Some(entry.home.place),
        _ => None,
    }
}

/// Appends the place that a record releases. The error is want of memory.
fn release(places: &mut PlaceList, change: &Change) -> Result<(), AllocError>
    ensures { OnOk result (places.new.items ≡ places.old.items ++ freed_in (change.now ∷ [])) }
{
    if let Some(place) = freed_by(change) {
        places.reserve(1)?;
        places.push(place);
    }
    Ok(())
}
