ghost use Rattle.pool_model.specs.WorkedRuns.{OneWrite, SharedWrite, TakenSlot, FullQuota, RoomAgain, PrunedByAge, LoosePointer, PrunedByShare, VerifiedBytes, EmptySlot, MixedLanes};
ghost use Rattle.pool_model.specs.WorkedTurns.{WaitingHome, TwoLanes, FailedReads, SpoiltBlock, NoRoom, CutGroup};
ghost use Rattle.pool_model.specs.WorkedTables.{OneChange, SwapByAge, Flushed, GoneKey, FlushedInParts, LimitBefore, SwapWaits, SwapByKeys, LongFlush};
ghost use Rattle.pool_model.specs.WorkedLogs.{ChangedTwice, KeptWhole, ChangedAgain, Exchanged};
ghost use Rattle.pool_model.specs.WorkedFacts.{RefusedFiles, OtherLines, EdgeFile, ReadFiles, Limits, Digests, Needs, Premise, HoldTogether, Contents, Counted, Sorted};
ghost use Rattle.pool_model.specs.WorkedLeft.{LaterHit, TakenUp, NewMoment, NoChange, QuotaFirst, OffLane, OtherLaneOff, ReadsNothing, WaitsAgain, BytesKept, OldestFirst, PlainStays, QuotaByKeys, CutBlock, Ordered, FreePlaces, OtherNotes};

/// Worked runs: for each the items, the notes that a session makes of them, and the bytes of the report.
/// It does nothing: its clauses are the examples, so that no definition that breaks one passes a check.
pub(crate) fn worked_runs()
    ensures one_write { OneWrite }
    ensures shared_write { SharedWrite }
    ensures taken_slot { TakenSlot }
    ensures full_quota { FullQuota }
    ensures room_again { RoomAgain }
    ensures pruned_by_age { PrunedByAge }
    ensures loose_pointer { LoosePointer }
    ensures pruned_by_share { PrunedByShare }
    ensures verified_bytes { VerifiedBytes }
    ensures empty_slot { EmptySlot }
    ensures mixed_lanes { MixedLanes }
    ensures waiting_home { WaitingHome }
    ensures two_lanes { TwoLanes }
    ensures failed_reads { FailedReads }
    ensures spoilt_block { SpoiltBlock }
    ensures no_room { NoRoom }
{}

/// Worked groups, with the pointers and the table that stand after them, which places are free, which notes
/// are none of a run, and what a crash may leave of one that was cut.
pub(crate) fn worked_groups()
    ensures later_hit { LaterHit }
    ensures taken_up { TakenUp }
    ensures new_moment { NewMoment }
    ensures no_change { NoChange }
    ensures quota_first { QuotaFirst }
    ensures off_lane { OffLane }
    ensures other_lane_off { OtherLaneOff }
    ensures reads_nothing { ReadsNothing }
    ensures waits_again { WaitsAgain }
    ensures bytes_kept { BytesKept }
    ensures oldest_first { OldestFirst }
    ensures plain_stays { PlainStays }
    ensures quota_by_keys { QuotaByKeys }
    ensures cut_block { CutBlock }
    ensures ordered { Ordered }
    ensures free_places { FreePlaces }
    ensures other_notes { OtherNotes }
    ensures cut_group { CutGroup }
{}

/// Worked syncs of the dedup table: what is logged, when the logs swap, and what is flushed.
pub(crate) fn worked_tables()
    ensures one_change { OneChange }
    ensures swap_by_age { SwapByAge }
    ensures flushed { Flushed }
    ensures gone_key { GoneKey }
    ensures flushed_in_parts { FlushedInParts }
    ensures limit_before { LimitBefore }
    ensures swap_waits { SwapWaits }
    ensures swap_by_keys { SwapByKeys }
    ensures long_flush { LongFlush }
{}

/// Worked syncs of the logs as they are kept: a key that stands twice, a log that is flushed in parts, and a swap.
pub(crate) fn worked_logs()
    ensures changed_twice { ChangedTwice }
    ensures kept_whole { KeptWhole }
    ensures changed_again { ChangedAgain }
    ensures exchanged { Exchanged }
{}

/// Worked facts beside the runs: which files are read and refused, digests, room, the premise on digests, and which
/// pools and tables hold together.
pub(crate) fn worked_facts()
    ensures refused_files { RefusedFiles }
    ensures other_lines { OtherLines }
    ensures edge_file { EdgeFile }
    ensures read_files { ReadFiles }
    ensures limits { Limits }
    ensures digests { Digests }
    ensures needs { Needs }
    ensures premise { Premise }
    ensures hold_together { HoldTogether }
    ensures contents { Contents }
    ensures counted { Counted }
    ensures sorted { Sorted }
{}
