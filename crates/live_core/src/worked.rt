//! Worked examples of the definitions.
ghost use Rattle.live_core.specs.Worked.{WorkedLanes, WorkedSteps};

/// Each row of the table of steps, and two lanes at one key, computed by the definitions. It does nothing.
pub(crate) fn worked_steps()
    ensures steps { WorkedSteps }
    ensures lanes { WorkedLanes }
{}
