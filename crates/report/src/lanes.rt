ghost use Rattle.std.specs.Prelude.{map};
ghost use Rattle.std.specs.List.{flat_map};
ghost use Rattle.pool_model.specs.Plain.{lane_told};
ghost use Rattle.pool_model.specs.Mirrors.{task_of};
ghost use Rattle.pool_model.specs.Text.{lane_text};
ghost use Rattle.report.specs.Writes.{Wrote};

use crate::commands::write_command;
use io_model::{Failed, Sink};
use pool_model::{Command, LaneNote};

/// Writes a lane's commands with their answers, in the lane's order.
fn write_lane<W: Sink>(out: &mut W, commands: &[Command], note: &LaneNote) -> Result<(), Failed>
    ensures { Wrote (W.written out.old) (W.written out.new) (W.faults out.old) (W.faults out.new)
        (lane_text (map task_of commands.now) (lane_told note.now)) result }
{
    let mut answers = note.answers.as_slice();
    'commands: for command in commands {
        if command.lane == note.lane {
            let Some((answer, others)) = answers.split_first() else {
                return Ok(());
            };
            write_command(out, command, answer)?;
            answers = others;
        }
    }
    Ok(())
}

/// Writes the lanes' commands with their answers, lane by lane.
pub(crate) fn write_lanes<W: Sink>(
    out: &mut W,
    commands: &[Command],
    notes: &[LaneNote],
) -> Result<(), Failed>
    ensures { Wrote (W.written out.old) (W.written out.new) (W.faults out.old) (W.faults out.new)
        (flat_map (lane_text (map task_of commands.now)) (map lane_told notes.now)) result }
{
    'lanes: for note in notes {
        write_lane(out, commands, note)?;
    }
    Ok(())
}
