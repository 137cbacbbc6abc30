// Which frames are accepted.
#![tactic(auto)]

ghost use Rattle.std.specs.Prelude.{◌≡◌, ◌≤◌};
ghost use Rattle.rules.specs.Graphs.{limits};
ghost use Rattle.settings.specs.Settings.{settings, checked};
ghost use Rattle.decoding.specs.Frames.{frame_lent};
ghost use Rattle.decoding.specs.Decoding.{Accepts, decode_judged, enough};

use decoding::{Frame, Room};
use refusals::Refusal;
use settings::Settings;

// Whether lent memory of these lengths is long enough for n variables and e entries.
pub fn long_enough(n: usize, e: usize, room: Room) -> bool
    requires { n ≤ limits.variables }
    ensures { result ≡ enough n e room }
{
    (n <= room.levels)
        & ((e <= room.variable_messages)
            & ((e <= room.check_messages) & ((4 * n <= room.sums) & (n <= room.bits))))
}

// The settings of a frame on a graph that is in order, or why it is turned down where memory of these lengths is lent.
pub fn accept_on(frame: Frame, room: Room) -> Result<Settings, Refusal>
    requires { frame.graph.variables ≤ limits.variables }
    ensures { result ≡ checked (decode_judged (frame_lent frame.entry) (Ok tt) room) (settings frame.entry.asked) }
{
    let count = frame.values.len() / 4;
    if count != frame.graph.variables {
        return Err(Refusal::Length(count));
    }
    let settings = channel::check_settings(frame.asked)?;
    quantiser::check_values(frame.values)?;
    let blank = quantiser::is_blank(frame.values, settings.factor);
    let enough = long_enough(frame.graph.variables, frame.graph.entries(), room);
    if blank {
        return Err(Refusal::Blank);
    }
    if !enough {
        return Err(Refusal::Buffer);
    }
    Ok(settings)
}

// The settings of a frame, or why it is turned down where memory of these lengths is lent; counts the variables' degrees in the lent list.
pub fn accept(frame: Frame, degrees: &mut [u8], room: Room) -> Result<Settings, Refusal>
    ensures { Accepts (frame_lent frame.entry) room result degrees.old degrees.new }
{
    graph::check(frame.graph, degrees)?;
    accept_on(frame, room)
}
