// The entries of `host::runs`.
ghost use Rattle.std.specs.Prelude.{length};
ghost use Rattle.rules.specs.Graphs.{limits};
ghost use Rattle.words.specs.Roles.{graph_of};
ghost use Rattle.graphs.specs.Judging.{graph_judged_in};
ghost use Rattle.decoding.specs.Frames.{frame, memory};
ghost use Rattle.pausing.specs.Pausing.{asked};
ghost use Rattle.interface.specs.Packing.{scaling_of, asked_of, place_of, decode_place, TellsPlace};
ghost use Rattle.interface.specs.Runs.{HostBegins, HostAdvances, unscaled_of};

use decoding::Frame;
use pausing::Unscaled;
use settings::Parameters;
use words::Graph;

#[unsafe(no_mangle)]
pub extern "C" fn frame_begin(
    n: usize,
    starts: &[u8],
    columns: &[u8],
    values: &[u8],
    kind: u32,
    gain: f32,
    variance: f32,
    channel: u32,
    message: u32,
    phi_s: u32,
    phi_a: u32,
    phi_0: u32,
    limit: u32,
    lift_from: u32,
    lift_to: u32,
    degrees: &mut [u8],
    levels: &mut [u8],
    variable_messages: &mut [u8],
    check_messages: &mut [u8],
    sums: &mut [u8],
    bits: &mut [u8],
) -> u64
    ensures { HostBegins (frame n starts.now columns.now values.now (asked_of (scaling_of kind gain variance) channel message phi_s phi_a phi_0 limit lift_from lift_to)) (memory levels.old variable_messages.old check_messages.old sums.old bits.old) (memory levels.new variable_messages.new check_messages.new sums.new bits.new) degrees.old degrees.new result }
{
    let graph = Graph {
        variables: n,
        starts,
        columns,
    };
    let asked = Parameters {
        scaling: packing::scaling_of(kind, gain, variance),
        channel,
        message,
        phi_s,
        phi_a,
        phi_0,
        limit,
        lift_from,
        lift_to,
    };
    let frame = Frame {
        graph,
        values,
        asked,
    };
    host::runs::frame_begin(
        frame,
        degrees,
        levels,
        variable_messages,
        check_messages,
        sums,
        bits,
    )
}

#[unsafe(no_mangle)]
pub extern "C" fn frame_begin_place(
    n: usize,
    starts: &[u8],
    columns: &[u8],
    values: &[u8],
    refusal: u32,
    degrees: &mut [u8],
) -> usize
    ensures { TellsPlace (graph_of n starts.now columns.now) (decode_place (graph_of n starts.now columns.now) values.now (length degrees.old) refusal) degrees.old degrees.new result }
{
    let graph = Graph {
        variables: n,
        starts,
        columns,
    };
    host::runs::frame_begin_place(graph, values, refusal, degrees)
}

#[unsafe(no_mangle)]
pub extern "C" fn frame_advance(
    record: u64,
    n: usize,
    starts: &[u8],
    columns: &[u8],
    channel: u32,
    message: u32,
    phi_s: u32,
    phi_a: u32,
    phi_0: u32,
    limit: u32,
    lift_from: u32,
    lift_to: u32,
    count: u32,
    degrees: &mut [u8],
    levels: &[u8],
    variable_messages: &mut [u8],
    check_messages: &mut [u8],
    sums: &mut [u8],
    bits: &mut [u8],
) -> u64
    ensures { HostAdvances (asked n starts.now columns.now (unscaled_of channel message phi_s phi_a phi_0 limit lift_from lift_to) count) «record» (memory levels.now variable_messages.old check_messages.old sums.old bits.old) (memory levels.now variable_messages.new check_messages.new sums.new bits.new) degrees.old degrees.new result }
{
    let graph = Graph {
        variables: n,
        starts,
        columns,
    };
    let settings = Unscaled {
        channel,
        message,
        phi_s,
        phi_a,
        phi_0,
        limit,
        lift_from,
        lift_to,
    };
    host::runs::frame_advance(
        record,
        graph,
        settings,
        count,
        degrees,
        levels,
        variable_messages,
        check_messages,
        sums,
        bits,
    )
}

#[unsafe(no_mangle)]
pub extern "C" fn frame_advance_place(
    n: usize,
    starts: &[u8],
    columns: &[u8],
    degrees: &mut [u8],
) -> usize
    ensures { TellsPlace (graph_of n starts.now columns.now) (place_of (graph_judged_in limits (graph_of n starts.now columns.now) (length degrees.old))) degrees.old degrees.new result }
{
    let graph = Graph {
        variables: n,
        starts,
        columns,
    };
    host::runs::frame_advance_place(graph, degrees)
}
