// The library for C: each entry of `host` under its name in frame.h, on numbers and lists, with its promise said of these.
#![tactic(auto)]

ghost use Rattle.std.specs.Prelude.{length};
ghost use Rattle.words.specs.Roles.{graph_of};
ghost use Rattle.decoding.specs.Frames.{frame, memory};
ghost use Rattle.interface.specs.Packing.{scaling_of, asked_of, decode_place, HostDecodes, TellsPlace};

use decoding::Frame;
use settings::Parameters;
use words::Graph;

mod sheets; // code sheets
mod encoding; // the writing side
mod runs; // a run that pauses
mod pairs; // two heads

#[unsafe(no_mangle)]
pub extern "C" fn frame_decode(
    n: usize,
    starts: &[u8],
    columns: &[u8],
    values: &[u8],
    kind: u32,
    gain: f32,
    variance: f32,
    channel: u32,
    message: u32,
    phi_s: u32,
    phi_a: u32,
    phi_0: u32,
    limit: u32,
    lift_from: u32,
    lift_to: u32,
    degrees: &mut [u8],
    levels: &mut [u8],
    variable_messages: &mut [u8],
    check_messages: &mut [u8],
    sums: &mut [u8],
    bits: &mut [u8],
) -> u64
    ensures { HostDecodes (frame n starts.now columns.now values.now (asked_of (scaling_of kind gain variance) channel message phi_s phi_a phi_0 limit lift_from lift_to)) (memory levels.old variable_messages.old check_messages.old sums.old bits.old) (memory levels.new variable_messages.new check_messages.new sums.new bits.new) degrees.old degrees.new result }
{
    let graph = Graph {
        variables: n,
        starts,
        columns,
    };
    let asked = Parameters {
        scaling: packing::scaling_of(kind, gain, variance),
        channel,
        message,
        phi_s,
        phi_a,
        phi_0,
        limit,
        lift_from,
        lift_to,
    };
    let frame = Frame {
        graph,
        values,
        asked,
    };
    host::frame_decode(
        frame,
        degrees,
        levels,
        variable_messages,
        check_messages,
        sums,
        bits,
    )
}

#[unsafe(no_mangle)]
pub extern "C" fn frame_decode_place(
    n: usize,
    starts: &[u8],
    columns: &[u8],
    values: &[u8],
    refusal: u32,
    degrees: &mut [u8],
) -> usize
    ensures { TellsPlace (graph_of n starts.now columns.now) (decode_place (graph_of n starts.now columns.now) values.now (length degrees.old) refusal) degrees.old degrees.new result }
{
    let graph = Graph {
        variables: n,
        starts,
        columns,
    };
    host::frame_decode_place(graph, values, refusal, degrees)
}
