// The calls of the scanner's host: each a call of the library, its answer packed into one number. `host_c` has them for C.
#![tactic(auto)]

ghost use Rattle.std.specs.Prelude.{length};
ghost use Rattle.words.specs.Roles.{graph_lent};
ghost use Rattle.decoding.specs.Frames.{frame_lent, memory};
ghost use Rattle.interface.specs.Packing.{decode_place, HostDecodes, TellsPlace};

use decoding::{Frame, Room};
use settings::{Parameters, Scaling};
use words::Graph;

pub mod sheets; // code sheets
pub mod encoding; // the writing side
pub mod runs; // a run that pauses
pub mod pairs; // two heads

// Decodes a frame. The answer's lowest byte is the refusal's number, 0 where nothing is refused.
pub fn frame_decode(
    frame: Frame<'_>,
    degrees: &mut [u8],
    levels: &mut [u8],
    variable_messages: &mut [u8],
    check_messages: &mut [u8],
    sums: &mut [u8],
    bits: &mut [u8],
) -> u64
    ensures { HostDecodes (frame_lent frame.entry) (memory levels.old variable_messages.old check_messages.old sums.old bits.old) (memory levels.new variable_messages.new check_messages.new sums.new bits.new) degrees.old degrees.new result }
{
    let answer = decoder::decode(
        frame,
        degrees,
        levels,
        variable_messages,
        check_messages,
        sums,
        bits,
    );
    packing::pack_decoded(answer)
}

// The place of what `frame_decode` refuses of this graph, with this list of degrees, and these values, where its number is `refusal`; 0 where
// that is 0. Asked with settings that are in order and memory enough for every graph, decode refuses, beside
// the graph's, 13 and 12, only a blank frame, whose place is 0.
pub fn frame_decode_place(
    graph: Graph<'_>,
    values: &[u8],
    refusal: u32,
    degrees: &mut [u8],
) -> usize
    ensures { TellsPlace (graph_lent graph.entry) (decode_place (graph_lent graph.entry) values.now (length degrees.old) refusal) degrees.old degrees.new result }
{
    let asked = Parameters {
        scaling: Scaling::Plain(1.0),
        channel: 3,
        message: 3,
        phi_s: 0,
        phi_a: 0,
        phi_0: 0,
        limit: 0,
        lift_from: channel::NEVER,
        lift_to: channel::LARGEST_LIFT,
    };
    let room = Room {
        levels: rules::MOST_VARIABLES,
        variable_messages: rules::MOST_ENTRIES,
        check_messages: rules::MOST_ENTRIES,
        sums: 4 * rules::MOST_VARIABLES,
        bits: rules::MOST_VARIABLES,
    };
    let frame = Frame {
        graph,
        values,
        asked,
    };
    if let Err(refused) = accepting::accept(frame, degrees, room) {
        let k = refused.numbered();
        if k.number as u32 == refusal {
            return k.place;
        }
    }
    0
}
