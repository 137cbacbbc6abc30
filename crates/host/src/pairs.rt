// The calls for two heads with one allowance.
ghost use Rattle.std.specs.Prelude.{length};
ghost use Rattle.words.specs.Roles.{graph_lent};
ghost use Rattle.decoding.specs.Frames.{memory};
ghost use Rattle.decoding.specs.Pairing.Pairs.{heads_lent};
ghost use Rattle.interface.specs.Packing.{TellsPlace};
ghost use Rattle.interface.specs.Pairs.{pair_place, HostDecodesPair};

use decoding::{Heads, Room};
use words::Graph;

// The length of the list of reports.
const REPORTS: usize = 16;

// Decodes the frames of two heads. The answer's lowest byte is the refusal's number, 0 where nothing is refused, and the next says whose it is: 1 and 2 for
// the heads, 0 for neither's.
pub fn frame_decode_pair(
    heads: Heads<'_>,
    degrees: &mut [u8],
    first_levels: &mut [u8],
    first_variable_messages: &mut [u8],
    first_check_messages: &mut [u8],
    first_sums: &mut [u8],
    first_bits: &mut [u8],
    second_levels: &mut [u8],
    second_variable_messages: &mut [u8],
    second_check_messages: &mut [u8],
    second_sums: &mut [u8],
    second_bits: &mut [u8],
    reports: &mut [u8],
) -> u64
    ensures { HostDecodesPair (heads_lent heads.entry) (memory first_levels.old first_variable_messages.old first_check_messages.old first_sums.old first_bits.old) (memory first_levels.new first_variable_messages.new first_check_messages.new first_sums.new first_bits.new) (memory second_levels.old second_variable_messages.old second_check_messages.old second_sums.old second_bits.old) (memory second_levels.new second_variable_messages.new second_check_messages.new second_sums.new second_bits.new) degrees.old degrees.new reports.old reports.new result }
{
    if reports.len() < REPORTS {
        let first_room = Room {
            levels: first_levels.len(),
            variable_messages: first_variable_messages.len(),
            check_messages: first_check_messages.len(),
            sums: first_sums.len(),
            bits: first_bits.len(),
        };
        let second_room = Room {
            levels: second_levels.len(),
            variable_messages: second_variable_messages.len(),
            check_messages: second_check_messages.len(),
            sums: second_sums.len(),
            bits: second_bits.len(),
        };
        return reporting::refuse_short(heads, degrees, first_room, second_room);
    }
    reporting::decode_reported(
        heads,
        degrees,
        first_levels,
        first_variable_messages,
        first_check_messages,
        first_sums,
        first_bits,
        second_levels,
        second_variable_messages,
        second_check_messages,
        second_sums,
        second_bits,
        reports,
    )
}

// The place of what `frame_decode_pair` refuses of this graph, with this list of degrees, and of the values of both heads, where it answered `answer`: that of
// the head that is refused.
pub fn frame_decode_pair_place(
    graph: Graph<'_>,
    first_values: &[u8],
    second_values: &[u8],
    answer: u64,
    degrees: &mut [u8],
) -> usize
    ensures { TellsPlace (graph_lent graph.entry) (pair_place (graph_lent graph.entry) first_values.now second_values.now (length degrees.old) answer) degrees.old degrees.new result }
{
    let refusal = (answer % 256) as u32;
    if answer / 256 % 256 == 2 {
        return crate::frame_decode_place(graph, second_values, refusal, degrees);
    }
    crate::frame_decode_place(graph, first_values, refusal, degrees)
}
