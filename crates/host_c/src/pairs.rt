// The entries of `host::pairs`.
ghost use Rattle.std.specs.Prelude.{length};
ghost use Rattle.words.specs.Roles.{graph_of};
ghost use Rattle.decoding.specs.Frames.{memory};
ghost use Rattle.decoding.specs.Pairing.Pairs.{heads};
ghost use Rattle.interface.specs.Packing.{scaling_of, asked_of, TellsPlace};
ghost use Rattle.interface.specs.Pairs.{pair_place, HostDecodesPair};

use decoding::{Head, Heads};
use settings::Parameters;
use words::Graph;

#[unsafe(no_mangle)]
pub extern "C" fn frame_decode_pair(
    n: usize,
    starts: &[u8],
    columns: &[u8],
    allowance: u32,
    first_values: &[u8],
    first_kind: u32,
    first_gain: f32,
    first_variance: f32,
    first_channel: u32,
    first_message: u32,
    first_phi_s: u32,
    first_phi_a: u32,
    first_phi_0: u32,
    first_limit: u32,
    first_lift_from: u32,
    first_lift_to: u32,
    second_values: &[u8],
    second_kind: u32,
    second_gain: f32,
    second_variance: f32,
    second_channel: u32,
    second_message: u32,
    second_phi_s: u32,
    second_phi_a: u32,
    second_phi_0: u32,
    second_limit: u32,
    second_lift_from: u32,
    second_lift_to: u32,
    degrees: &mut [u8],
    first_levels: &mut [u8],
    first_variable_messages: &mut [u8],
    first_check_messages: &mut [u8],
    first_sums: &mut [u8],
    first_bits: &mut [u8],
    second_levels: &mut [u8],
    second_variable_messages: &mut [u8],
    second_check_messages: &mut [u8],
    second_sums: &mut [u8],
    second_bits: &mut [u8],
    reports: &mut [u8],
) -> u64
    ensures { HostDecodesPair (heads n starts.now columns.now allowance first_values.now (asked_of (scaling_of first_kind first_gain first_variance) first_channel first_message first_phi_s first_phi_a first_phi_0 first_limit first_lift_from first_lift_to) second_values.now (asked_of (scaling_of second_kind second_gain second_variance) second_channel second_message second_phi_s second_phi_a second_phi_0 second_limit second_lift_from second_lift_to)) (memory first_levels.old first_variable_messages.old first_check_messages.old first_sums.old first_bits.old) (memory first_levels.new first_variable_messages.new first_check_messages.new first_sums.new first_bits.new) (memory second_levels.old second_variable_messages.old second_check_messages.old second_sums.old second_bits.old) (memory second_levels.new second_variable_messages.new second_check_messages.new second_sums.new second_bits.new) degrees.old degrees.new reports.old reports.new result }
{
    let graph = Graph {
        variables: n,
        starts,
        columns,
    };
    let first = Head {
        values: first_values,
        asked: Parameters {
            scaling: packing::scaling_of(first_kind, first_gain, first_variance),
            channel: first_channel,
            message: first_message,
            phi_s: first_phi_s,
            phi_a: first_phi_a,
            phi_0: first_phi_0,
            limit: first_limit,
            lift_from: first_lift_from,
            lift_to: first_lift_to,
        },
    };
    let second = Head {
        values: second_values,
        asked: Parameters {
            scaling: packing::scaling_of(second_kind, second_gain, second_variance),
            channel: second_channel,
            message: second_message,
            phi_s: second_phi_s,
            phi_a: second_phi_a,
            phi_0: second_phi_0,
            limit: second_limit,
            lift_from: second_lift_from,
            lift_to: second_lift_to,
        },
    };
    let heads = Heads {
        graph,
        allowance,
        first,
        second,
    };
    host::pairs::frame_decode_pair(
        heads,
        degrees,
        first_levels,
        first_variable_messages,
        first_check_messages,
        first_sums,
        first_bits,
        second_levels,
        second_variable_messages,
        second_check_messages,
        second_sums,
        second_bits,
        reports,
    )
}

#[unsafe(no_mangle)]
pub extern "C" fn frame_decode_pair_place(
    n: usize,
    starts: &[u8],
    columns: &[u8],
    first_values: &[u8],
    second_values: &[u8],
    answer: u64,
    degrees: &mut [u8],
) -> usize
    ensures { TellsPlace (graph_of n starts.now columns.now) (pair_place (graph_of n starts.now columns.now) first_values.now second_values.now (length degrees.old) answer) degrees.old degrees.new result }
{
    let graph = Graph {
        variables: n,
        starts,
        columns,
    };
    host::pairs::frame_decode_pair_place(graph, first_values, second_values, answer, degrees)
}
