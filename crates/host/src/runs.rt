// The calls for a run that pauses. The record is the answer itself.
ghost use Rattle.std.specs.Prelude.{length};
ghost use Rattle.rules.specs.Graphs.{limits};
ghost use Rattle.words.specs.Roles.{graph_lent};
ghost use Rattle.graphs.specs.Judging.{graph_judged_in};
ghost use Rattle.decoding.specs.Frames.{frame_lent, memory};
ghost use Rattle.pausing.specs.Pausing.{asked_lent};
ghost use Rattle.interface.specs.Packing.{place_of, decode_place, TellsPlace};
ghost use Rattle.interface.specs.Runs.{HostBegins, HostAdvances};

use decoding::Frame;
use pausing::Unscaled;
use words::Graph;

// Begins a run. The answer's lowest byte is the refusal's number, 0 where nothing is refused; then the answer is the record.
pub fn frame_begin(
    frame: Frame<'_>,
    degrees: &mut [u8],
    levels: &mut [u8],
    variable_messages: &mut [u8],
    check_messages: &mut [u8],
    sums: &mut [u8],
    bits: &mut [u8],
) -> u64
    ensures { HostBegins (frame_lent frame.entry) (memory levels.old variable_messages.old check_messages.old sums.old bits.old) (memory levels.new variable_messages.new check_messages.new sums.new bits.new) degrees.old degrees.new result }
{
    let answer = pausing::begin(
        frame,
        degrees,
        levels,
        variable_messages,
        check_messages,
        sums,
        bits,
    );
    packing::runs::pack_begun(answer)
}

// The place of what `frame_begin` refuses: decode's.
pub fn frame_begin_place(graph: Graph<'_>, values: &[u8], refusal: u32, degrees: &mut [u8]) -> usize
    ensures { TellsPlace (graph_lent graph.entry) (decode_place (graph_lent graph.entry) values.now (length degrees.old) refusal) degrees.old degrees.new result }
{
    crate::frame_decode_place(graph, values, refusal, degrees)
}

// Advances a run. The answer's lowest byte is the refusal's number, 0 where nothing is refused; then the answer is the record.
pub fn frame_advance(
    record: u64,
    graph: Graph<'_>,
    settings: Unscaled,
    count: u32,
    degrees: &mut [u8],
    levels: &[u8],
    variable_messages: &mut [u8],
    check_messages: &mut [u8],
    sums: &mut [u8],
    bits: &mut [u8],
) -> u64
    ensures { HostAdvances (asked_lent graph.entry settings count) «record» (memory levels.now variable_messages.old check_messages.old sums.old bits.old) (memory levels.now variable_messages.new check_messages.new sums.new bits.new) degrees.old degrees.new result }
{
    let answer = packing::runs::unpack(record).advance(
        graph,
        settings,
        count,
        degrees,
        levels,
        variable_messages,
        check_messages,
        sums,
        bits,
    );
    packing::runs::pack_advanced(answer)
}

// The place of what `frame_advance` refuses: only the graph's refusals have one.
pub fn frame_advance_place(graph: Graph<'_>, degrees: &mut [u8]) -> usize
    ensures { TellsPlace (graph_lent graph.entry) (place_of (graph_judged_in limits (graph_lent graph.entry) (length degrees.old))) degrees.old degrees.new result }
{
    packing::place_of(graph::check(graph, degrees))
}
