// The calls of the writing side.
ghost use Rattle.words.specs.Roles.{graph_lent};
ghost use Rattle.interface.specs.Encoding.{HostEncodes, TellsEncodePlace};

use words::Graph;

// Gives the codeword that holds given bits.
pub fn frame_encode(
    graph: Graph<'_>,
    positions: &[u8],
    given: &[u8],
    degrees: &mut [u8],
    codeword: &mut [u8],
    work: &mut [u8],
) -> u64
    ensures { HostEncodes (graph_lent graph.entry) positions.now given.now degrees.old degrees.new codeword.old codeword.new work.old work.new result }
{
    packing::encoding::number_of(encoder::encode(graph, positions, given, degrees, codeword, work))
}

// The place of what `frame_encode` refuses, 0 where it refuses nothing.
pub fn frame_encode_place(
    graph: Graph<'_>,
    positions: &[u8],
    given: &[u8],
    degrees: &mut [u8],
) -> usize
    ensures { TellsEncodePlace (graph_lent graph.entry) positions.now given.now degrees.old degrees.new result }
{
    packing::place_of(encoder::judge(graph, positions, given, degrees))
}
