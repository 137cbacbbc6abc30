// The entries of `host::encoding`.
ghost use Rattle.words.specs.Roles.{graph_of};
ghost use Rattle.interface.specs.Encoding.{HostEncodes, TellsEncodePlace};

use words::Graph;

#[unsafe(no_mangle)]
pub extern "C" fn frame_encode(
    n: usize,
    starts: &[u8],
    columns: &[u8],
    positions: &[u8],
    given: &[u8],
    degrees: &mut [u8],
    codeword: &mut [u8],
    work: &mut [u8],
) -> u64
    ensures { HostEncodes (graph_of n starts.now columns.now) positions.now given.now degrees.old degrees.new codeword.old codeword.new work.old work.new result }
{
    let graph = Graph {
        variables: n,
        starts,
        columns,
    };
    host::encoding::frame_encode(graph, positions, given, degrees, codeword, work)
}

#[unsafe(no_mangle)]
pub extern "C" fn frame_encode_place(
    n: usize,
    starts: &[u8],
    columns: &[u8],
    positions: &[u8],
    given: &[u8],
    degrees: &mut [u8],
) -> usize
    ensures { TellsEncodePlace (graph_of n starts.now columns.now) positions.now given.now degrees.old degrees.new result }
{
    let graph = Graph {
        variables: n,
        starts,
        columns,
    };
    host::encoding::frame_encode_place(graph, positions, given, degrees)
}
