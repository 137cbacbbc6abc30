// The entries of `host::sheets`.
ghost use Rattle.std.specs.Prelude.{length};
ghost use Rattle.words.specs.Roles.{graph_of};
ghost use Rattle.code_sheets.specs.Writer.Writing.{write_finds};
ghost use Rattle.block_sheets.specs.Writer.Writing.{blocks_given};
ghost use Rattle.interface.specs.Packing.{place_of, HostReads, HostWrites, TellsPlace, TellsLine};
ghost use Rattle.interface.specs.Blocks.{HostReadsBlocks, TellsBlocksLine, HostWritesBlocks, TellsBlocksPlace};

use block_sheets::Blocks;
use words::Graph;

#[unsafe(no_mangle)]
pub extern "C" fn frame_read_sheet(
    text: &[u8],
    degrees: &mut [u8],
    starts: &mut [u8],
    columns: &mut [u8],
) -> u64
    ensures { HostReads text.now degrees.old degrees.new starts.old starts.new columns.old columns.new result }
{
    host::sheets::frame_read_sheet(text, degrees, starts, columns)
}

#[unsafe(no_mangle)]
pub extern "C" fn frame_read_sheet_place(
    text: &[u8],
    degrees: &mut [u8],
    starts: usize,
    columns: usize,
) -> usize
    ensures { TellsLine text.now degrees.old degrees.new starts columns result }
{
    host::sheets::frame_read_sheet_place(text, degrees, starts, columns)
}

#[unsafe(no_mangle)]
pub extern "C" fn frame_write_sheet(
    n: usize,
    starts: &[u8],
    columns: &[u8],
    degrees: &mut [u8],
    text: &mut [u8],
) -> u64
    ensures { HostWrites (graph_of n starts.now columns.now) degrees.old degrees.new text.old text.new result }
{
    let graph = Graph {
        variables: n,
        starts,
        columns,
    };
    host::sheets::frame_write_sheet(graph, degrees, text)
}

#[unsafe(no_mangle)]
pub extern "C" fn frame_write_sheet_place(
    n: usize,
    starts: &[u8],
    columns: &[u8],
    degrees: &mut [u8],
    text: usize,
) -> usize
    ensures { TellsPlace (graph_of n starts.now columns.now) (place_of (write_finds (graph_of n starts.now columns.now) (length degrees.old) text)) degrees.old degrees.new result }
{
    let graph = Graph {
        variables: n,
        starts,
        columns,
    };
    host::sheets::frame_write_sheet_place(graph, degrees, text)
}

#[unsafe(no_mangle)]
pub extern "C" fn frame_read_blocks(
    text: &[u8],
    degrees: &mut [u8],
    starts: &mut [u8],
    columns: &mut [u8],
) -> u64
    ensures { HostReadsBlocks text.now degrees.old degrees.new starts.old starts.new columns.old columns.new result }
{
    host::sheets::frame_read_blocks(text, degrees, starts, columns)
}

#[unsafe(no_mangle)]
pub extern "C" fn frame_read_blocks_place(
    text: &[u8],
    degrees: &mut [u8],
    starts: usize,
    columns: usize,
) -> usize
    ensures { TellsBlocksLine text.now degrees.old degrees.new starts columns result }
{
    host::sheets::frame_read_blocks_place(text, degrees, starts, columns)
}

#[unsafe(no_mangle)]
pub extern "C" fn frame_write_blocks(
    size: usize,
    rows: usize,
    columns: usize,
    entries: &[u8],
    degrees: &mut [u8],
    text: &mut [u8],
) -> u64
    ensures { HostWritesBlocks (blocks_given size rows columns entries.now) degrees.old degrees.new text.old text.new result }
{
    let blocks = Blocks {
        size,
        rows,
        columns,
        entries,
    };
    host::sheets::frame_write_blocks(blocks, degrees, text)
}

#[unsafe(no_mangle)]
pub extern "C" fn frame_write_blocks_place(
    size: usize,
    rows: usize,
    columns: usize,
    entries: &[u8],
    degrees: &mut [u8],
    text: usize,
) -> usize
    ensures { TellsBlocksPlace (blocks_given size rows columns entries.now) degrees.old degrees.new text result }
{
    let blocks = Blocks {
        size,
        rows,
        columns,
        entries,
    };
    host::sheets::frame_write_blocks_place(blocks, degrees, text)
}
