// The calls for code sheets.
ghost use Rattle.std.specs.Prelude.{length};
ghost use Rattle.words.specs.Roles.{graph_lent};
ghost use Rattle.code_sheets.specs.Writer.Writing.{write_finds};
ghost use Rattle.block_sheets.specs.Writer.Writing.{blocks_lent};
ghost use Rattle.interface.specs.Packing.{place_of, HostReads, HostWrites, TellsPlace, TellsLine};
ghost use Rattle.interface.specs.Blocks.{HostReadsBlocks, TellsBlocksLine, HostWritesBlocks, TellsBlocksPlace};

use block_sheets::Blocks;
use words::Graph;

// Reads a sheet into the lists of its graph.
pub fn frame_read_sheet(
    text: &[u8],
    degrees: &mut [u8],
    starts: &mut [u8],
    columns: &mut [u8],
) -> u64
    ensures { HostReads text.now degrees.old degrees.new starts.old starts.new columns.old columns.new result }
{
    packing::sheets::pack_read(sheet::read(text, degrees, starts, columns))
}

// The place of what `frame_read_sheet` refuses for lists of these lengths, 0 where it refuses nothing.
pub fn frame_read_sheet_place(
    text: &[u8],
    degrees: &mut [u8],
    starts: usize,
    columns: usize,
) -> usize
    ensures { TellsLine text.now degrees.old degrees.new starts columns result }
{
    packing::place_of(sheet::judge_read(text, degrees, starts, columns))
}

// Writes the sheet of a graph.
pub fn frame_write_sheet(graph: Graph<'_>, degrees: &mut [u8], text: &mut [u8]) -> u64
    ensures { HostWrites (graph_lent graph.entry) degrees.old degrees.new text.old text.new result }
{
    packing::sheets::pack_written(sheet_writer::write(graph, degrees, text))
}

// The place of what `frame_write_sheet` refuses for a text of this length, 0 where it refuses nothing.
pub fn frame_write_sheet_place(graph: Graph<'_>, degrees: &mut [u8], text: usize) -> usize
    ensures { TellsPlace (graph_lent graph.entry) (place_of (write_finds (graph_lent graph.entry) (length degrees.old) text)) degrees.old degrees.new result }
{
    packing::place_of(sheet_writer::judge_write(graph, degrees, text))
}

// ---- block sheets

// Reads a block sheet into the lists of its expansion.
pub fn frame_read_blocks(
    text: &[u8],
    degrees: &mut [u8],
    starts: &mut [u8],
    columns: &mut [u8],
) -> u64
    ensures { HostReadsBlocks text.now degrees.old degrees.new starts.old starts.new columns.old columns.new result }
{
    packing::sheets::pack_read(block_sheet::read(text, degrees, starts, columns))
}

// The place of what `frame_read_blocks` refuses for lists of these lengths, 0 where it refuses nothing.
pub fn frame_read_blocks_place(
    text: &[u8],
    degrees: &mut [u8],
    starts: usize,
    columns: usize,
) -> usize
    ensures { TellsBlocksLine text.now degrees.old degrees.new starts columns result }
{
    packing::place_of(block_sheet::judge_read(text, degrees, starts, columns))
}

// Writes the block sheet of a size, counts and entries.
pub fn frame_write_blocks(blocks: Blocks<'_>, degrees: &mut [u8], text: &mut [u8]) -> u64
    ensures { HostWritesBlocks (blocks_lent blocks.entry) degrees.old degrees.new text.old text.new result }
{
    packing::sheets::pack_written(block_writer::write(blocks, degrees, text))
}

// The place of what `frame_write_blocks` refuses for a text of this length, 0 where it refuses nothing.
pub fn frame_write_blocks_place(blocks: Blocks<'_>, degrees: &mut [u8], text: usize) -> usize
    ensures { TellsBlocksPlace (blocks_lent blocks.entry) degrees.old degrees.new text result }
{
    packing::place_of(block_writer::judge_write(blocks, degrees, text))
}
