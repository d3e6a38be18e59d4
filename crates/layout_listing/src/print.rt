// The lines of a layout's listing, printed into a buffer. Each function gives the place after what it wrote.
ghost use Rattle.std.specs.Prelude.{◌+◌, ◌*◌, ◌-◌, ◌≤◌, ◌<◌, ◌≡◌, [], ◌∷◌, length};
ghost use Rattle.text.specs.Characters.{space};
ghost use Rattle.grid.specs.Flat.{code_alignment, code_section, columns_of_array};
ghost use Rattle.grid.specs.Listing.{alignment_letter, section_letter, numbered, column_line, row_line};
ghost use Rattle.printing.specs.Printing.{Put, Prints};
ghost use Rattle.layout_listing.specs.Printing.{rows_of_array, inner_height, cells_printed, table_printed};

use grid::{GridTableSection, TableAlignment};
use layout::LayoutSizes;
use printing::{byte, cell_line, entry, numbers, words};

fn letter(sign: u8, out: &mut [u8], at: usize) -> usize
    requires { at + 2 ≤ length out.old }
    ensures { Put 2 out.old out.new at result (space ∷ sign ∷ []) }
{
    let end = byte(b' ', out, at);
    byte(sign, out, end)
}

// The alignment with a code; none where no alignment has it.
fn alignment_of(code: usize) -> TableAlignment
    requires { code < 65536 }
    ensures { result ≡ code_alignment code }
{
    TableAlignment::try_from(code as u16).unwrap_or(TableAlignment::None)
}

fn alignment_letter(alignment: TableAlignment) -> u8
    ensures { result ∷ [] ≡ alignment_letter alignment }
{
    match alignment {
        TableAlignment::None => b'N',
        TableAlignment::Left => b'L',
        TableAlignment::Right => b'R',
        TableAlignment::Center => b'C',
    }
}

// The section with a code; Body where no section has it.
fn section_of(code: usize) -> GridTableSection
    ensures { result ≡ code_section code }
{
    match code {
        0 => GridTableSection::Head,
        2 => GridTableSection::Foot,
        _ => GridTableSection::Body,
    }
}

fn section_letter(section: GridTableSection) -> u8
    ensures { result ∷ [] ≡ section_letter section }
{
    match section {
        GridTableSection::Head => b'H',
        GridTableSection::Body => b'B',
        GridTableSection::Foot => b'F',
    }
}

fn column_line(
    index: usize,
    alignment: TableAlignment,
    width: usize,
    out: &mut [u8],
    at: usize,
) -> usize
    requires { at + 48 ≤ length out.old }
    ensures { Put 48 out.old out.new at result (column_line index (record { alignment = alignment; width = width })) }
{
    let values = [index, width];
    let end = words(b"col", &values, out, at);
    let end = letter(alignment_letter(alignment), out, end);
    byte(b'\n', out, end)
}

fn row_line(
    index: usize,
    section: GridTableSection,
    top: usize,
    bottom: usize,
    out: &mut [u8],
    at: usize,
) -> usize
    requires { at + 69 ≤ length out.old }
    ensures { Put 69 out.old out.new at result (row_line index (record { section = section; top = top; bottom = bottom })) }
{
    let first = [index];
    let end = words(b"row", &first, out, at);
    let end = letter(section_letter(section), out, end);
    let values = [top, bottom];
    let end = numbers(&values, out, end);
    byte(b'\n', out, end)
}

fn column_lines(cols: &[u16], count: usize, out: &mut [u8], at: usize) -> usize
    requires count_bound { count ≤ 127 }
    requires count_in_bounds { at + 48 * count ≤ length out.old }
    ensures { Put (48 * count) out.old out.new at result (numbered column_line 0 (columns_of_array count cols.now)) }
{
    let mut end = at;
    for i in 0..count {
        let alignment = alignment_of(entry(cols, 2 * i));
        end = column_line(i, alignment, entry(cols, 2 * i + 1), out, end);
    }
    end
}

fn row_lines(rows: &[u16], count: usize, out: &mut [u8], at: usize) -> usize
    requires count_bound { count ≤ 127 }
    requires count_in_bounds { at + 69 * count ≤ length out.old }
    ensures { Put (69 * count) out.old out.new at result (numbered row_line 0 (rows_of_array count rows.now)) }
{
    let mut end = at;
    for i in 0..count {
        end = row_line(
            i,
            section_of(entry(rows, 3 * i)),
            entry(rows, 3 * i + 1),
            entry(rows, 3 * i + 2),
            out,
            end,
        );
    }
    end
}

// The lines strictly between the borders of a cell: from its first row's top to its last row's bottom.
fn inner_lines(rows: &[u16], row: usize, rowspan: usize) -> usize
    requires { (row < 65536) × (rowspan < 65536) }
    ensures { result ≡ inner_height rows.now row rowspan }
{
    let top = entry(rows, 3 * row + 1);
    let bottom = entry(rows, (3 * (row + rowspan)).saturating_sub(1));
    bottom.saturating_sub(top).saturating_sub(1)
}

fn cell_lines(rows: &[u16], cells: &[u16], count: usize, out: &mut [u8], at: usize) -> usize
    requires count_bound { count ≤ 1024 }
    requires count_in_bounds { at + 110 * count ≤ length out.old }
    ensures { Put (110 * count) out.old out.new at result (cells_printed count rows.now cells.now) }
{
    let mut end = at;
    for i in 0..count {
        let row = entry(cells, 5 * i);
        let rowspan = entry(cells, 5 * i + 3);
        let inner = inner_lines(rows, row, rowspan);
        end = cell_line(cells, i, inner, out, end);
    }
    end
}

// The listing of a layout of these sizes, of a drawing of so many lines.
pub fn table(
    sizes: LayoutSizes,
    height: usize,
    cols: &[u16],
    rows: &[u16],
    cells: &[u16],
    out: &mut [u8],
) -> usize
    requires { (sizes.columns ≤ 127) × (sizes.rows ≤ 127) × (sizes.cells ≤ 1024) × (131072 ≤ length out.old) }
    ensures { let printed = table_printed sizes.width.0 height sizes.columns sizes.rows sizes.cells cols.now rows.now cells.now in
        Prints out.new result printed }
{
    let LayoutSizes {
        width,
        columns,
        rows: down,
        cells: count,
        ranges: _,
    } = sizes;
    let numbers = [width.0, height, columns, down, count];
    let end = words(b"grid", &numbers, out, 0);
    let end = byte(b'\n', out, end);
    let end = column_lines(cols, columns, out, end);
    let end = row_lines(rows, down, out, end);
    cell_lines(rows, cells, count, out, end)
}
