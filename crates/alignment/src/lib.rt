// The corners on the alignment line, beside which colons stand (grid_table.rs: format_grid_table), and
// refusals 9 and 10.
#![tactic(auto)]

ghost use Rattle.std.specs.Prelude.{◌*◌, ◌≤◌, ◌≡◌, map, eqb, length};
ghost use Rattle.seq.specs.Lists.{count, find, up_to};
ghost use Rattle.grid.specs.Flat.{code_section, section_code};
ghost use Rattle.drawing.specs.GridRules.{is_head, is_foot};
ghost use Rattle.reading.specs.Checks.{place_of};
ghost use Rattle.alignment.specs.Corners.{Markable, Cornered, lacks_corner};

use grid::GridTableSection;
use table_checks::cell_entry::CellEntry;

// How many rows are Head, and how many Foot. Foot rows and no Head row are refusal 9; else the
// alignment line is the row line below the Head rows.
#[derive(Clone, Copy)]
pub struct SectionCounts {
    pub heads: usize,
    pub foots: usize,
}

// 1 at each column line where a cell has a corner on one row line.
#[derive(Clone, Copy)]
pub struct Corners {
    pub marks: [u8; 128],
}

// How many rows have the code of this section.
fn count_section(sections: &[u8], section: GridTableSection) -> usize
    ensures { result ≡ count (eqb (section_code section)) sections.now }
{
    let code = u8::from(section);
    let mut n = 0;
    for row in sections {
        if code == *row {
            n += 1;
        }
    }
    n
}

pub fn count_sections(sections: &[u8]) -> SectionCounts
    ensures { let all = map code_section sections.now in
        (result.heads ≡ count is_head all) × (result.foots ≡ count is_foot all) }
{
    SectionCounts {
        heads: count_section(sections, GridTableSection::Head),
        foots: count_section(sections, GridTableSection::Foot),
    }
}

// The corners of n cells on a row line.
pub fn corners_on(cells: &[u16], n: usize, line: usize) -> Corners
    requires { Markable cells.now n }
    ensures { Cornered cells.now n line result.marks }
{
    let mut marks = [0u8; 128];
    for k in 0..n {
        let cell = CellEntry::at(cells, k);
        if (line == cell.row as usize) | (line == cell.bottom()) {
            marks[cell.column as usize] = 1;
            marks[cell.right()] = 1;
        }
    }
    Corners { marks }
}

// 10: the lowest aligned column without a corner at its left.
pub fn misaligned(cols: &[u16], columns: usize, corners: Corners) -> Option<usize>
    requires { (columns ≤ 127) × (length cols.now ≡ 2 * columns) }
    ensures { place_of result ≡ find (lacks_corner cols.now corners.marks) (up_to columns) }
{
    // The number itself: one that stands for no alignment counts as aligned.
    for k in 0..columns {
        if (cols[2 * k] != 0) & (corners.marks[k] == 0) {
            return Some(k);
        }
    }
    None
}
