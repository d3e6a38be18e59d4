// The column and row lines of a drawing, from the edges of its rectangles.
ghost use Rattle.std.specs.Prelude.{◌≤◌, ◌<◌};
ghost use Rattle.representation.specs.Edges.{edge_list, Collected, row_lines_below, column_lines_below};
ghost use Rattle.representation.specs.Traced.{rects_held};
ghost use Rattle.layout.specs.Marked.{EdgesMarked, marked_below};

use representation::Bounds;
use representation::rects::Rects;
use text::Column;

// Marks the edges of rectangles: their tops and bottoms from 0 on, lefts and rights from 1 on. A
// closure in place of the number would need a clause that says what it picks: no plainer.
fn edges(rects: Rects, from: usize) -> [bool; 128]
    requires { from < 2 }
    ensures { EdgesMarked (edge_list rects.entry.count from rects.entry.array.now) result }
{
    let mut marks = [false; 128];
    for k in 0..rects.count {
        let at = 4 * k + from;
        let first = usize::from(rects.array[at]);
        let second = usize::from(rects.array[at + 2]);
        marks[first] = true;
        marks[second] = true;
    }
    marks
}

// The marked numbers below size.
fn collect(marks: [bool; 128], size: usize) -> Bounds
    requires { size ≤ 128 }
    ensures { Collected (marked_below marks size) size result }
{
    let mut lines = [0u8; 128];
    let mut index = [0u8; 128];
    let mut count = 0;
    for x in 0..size {
        index[x] = count as u8;
        if marks[x] {
            lines[count] = x as u8;
            count += 1;
        }
    }
    Bounds {
        lines,
        index,
        count,
    }
}

pub fn row_bounds(rects: Rects, height: usize) -> Bounds
    requires { height ≤ 128 }
    ensures { Collected (row_lines_below height (rects_held rects.entry)) height result }
{
    collect(edges(rects, 0), height)
}

pub fn col_bounds(rects: Rects, width: Column) -> Bounds
    requires { width.0 ≤ 128 }
    ensures { Collected (column_lines_below width.0 (rects_held rects.entry)) width.0 result }
{
    collect(edges(rects, 1), width.0)
}
