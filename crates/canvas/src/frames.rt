// Where the borders of each cell stand (grid_table.rs: x0, x1, y0, y1), four numbers a cell.
ghost use Rattle.std.specs.Prelude.{ℕ, ◌*◌, ◌≤◌, ◌<◌, ◌≡◌, List, map, length};
ghost use Rattle.grid.specs.Values.{TableCell};
ghost use Rattle.grid.specs.Flat.{cells_of_array};
ghost use Rattle.grid.specs.LayoutCall.{rect_space};
ghost use Rattle.drawing.specs.Plain.{box_of};
ghost use Rattle.representation.specs.Arrays.{rects_of};
ghost use Rattle.canvas.specs.Frames.{Placeable};

use trace::rects::put_rect;

// Writes the borders of n cells; xs and ys have where the column and row lines stand.
pub fn place_cells(cells: &[u16], n: usize, xs: [usize; 128], ys: [usize; 128], rects: &mut [u8])
    requires n_bound { (n ≤ 1024) × (5 * n ≤ length cells.now) × (rect_space ≤ length rects.old) }
    requires placeable { (k : ℕ) → k < n → Placeable cells.now xs ys k }
    ensures { (lines : List (List ℕ)) → rects_of n rects.new
        ≡ map (λ (c : TableCell). (box_of xs ys c).frame) (cells_of_array n cells.now lines) }
{
    for k in 0..n {
        let at = 5 * k;
        let row = cells[at] as usize;
        let column = cells[at + 1] as usize;
        let right = column + cells[at + 2] as usize;
        let bottom = row + cells[at + 3] as usize;
        put_rect(rects, k, ys[row], xs[column], ys[bottom], xs[right]);
    }
}
