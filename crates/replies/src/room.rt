// The working space that a call names, and output arrays in which no result is too long.
ghost use Rattle.std.specs.Prelude.{◌≡◌};
ghost use Rattle.sourcepos.specs.LineEndCalls.{register_room};
ghost use Rattle.replies.specs.Room.{reading_space, drawing_space, layout_room, table_room, drawing_room, positions_room, cell_room};

const MAX_LINES: usize = 128;

const MAX_BYTES: usize = 32768;

const MAX_COLUMNS: usize = 127;

const MAX_ROWS: usize = 127;

const MAX_CELLS: usize = 1024;

const MAX_TABLE_LINES: usize = 16384;

const SLOT_SPACE: usize = 16384;

const RECT_SPACE: usize = 4096;

const REGISTER_ROOM: usize = 1024;

// Working space of the layout, cell, positions and table calls.
#[repr(C)]
#[derive(Clone, Copy)]
pub struct ReadingSpace {
    pub glyphs: usize,
    pub offsets: usize,
    pub down: usize,
    pub right: usize,
    pub rects: usize,
    pub starts: usize,
    pub counts: usize,
}

pub fn reading_space() -> ReadingSpace
    ensures { result ≡ reading_space }
{
    ReadingSpace {
        glyphs: SLOT_SPACE,
        offsets: SLOT_SPACE,
        down: SLOT_SPACE,
        right: SLOT_SPACE,
        rects: RECT_SPACE,
        starts: MAX_LINES,
        counts: MAX_CELLS,
    }
}

// Working space of the redraw call.
#[repr(C)]
#[derive(Clone, Copy)]
pub struct DrawingSpace {
    pub starts: usize,
    pub ends: usize,
    pub firsts: usize,
    pub heights: usize,
    pub wides: usize,
    pub rects: usize,
    pub canvas: usize,
}

pub fn drawing_space() -> DrawingSpace
    ensures { result ≡ drawing_space }
{
    DrawingSpace {
        starts: MAX_TABLE_LINES,
        ends: MAX_TABLE_LINES,
        firsts: MAX_CELLS,
        heights: MAX_CELLS,
        wides: MAX_CELLS,
        rects: RECT_SPACE,
        canvas: SLOT_SPACE,
    }
}

// The arrays of the layout call.
#[repr(C)]
#[derive(Clone, Copy)]
pub struct LayoutRoom {
    pub columns: usize,
    pub rows: usize,
    pub cells: usize,
    pub ranges: usize,
}

pub fn layout_room() -> LayoutRoom
    ensures { result ≡ layout_room }
{
    LayoutRoom {
        columns: 2 * MAX_COLUMNS,
        rows: 3 * MAX_ROWS,
        cells: 5 * MAX_CELLS,
        ranges: 2 * MAX_TABLE_LINES,
    }
}

// The arrays of the table call, and those between the two steps of the call from a drawing to its
// redrawing.
#[repr(C)]
#[derive(Clone, Copy)]
pub struct TableRoom {
    pub columns: usize,
    pub sections: usize,
    pub cells: usize,
    pub lengths: usize,
    pub text: usize,
}

pub fn table_room() -> TableRoom
    ensures { result ≡ table_room }
{
    TableRoom {
        columns: 2 * MAX_COLUMNS,
        sections: MAX_ROWS,
        cells: 5 * MAX_CELLS,
        lengths: MAX_TABLE_LINES,
        text: MAX_BYTES,
    }
}

// The arrays of the redraw call.
#[repr(C)]
#[derive(Clone, Copy)]
pub struct DrawingRoom {
    pub lengths: usize,
    pub columns: usize,
    pub text: usize,
}

pub fn drawing_room() -> DrawingRoom
    ensures { result ≡ drawing_room }
{
    DrawingRoom {
        lengths: MAX_LINES,
        columns: MAX_LINES,
        text: MAX_BYTES,
    }
}

// The arrays of the positions call.
#[repr(C)]
#[derive(Clone, Copy)]
pub struct PositionsRoom {
    pub rows: usize,
    pub cells: usize,
}

pub fn positions_room() -> PositionsRoom
    ensures { result ≡ positions_room }
{
    PositionsRoom {
        rows: 4 * MAX_ROWS,
        cells: 4 * MAX_CELLS,
    }
}

// The array of the cell call.
pub fn cell_room() -> usize
    ensures { result ≡ cell_room }
{
    4 * MAX_LINES
}

// The ends that a register holds, and the length of each of its arrays.
pub fn register_room() -> usize
    ensures { result ≡ register_room }
{
    REGISTER_ROOM
}
