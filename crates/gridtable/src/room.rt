// The working space that a call names, and the room in which no result is too long: 13 and 12 are
// never answered for arrays of these lengths.
ghost use Rattle.std.specs.Prelude.{◌≡◌};
ghost use Rattle.sourcepos.specs.LineEndCalls.{register_room};
ghost use Rattle.replies.specs.Room.{reading_space, drawing_space, layout_room, table_room, drawing_room, positions_room, cell_room};

use replies::room::{
    DrawingRoom, DrawingSpace, LayoutRoom, PositionsRoom, ReadingSpace, TableRoom, cell_room,
    drawing_room, drawing_space, layout_room, positions_room, reading_space, register_room,
    table_room,
};

// replies::room::reading_space.
#[unsafe(no_mangle)]
pub extern "C" fn grid_reading_space() -> ReadingSpace
    ensures { result ≡ reading_space }
{
    reading_space()
}

// replies::room::drawing_space.
#[unsafe(no_mangle)]
pub extern "C" fn grid_drawing_space() -> DrawingSpace
    ensures { result ≡ drawing_space }
{
    drawing_space()
}

// replies::room::layout_room.
#[unsafe(no_mangle)]
pub extern "C" fn grid_layout_room() -> LayoutRoom
    ensures { result ≡ layout_room }
{
    layout_room()
}

// replies::room::table_room.
#[unsafe(no_mangle)]
pub extern "C" fn grid_table_room() -> TableRoom
    ensures { result ≡ table_room }
{
    table_room()
}

// replies::room::drawing_room.
#[unsafe(no_mangle)]
pub extern "C" fn grid_drawing_room() -> DrawingRoom
    ensures { result ≡ drawing_room }
{
    drawing_room()
}

// replies::room::positions_room.
#[unsafe(no_mangle)]
pub extern "C" fn grid_positions_room() -> PositionsRoom
    ensures { result ≡ positions_room }
{
    positions_room()
}

// replies::room::cell_room.
#[unsafe(no_mangle)]
pub extern "C" fn grid_cell_room() -> usize
    ensures { result ≡ cell_room }
{
    cell_room()
}

// replies::room::register_room.
#[unsafe(no_mangle)]
pub extern "C" fn grid_register_room() -> usize
    ensures { result ≡ register_room }
{
    register_room()
}
