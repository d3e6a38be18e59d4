// The slot map: from a column of a line to the byte at which its character starts.
ghost use Rattle.std.specs.Prelude.{◌≤◌, ◌<◌, ◌≡◌, length};
ghost use Rattle.grid.specs.LayoutCall.{slot_space};
ghost use Rattle.representation.specs.Arrays.{code_at};

use representation::STRIDE;
use text::{ByteAt, Column};

// Every read of the map is this one.
pub fn byte_at(offsets: &[u16], y: usize, x: Column) -> ByteAt
    requires { (slot_space ≤ length offsets.now) × (y < 128) × (x.0 < 128) }
    ensures { (result.0 ≡ code_at offsets.now y x.0) × (result.0 < 65536) }
{
    ByteAt(offsets[y * STRIDE + x.0] as usize)
}
