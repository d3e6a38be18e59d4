// A drawing's lines: counted, and written.
ghost use Rattle.std.specs.Prelude.{◌≡◌};
ghost use Rattle.drawing.specs.Plain.{Canvas, canvas_height, canvas_lines};
ghost use Rattle.writer.specs.Writing.{put_down};
ghost use Rattle.cm.specs.Bears.{Bears, Ready};
ghost use Rattle.cm.specs.Counted.{Counted, drawn_text};

use crate::board::Board;
use crate::lines::write_line;
use text::ByteAt;

// The length of each line, and of all together.
#[derive(Clone, Copy)]
pub struct LineSizes {
    pub lengths: [usize; 128],
    pub bytes: usize,
}

pub fn count_lines(board: &Board<'_>) -> LineSizes
    requires { Ready board.now }
    ensures { (v : Canvas) → Bears board.now v → board.now.height ≡ canvas_height v → Counted (canvas_lines board.now.origin.0 v) result }
{
    let mut none = [0u8; 0];
    let mut lengths = [0; 128];
    let mut bytes = 0;
    for y in 0..board.height {
        let end = write_line(board, y, &mut none, ByteAt(0));
        lengths[y] = end.0;
        bytes += end.0;
    }
    LineSizes { lengths, bytes }
}

// All lines, back to back, as far as the space reaches.
pub fn write_lines(board: &Board<'_>, out: &mut [u8])
    requires { Ready board.now }
    ensures { (v : Canvas) → Bears board.now v → board.now.height ≡ canvas_height v
        → out.new ≡ put_down out.old 0 (drawn_text (canvas_lines board.now.origin.0 v)) }
{
    let mut at = ByteAt(0);
    for y in 0..board.height {
        at = write_line(board, y, out, at);
    }
}
