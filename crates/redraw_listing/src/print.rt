// The lines of a drawing, printed into a buffer.
ghost use Rattle.std.specs.Prelude.{◌+◌, ◌≤◌, ◌≡◌, length};
ghost use mathlib.Core.List.{flat_map};
ghost use Rattle.seq.specs.Lists.{sum};
ghost use Rattle.grid.specs.Flat.{split_text};
ghost use Rattle.drawing.specs.Listing.{ended_line};
ghost use Rattle.printing.specs.Printing.{Prints};

use printing::{byte, copy};

// Each line and a line feed.
pub fn print_lines(lengths: &[u16], text: &[u8], out: &mut [u8]) -> usize
    requires { (sum lengths.now ≡ length text.now) × (length lengths.now + length text.now ≤ length out.old) }
    ensures { Prints out.new result (flat_map ended_line (split_text lengths.now text.now)) }
{
    let mut rest = text;
    let mut end = 0;
    for length in lengths {
        let (line, after) = rest.split_at(*length as usize);
        end = copy(line, out, end);
        end = byte(b'\n', out, end);
        rest = after;
    }
    end
}
