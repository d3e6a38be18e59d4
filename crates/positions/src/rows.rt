// The positions of whole lines: of a table and of its rows.
ghost use Rattle.std.specs.Prelude.{◌≡◌, length};
ghost use Rattle.positions.specs.Needs.{Started};

use crate::lines::NumberedLines;
use crate::span::Sourcepos;
use representation::Bounds;
use rule_lines::trim::trim_end;
use text::ByteAt;

// Short lines back to back, where each starts, and their numbers and table bytes.
#[derive(Clone, Copy)]
pub struct StartedLines<'a, 'l> {
    pub lengths: &'a [u16],
    pub text: &'a [u8],
    pub starts: &'a [u16],
    pub lines: NumberedLines<'l>,
    pub ghost started: { Started lengths.now text.now starts.now },
    pub ghost agree: { length lines.numbers.now ≡ length lengths.now },
}

impl StartedLines<'_, '_> {
    ghost use Rattle.std.specs.Prelude.{ℕ, ◌*◌, ◌-◌, ◌≤◌, ◌<◌, get_or};
    ghost use mathlib.Core.List.{List, [], Memᴰ};
    ghost use Rattle.text.specs.Trim.{trim_end};
    ghost use Rattle.grid.specs.Answer.{over};
    ghost use Rattle.grid.specs.Flat.{split_text};
    ghost use Rattle.representation.specs.LayoutEntries.{lines_held};
    ghost use Rattle.sourcepos.specs.Positions.{whole_lines};
    ghost use Rattle.positions.specs.Spans.{sourcepos_of, lines_between, row_spans};
    ghost use Rattle.positions.specs.Lent.{started_by};

    // Where line y ends, trimmed.
    fn trimmed_end(&self, y: usize) -> ByteAt
        requires { y < length self.now.lengths.now }
        ensures told { result.0 ≡ length (trim_end (get_or (split_text self.now.lengths.now self.now.text.now) y [])) }
        ensures short { result.0 ≤ 512 }
    {
        let from = self.starts[y] as usize;
        let to = from + self.lengths[y] as usize;
        ByteAt(trim_end(&self.text[from..to]).len())
    }

    // From a line's table byte + 1 to another line's trimmed end.
    pub fn whole(&self, first: usize, last: usize) -> Sourcepos
        requires { (first < length self.now.lengths.now) × (last < length self.now.lengths.now) }
        ensures { (columns : List ℕ) → sourcepos_of result ≡ whole_lines (started_by self.now columns) first last }
    {
        let end = self.trimmed_end(last);
        Sourcepos {
            start_line: self.lines.numbers[first],
            start_column: self.lines.source_byte(first, ByteAt(1)),
            end_line: self.lines.numbers[last],
            end_column: self.lines.source_byte(last, end),
        }
    }

    // The row between two border lines.
    fn between(&self, top: usize, bottom: usize) -> Sourcepos
        requires { (top < bottom) × (bottom < length self.now.lengths.now) }
        ensures { (columns : List ℕ) → sourcepos_of result ≡ lines_between (started_by self.now columns) top bottom }
    {
        if top + 1 < bottom {
            self.whole(top + 1, bottom - 1)
        } else {
            self.lines.no_lines(top)
        }
    }

    // The positions of all rows.
    pub fn write_rows(&self, rows: Bounds, out: &mut [u32])
        requires inside { (y : ℕ) → Memᴰ y (lines_held rows) → y < length self.now.lengths.now }
        requires room { 4 * (rows.count - 1) ≤ length out.old }
        ensures { (columns : List ℕ) → out.new ≡ over (row_spans (started_by self.now columns) (lines_held rows)) out.old }
    {
        for k in 0..rows.bands() {
            let (top, bottom) = rows.band(k);
            self.between(top, bottom).write(4 * k, out);
        }
    }
}
