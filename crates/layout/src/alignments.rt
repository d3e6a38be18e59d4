// The alignments of columns.
ghost use Rattle.std.specs.Prelude.{◌≤◌, ◌<◌, ◌≡◌, length};
ghost use Rattle.grid.specs.Layout.{segment_alignment};
ghost use Rattle.grid.specs.Flat.{alignment_code};
ghost use Rattle.grid.specs.LayoutCall.{slot_space};
ghost use Rattle.representation.specs.LayoutEntries.{alignment_from};

use grid::TableAlignment;
use representation::{PLUS, STRIDE};
use rule_lines::rule::segment_end;
use slots::map::byte_at;
use text::Column;

fn segment_alignment(segment: &[u8]) -> TableAlignment
    ensures { result ≡ segment_alignment segment.now }
{
    if segment.is_empty() {
        return TableAlignment::None;
    }
    match (segment[0] == b':', segment[segment.len() - 1] == b':') {
        (true, true) => TableAlignment::Center,
        (true, false) => TableAlignment::Left,
        (false, true) => TableAlignment::Right,
        (false, false) => TableAlignment::None,
    }
}

// The line that aligns the columns: the slots of all lines, which line it is, and its trimmed text.
#[derive(Clone, Copy)]
pub struct AlignmentLine<'a> {
    pub glyphs: &'a [u8],
    pub offsets: &'a [u16],
    pub line: usize,
    pub text: &'a [u8],
    pub ghost glyph_room: { slot_space ≤ length glyphs.now },
    pub ghost offset_room: { slot_space ≤ length offsets.now },
    pub ghost low: { line < 128 },
}

impl<'a> AlignmentLine<'a> {
    // The alignment of the column that starts at slot x.
    pub fn alignment(&self, x: Column) -> TableAlignment
        requires { x.0 < 128 }
        ensures { let a = self.now in
            alignment_code result ≡ alignment_from a.glyphs.now a.offsets.now a.text.now a.line x.0 }
    {
        if self.glyphs[self.line * STRIDE + x.0] != PLUS {
            return TableAlignment::None;
        }
        let from = byte_at(self.offsets, self.line, x).0 + 1;
        match self.text.get(from..) {
            Some(rest) => segment_alignment(&rest[..segment_end(rest)]),
            None => TableAlignment::None,
        }
    }
}
