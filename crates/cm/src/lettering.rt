// The text of a table's cells.
ghost use Rattle.std.specs.Prelude.{◌≤◌, ◌<◌, ◌≡◌, List, length, get_or};
ghost use Rattle.text.specs.Lines.{no_text};
ghost use Rattle.drawing.specs.Plain.{Box};
ghost use Rattle.cm.specs.Board.{lines_at};
ghost use Rattle.cm.specs.Bears.{LettersOf};

// Where each of its lines starts and ends, each cell's first line, and how many it has.
#[derive(Clone, Copy)]
pub struct Lettering<'a, 'w> {
    pub text: &'a [u8],
    pub starts: &'w [u16],
    pub ends: &'w [u16],
    pub firsts: &'w [u16],
    pub heights: &'w [u16],
}

impl<'a, 'w> Lettering<'a, 'w> {
    // Line i of cell k, or none where the cell has fewer.
    pub fn line(self, k: usize, i: usize) -> &'a [u8]
        requires { (bs : List Box) × LettersOf self bs × (k < length bs) × (i ≤ 128) }
        ensures { (bs : List Box) → LettersOf self.entry bs → k < length bs → result.now ≡ get_or (lines_at bs k) i no_text }
    {
        if self.heights[k] as usize <= i {
            return &self.text[..0];
        }
        let j = self.firsts[k] as usize + i;
        let from = self.starts[j] as usize;
        let to = self.ends[j] as usize;
        &self.text[from..to]
    }
}
