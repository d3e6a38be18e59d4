// The lines of a drawing that can be cut.
ghost use Rattle.cell.specs.Text.{source, SourceReady};

// A drawing's arrays, the byte of each of its slots, and where each of its lines starts in its text.
#[derive(Clone, Copy)]
pub struct Source<'a, 't> {
    pub lengths: &'a [u16],
    pub columns: &'a [u16],
    pub text: &'t [u8],
    pub offsets: &'a [u16],
    pub starts: &'a [u16],
    pub ghost ready: { SourceReady (source lengths.now columns.now text.now starts.now offsets.now) },
}
