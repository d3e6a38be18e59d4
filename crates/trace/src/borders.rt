// What tracing looks at: a drawing's glyphs, and how far its borders reach.
ghost use Rattle.trace.specs.Ready.{Ready};

// In arrays of slots: the glyphs, and the last line (column) of the vertical (horizontal) run from each.
#[derive(Clone, Copy)]
pub struct Borders<'a> {
    pub height: usize,
    pub width: usize,
    pub glyphs: &'a [u8],
    pub down: &'a [u8],
    pub right: &'a [u8],
    pub ghost ready: { Ready height width glyphs.now down.now right.now },
}
