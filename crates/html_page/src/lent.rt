// What a caller lends for a page.
use table_checks::shape::Shape;

// A table whose cells each have, in place of their lines, inner bytes, of which the fifth number tells the
// length: all inner bytes together, back to back, and how many there are.
#[derive(Clone, Copy)]
pub struct PageTable<'a> {
    pub shape: Shape<'a>,
    pub bytes: usize,
    pub inner: &'a [u8],
}
