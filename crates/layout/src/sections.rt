// The sections of rows.
ghost use Rattle.std.specs.Prelude.{◌-◌, ◌<◌, ◌≡◌};
ghost use Rattle.seq.specs.Lists.{or_default};
ghost use Rattle.grid.specs.Layout.{first_of, last_but_one};
ghost use Rattle.grid.specs.Flat.{section_code};
ghost use Rattle.representation.specs.LayoutEntries.{section_from};

use grid::GridTableSection;
use representation::Parts;

// Past every line: no row lies in Foot.
const NO_FOOT: usize = 128;

// Where Head ends and Foot starts, from the part separators of a drawing of so many lines.
pub fn find_parts(separators: &[u8], height: usize) -> Parts
    requires { 0 < height }
    ensures head { result.head ≡ or_default 0 (first_of separators.now) }
    ensures foot { result.foot ≡ or_default 128 (last_but_one (height - 1) separators.now) }
{
    let head = match separators {
        [first, ..] => usize::from(*first),
        [] => 0,
    };
    let foot = match separators {
        [.., foot, last] if usize::from(*last) == height - 1 => usize::from(*foot),
        _ => NO_FOOT,
    };
    Parts { head, foot }
}

// The section of the row that starts at a line.
pub fn section(parts: Parts, top: usize) -> GridTableSection
    ensures { section_code result ≡ section_from parts top }
{
    if top < parts.head {
        GridTableSection::Head
    } else if parts.foot <= top {
        GridTableSection::Foot
    } else {
        GridTableSection::Body
    }
}
