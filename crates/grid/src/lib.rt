// What reading a drawing gives: slots, first bordered rectangles, tracing, the table, cutting and
// the refusals 1 to 7, as definitions in specs/; theorems about them in proofs/.
#![tactic(auto)]

ghost use Rattle.grid.specs.Codes.{IsAlignmentCode, IsSectionCode, DecodesAlignment, DecodesSection};

#[derive(Clone, Copy, Debug, PartialEq, Eq)]
pub enum TableAlignment {
    None,
    Left,
    Right,
    Center,
}

#[derive(Clone, Copy, Debug, PartialEq, Eq)]
pub enum GridTableSection {
    Head,
    Body,
    Foot,
}

/// A number that stands for no alignment or no section.
#[derive(Clone, Copy, Debug, PartialEq, Eq)]
pub struct UnknownCode(pub u16);

impl From<TableAlignment> for u16 {
    ghost from_gives = { IsAlignmentCode };

    fn from(alignment: TableAlignment) -> u16 {
        match alignment {
            TableAlignment::None => 0,
            TableAlignment::Left => 1,
            TableAlignment::Right => 2,
            TableAlignment::Center => 3,
        }
    }
}

impl From<GridTableSection> for u16 {
    ghost from_gives = { IsSectionCode };

    fn from(section: GridTableSection) -> u16 {
        match section {
            GridTableSection::Head => 0,
            GridTableSection::Body => 1,
            GridTableSection::Foot => 2,
        }
    }
}

impl From<GridTableSection> for u8 {
    ghost from_gives = { IsSectionCode };

    fn from(section: GridTableSection) -> u8 {
        match section {
            GridTableSection::Head => 0,
            GridTableSection::Body => 1,
            GridTableSection::Foot => 2,
        }
    }
}

impl TryFrom<u16> for TableAlignment {
    type Error = UnknownCode;

    ghost try_from_gives = { DecodesAlignment };

    fn try_from(code: u16) -> Result<Self, UnknownCode> {
        match code {
            0 => Ok(TableAlignment::None),
            1 => Ok(TableAlignment::Left),
            2 => Ok(TableAlignment::Right),
            3 => Ok(TableAlignment::Center),
            _ => Err(UnknownCode(code)),
        }
    }
}

impl TryFrom<u8> for GridTableSection {
    type Error = UnknownCode;

    ghost try_from_gives = { DecodesSection };

    fn try_from(code: u8) -> Result<Self, UnknownCode> {
        match code {
            0 => Ok(GridTableSection::Head),
            1 => Ok(GridTableSection::Body),
            2 => Ok(GridTableSection::Foot),
            _ => Err(UnknownCode(u16::from(code))),
        }
    }
}
