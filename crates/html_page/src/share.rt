// A column's share of the table's width.
ghost use Rattle.std.specs.Prelude.{◌≡◌};
ghost use Rattle.html.specs.Shares.{hundredths_of, percent_of, share_of};

use html::Share;

// width times 10,000 / total, half up.
fn hundredths(width: u16, total: u32) -> u32
    ensures { result ≡ hundredths_of width total }
{
    if total == 0 {
        return 0;
    }
    let parts = width as u64 * 10000;
    let whole = total as u64;
    ((2 * parts + whole) / (2 * whole)) as u32
}

// A whole number that an f64 holds, divided by 100, rounded once.
fn percent(hundredths: u32) -> f64
    ensures { result ≡ percent_of hundredths }
{
    hundredths as f64 / 100.0
}

pub fn share_of(width: u16, total: u32) -> Share
    ensures { result ≡ share_of width total }
{
    let hundredths = hundredths(width, total);
    Share {
        hundredths,
        percent: percent(hundredths),
    }
}
