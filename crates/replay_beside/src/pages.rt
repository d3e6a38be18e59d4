// The cases of pages and shares.
ghost use Rattle.std.specs.Prelude.{◌≤◌, length};

use html_page::lent::PageTable;
use html_page::share::share_of;
use refusals::Refusal;
use replaying::{half_word, number_field, numbers_field, print, text_field, word_field};
use std::io;
use table_checks::shape::Shape;

fn is_plain(b: u8) -> bool {
    32 <= b && b < 127 && b != b'\\'
}

// How many bytes at the front are printed as they are.
fn plain_len(bytes: &[u8]) -> usize
    ensures { result ≤ length bytes.now }
{
    bytes
        .iter()
        .position(|b| !is_plain(*b))
        .unwrap_or(bytes.len())
}

fn print_code(rt: &impl Print, b: u8) -> io::Result<()> {
    rt.write_all(b"\\")?;
    print!(rt; "{b:02x}")
}

fn print_escaped(rt: &impl Print, bytes: &[u8]) -> io::Result<()> {
    let mut rest = bytes;
    // A while: the parts between escaped bytes have different sizes.
    while !rest.is_empty() {
        let (plain, coded) = rest.split_at(plain_len(rest));
        rt.write_all(plain)?;
        let Some((b, later)) = coded.split_first() else {
            return Ok(());
        };
        print_code(rt, *b)?;
        rest = later;
    }
    Ok(())
}

fn print_page(rt: &impl Print, answer: Result<usize, Refusal>, page: &[u8]) -> io::Result<()> {
    match answer {
        Err(refusal) => rt.print(refusal),
        Ok(bytes) => {
            rt.write_all(b"accepted")?;
            print(rt, bytes)?;
            rt.write_all(b" ")?;
            let end = bytes.min(page.len());
            print_escaped(rt, &page[0..end])
        }
    }
}

fn answer(
    rt: &impl Print,
    case: &[u8],
    cols: &[u16],
    sections: &[u8],
    cells: &[u16],
    inner: &[u8],
    page: &mut [u8],
) -> io::Result<()> {
    let table = PageTable {
        shape: Shape {
            columns: number_field(case, 2),
            rows: number_field(case, 3),
            cells: number_field(case, 4),
            column_entries: cols,
            sections,
            cell_entries: cells,
        },
        bytes: number_field(case, 5),
        inner,
    };
    let answer = html_page::page(number_field(case, 1) == 1, table, page);
    print_page(rt, answer, page)
}

pub fn answer_page(rt: &impl Print, case: &[u8]) -> io::Result<()> {
    let mut cols = [0u16; 512];
    let i = numbers_field(case, 6, &mut cols);
    let mut sections = [0u8; 512];
    let j = text_field(case, 7, &mut sections);
    let mut cells = [0u16; 8192];
    let k = numbers_field(case, 8, &mut cells);
    let mut inner = [0u8; 40000];
    let n = text_field(case, 9, &mut inner);
    let mut page = [0u8; 65536];
    let room = number_field(case, 10).min(65536);
    answer(
        rt,
        case,
        &cols[0..i],
        &sections[0..j],
        &cells[0..k],
        &inner[0..n],
        &mut page[0..room],
    )
}

pub fn answer_share(rt: &impl Print, case: &[u8]) -> io::Result<()> {
    let share = share_of(half_word(word_field(case, 1)), word_field(case, 2));
    rt.print(share.hundredths)?;
    rt.write_all(b" ")?;
    let bits = f64::to_bits(share.percent);
    print!(rt; "{bits:016x}")
}
