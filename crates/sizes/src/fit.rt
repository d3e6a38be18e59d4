// Sizes of columns or rows that hold their cells.
ghost use Rattle.std.specs.Prelude.{◌+◌, ◌*◌, ◌≤◌, ◌≡◌, length, take, drop};
ghost use Rattle.seq.specs.Lists.{sum};
ghost use Rattle.drawing.specs.Sizes.{raise_single, add_lack, in_turn, fit as fitted};
ghost use Rattle.sizes.specs.Needs.{needs_in, Spanned, EachAtMost};

// Cells of one column, or row, raise it to what they need. A cell's first column and its number of
// columns stand at from_at and span_at of its entry.
fn raise_singles(
    sizes: [usize; 128],
    cells: &[u16],
    n: usize,
    from_at: usize,
    span_at: usize,
    needs: &[u16],
) -> [usize; 128]
    requires spanned { Spanned n from_at span_at cells.now 128 × (n ≤ length needs.now) }
    requires sizes_len { (length sizes ≡ 128) × EachAtMost 65535 sizes }
    ensures value { result ≡ in_turn raise_single sizes (needs_in n from_at span_at cells.now needs.now) }
    ensures result_len { (length result ≡ 128) × EachAtMost 65535 result }
{
    let mut raised = sizes;
    for k in 0..n {
        let from = cells[5 * k + from_at] as usize;
        if cells[5 * k + span_at] == 1 {
            raised[from] = raised[from].max(needs[k] as usize);
        }
    }
    raised
}

// The sum of `span` sizes from `from` on.
fn total(sizes: [usize; 128], from: usize, span: usize) -> usize
    requires { (from + span ≤ 128) × (length sizes ≡ 128) × EachAtMost (65535 * 1025) sizes }
    ensures { (result ≡ sum (take span (drop from sizes))) × (result ≤ 65535 * 1025 * 128) }
{
    let mut sum = 0;
    for i in 0..span {
        sum += sizes[from + i];
    }
    sum
}

// A cell that lacks room, inner borders counted, adds the lack to its last column, or row. A size
// starts below 2^16 and each of 1,024 cells adds less than 2^16, so that no sum wraps.
fn add_lacks(
    sizes: [usize; 128],
    cells: &[u16],
    n: usize,
    from_at: usize,
    span_at: usize,
    needs: &[u16],
) -> [usize; 128]
    requires spanned { Spanned n from_at span_at cells.now 128 × (n ≤ length needs.now) }
    requires sizes_len { (length sizes ≡ 128) × EachAtMost 65535 sizes }
    ensures value { result ≡ in_turn add_lack sizes (needs_in n from_at span_at cells.now needs.now) }
    ensures result_len { (length result ≡ 128) × EachAtMost (65535 * 1025) result }
{
    let mut grown = sizes;
    for k in 0..n {
        let from = cells[5 * k + from_at] as usize;
        let span = cells[5 * k + span_at] as usize;
        let need = needs[k] as usize;
        let have = total(grown, from, span) + span - 1;
        if have < need {
            grown[from + span - 1] += need - have;
        }
    }
    grown
}

// The sizes, grown so that every cell has its room.
pub fn fit(
    sizes: [usize; 128],
    cells: &[u16],
    n: usize,
    from_at: usize,
    span_at: usize,
    needs: &[u16],
) -> [usize; 128]
    requires spanned { Spanned n from_at span_at cells.now 128 × (n ≤ length needs.now) }
    requires sizes_len { (length sizes ≡ 128) × EachAtMost 65535 sizes }
    ensures value { result ≡ fitted sizes (needs_in n from_at span_at cells.now needs.now) }
    ensures result_len { (length result ≡ 128) × EachAtMost (65535 * 1025) result }
{
    let raised = raise_singles(sizes, cells, n, from_at, span_at, needs);
    add_lacks(raised, cells, n, from_at, span_at, needs)
}
