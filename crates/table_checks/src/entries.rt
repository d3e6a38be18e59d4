// Every nth entry of an array: `count` of them from `from` on.
ghost use Rattle.std.specs.Prelude.{◌*◌, ◌≤◌, ◌<◌, ◌≡◌, length, eqb};
ghost use Rattle.seq.specs.Lists.{sum};
ghost use Rattle.reading.specs.Agreement.{any_over};
ghost use Rattle.table_checks.specs.Entries.{entries};

// Is any of them over this limit?
pub fn any_over(numbers: &[u16], from: usize, step: usize, count: usize, limit: u16) -> bool
    requires { (from < step) × (step ≤ 5) × (step * count ≤ length numbers.now) }
    ensures { result ≡ any_over limit (entries from step count numbers.now) }
{
    for k in 0..count {
        if limit < numbers[step * k + from] {
            return true;
        }
    }
    false
}

// Do they add up to this number? It is counted down, so that no sum can wrap.
pub fn adds_up(numbers: &[u16], from: usize, step: usize, count: usize, total: usize) -> bool
    requires { (from < step) × (step ≤ 5) × (step * count ≤ length numbers.now) }
    ensures { result ≡ eqb (sum (entries from step count numbers.now)) total }
{
    let mut missing = total;
    for k in 0..count {
        let number = numbers[step * k + from] as usize;
        if missing < number {
            return false;
        }
        missing -= number;
    }
    missing == 0
}
