// Numbers in decimal.
ghost use Rattle.std.specs.Prelude.{◌+◌, ◌≤◌, ◌≡◌, length, drop};
ghost use Rattle.seq.specs.Decimal.{decimal};
ghost use Rattle.writer.specs.Writing.{Wrote};

use crate::copy;

// Puts the decimal digits at the end of `digits` and gives the place of the first.
pub fn digits(number: usize, digits: &mut [u8]) -> usize
    requires { length digits.old ≡ 20 }
    ensures { (length digits.new ≡ 20) × (result ≤ 20) × (drop result digits.new ≡ decimal number) }
{
    let mut left = number;
    for i in (0..20).rev() {
        digits[i] = b'0' + (left % 10) as u8;
        if left < 10 {
            return i;
        }
        left /= 10;
    }
    0
}

pub fn decimal(number: usize, out: &mut [u8], at: usize) -> usize
    requires { at ≤ 4294967296 }
    ensures { Wrote out.old at (decimal number) out.new result × (result ≤ at + 20) }
{
    let mut buffer = [0u8; 20];
    let start = digits(number, &mut buffer);
    copy(&buffer[start..20], out, at)
}
