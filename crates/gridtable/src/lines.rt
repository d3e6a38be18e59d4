// One line of a drawing: whether it is a rule, and its length without the blanks at its end.
ghost use Rattle.std.specs.Prelude.{◌≡◌, length};
ghost use Rattle.text.specs.Rule.{is_rule};
ghost use Rattle.text.specs.Trim.{trim_end};

use rule_lines::rule::is_rule;
use rule_lines::trim::trim_end;

// rule_lines::rule::is_rule.
#[unsafe(no_mangle)]
pub extern "C" fn grid_is_rule(text: &[u8], fill: u8) -> bool
    ensures { result ≡ is_rule fill text.now }
{
    is_rule(text, fill)
}

// rule_lines::trim::trim_end: how many bytes are left.
#[unsafe(no_mangle)]
pub extern "C" fn grid_trim_end(text: &[u8]) -> usize
    ensures { result ≡ length (trim_end text.now) }
{
    let rest = trim_end(text);
    rest.len()
}
