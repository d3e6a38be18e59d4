// Rule lines, as `is_rule` of layout.rs.
ghost use Rattle.std.specs.Prelude.{◌≡◌, length};
ghost use Rattle.text.specs.Rule.{to_plus, drop_leading_colon, drop_trailing_colon, fills, is_segment, is_rule};

// The bytes before the first `+`, or all where there is none.
pub fn segment_end(rest: &[u8]) -> usize
    ensures { result ≡ length (to_plus rest.now) }
{
    rest.iter().position(|b| *b == b'+').unwrap_or(rest.len())
}

fn strip_leading_colon(segment: &[u8]) -> &[u8]
    ensures { result.now ≡ drop_leading_colon segment.now }
{
    segment.strip_prefix(b":").unwrap_or(segment)
}

fn strip_trailing_colon(segment: &[u8]) -> &[u8]
    ensures { result.now ≡ drop_trailing_colon segment.now }
{
    segment.strip_suffix(b":").unwrap_or(segment)
}

fn is_filled(segment: &[u8], fill: u8) -> bool
    ensures { result ≡ fills fill segment.now }
{
    !segment.is_empty() && segment.iter().all(|b| *b == fill)
}

fn is_segment(segment: &[u8], fill: u8) -> bool
    ensures { result ≡ is_segment fill segment.now }
{
    is_filled(strip_trailing_colon(strip_leading_colon(segment)), fill)
}

pub fn is_rule(text: &[u8], fill: u8) -> bool
    ensures { result ≡ is_rule fill text.now }
{
    let Some(mut rest) = text.strip_prefix(b"+") else {
        return false;
    };
    // A while: segments have different lengths.
    while !rest.is_empty() {
        let end = segment_end(rest);
        if rest.len() <= end {
            return false;
        }
        if !is_segment(&rest[..end], fill) {
            return false;
        }
        rest = &rest[end + 1..];
    }
    true
}
