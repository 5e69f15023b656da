// The version of the format: the value of EDF_DataFormatVersion.
ghost use Rattle.std.specs.Prelude.{◌≡◌};
ghost use Rattle.scan.specs.Search.{is};
ghost use Rattle.text.specs.Number.{digit};
ghost use Rattle.text.specs.Text.{every};
ghost use Rattle.blocks.specs.Reading.{is_version};

// Whether a byte is a digit.
#[tactic(auto, unfolding(text::specs::Number::digit))]
fn is_digit(b: u8) -> bool
    ensures { result ≡ digit b }
{
    48 <= b && b <= 57
}

fn all_digits(l: &[u8]) -> bool
    ensures { result ≡ every digit l.now }
{
    l.iter().all(|&b| is_digit(b))
}

fn all_zeros(l: &[u8]) -> bool
    ensures { result ≡ every (is 48) l.now }
{
    l.iter().all(|&b| b == b'0')
}

// Whether a value is digits, not all 0, a point and two digits.
#[tactic(auto, unfolding(blocks::specs::Reading::is_version))]
pub fn is_version(v: &[u8]) -> bool
    ensures { result ≡ is_version v.now }
{
    match v {
        [number @ .., b'.', tens, units] => {
            all_digits(number) && !all_zeros(number) && is_digit(*tens) && is_digit(*units)
        }
        _ => false,
    }
}
