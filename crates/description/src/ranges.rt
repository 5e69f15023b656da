// Whole numbers from 1 to a bound; 18 has the field's number as position.
ghost use Rattle.std.specs.Prelude.{◌≡◌};
ghost use Rattle.scan.specs.Outcome.{present};
ghost use Rattle.text.specs.Number.{whole_number};
ghost use Rattle.description.specs.Fields.{in_range};

use reading::values::number_at_least;
use scan::Error;

// A whole number from 1 to `most`.
pub fn number_up_to(v: &[u8], field: usize, most: u32) -> Result<u32, Error>
    ensures { result ≡ present (in_range 1 most (whole_number v.now)) 18 field }
{
    match number_at_least(v, 1) {
        Some(n) if n <= most as usize => Ok(n as u32),
        _ => Err(Error {
            code: 18,
            position: field,
        }),
    }
}
