#![tactic(auto)]

// The value of a keyword of a block as a real number with its unit.
ghost use Rattle.std.specs.Prelude.{◌≡◌};
ghost use Rattle.quantities.specs.Real.{real_in};

use reals::Real;
use scan::Error;

// Errors: those of opening; 16 no such block or keyword; 18 no real number; 27 outside the bounds.
pub fn real(file: &[u8], block: usize, key: &[u8]) -> Result<Real, Error>
    ensures { result ≡ real_in file.now block key.now }
{
    let span = keyword::read::find(file, block, key)?;
    reals::parse::parse(scan::part(file, span))
}
