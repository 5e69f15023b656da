// The letter and the number of an origin. Two functions, not a `From<Origin> for u8`: either would be that.
ghost use Rattle.std.specs.Prelude.{◌≡◌};
ghost use Rattle.origins.specs.Letter.{letter_of, number_of};

use keyword::Origin;

pub fn letter_of(o: Origin) -> u8
    ensures { result ≡ letter_of o }
{
    match o {
        Origin::Own => b'o',
        Origin::General => b'g',
        Origin::Default => b'd',
    }
}

pub fn number_of(o: Origin) -> u8
    ensures { result ≡ number_of o }
{
    match o {
        Origin::Own => 1,
        Origin::General => 2,
        Origin::Default => 3,
    }
}
