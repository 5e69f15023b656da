// What fills to a multiple of 512.
ghost use Rattle.std.specs.Prelude.{◌≡◌};
ghost use Rattle.rendering.specs.Render.{padding};

// The fewest bytes that make n a multiple of 512.
pub fn filling(n: usize) -> usize
    ensures { result ≡ padding n }
{
    (512 - n % 512) % 512
}
