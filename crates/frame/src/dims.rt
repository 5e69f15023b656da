// The dimensions of a frame.
ghost use Rattle.std.specs.Prelude.{◌≡◌, true, ◌*◌, ◌≤◌};
ghost use Rattle.raster.specs.Position.{product};
ghost use Rattle.frame.specs.File.{frame_allowed};
ghost use Rattle.frame.specs.Shape.{shape_dims, Small, IsShape};

use crate::Frame;

// Three dimensions.
#[derive(Clone, Copy)]
pub struct Shape {
    pub dim1: usize,
    pub dim2: usize,
    pub dim3: usize,
}

// Those of a frame, with 1 past the last.
pub fn shape_of(f: Frame) -> Shape
    requires { frame_allowed f ≡ true }
    ensures { IsShape f result }
{
    match f.n {
        1 => Shape {
            dim1: f.dim1,
            dim2: 1,
            dim3: 1,
        },
        2 => Shape {
            dim1: f.dim1,
            dim2: f.dim2,
            dim3: 1,
        },
        _ => Shape {
            dim1: f.dim1,
            dim2: f.dim2,
            dim3: f.dim3,
        },
    }
}

// How many bytes elements of w bytes take.
pub fn array_length(s: Shape, w: usize) -> usize
    requires { Small s × (w ≤ 8) }
    ensures { result ≡ product (shape_dims s) * w }
{
    s.dim1 * (s.dim2 * s.dim3) * w
}
