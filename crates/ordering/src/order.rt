// The order in which the pixels are stored, as steps through pixels of configuration 1.
ghost use Rattle.std.specs.Prelude.{◌≡◌, ◌≤◌};
ghost use Rattle.raster.specs.Axis.{forward};
ghost use Rattle.raster.specs.Position.{dim_of};
ghost use Rattle.raster.specs.Strides.{axis_of};
ghost use Rattle.frame.specs.Shape.{shape_dims, Small};
ghost use Rattle.ordering.specs.Stored.{axis_at, stride_of, Ran, stored_steps};

use frame::dims::Shape;
use raster::configuration::{Direction, order_of};
use raster::stride::Steps;

// One axis: its dimension, how far one more of its index is on or back, and where it starts.
#[derive(Clone, Copy)]
struct Run {
    dim: usize,
    up: usize,
    down: usize,
    back: usize,
}

fn dim_at(index: u8, s: Shape) -> usize
    requires { (1 ≤ index) × (index ≤ 3) }
    ensures { result ≡ dim_of (shape_dims s) (forward index) }
{
    match index {
        1 => s.dim1,
        2 => s.dim2,
        _ => s.dim3,
    }
}

fn stride_at(index: u8, s: Shape, w: usize) -> usize
    requires le_index { (1 ≤ index) × (index ≤ 3) }
    requires small { Small s × (w ≤ 8) }
    ensures { result ≡ stride_of (shape_dims s) w (forward index) }
{
    match index {
        1 => w,
        2 => w * s.dim1,
        _ => w * (s.dim1 * s.dim2),
    }
}

fn run_along(d: Direction, s: Shape, w: usize) -> Run
    requires le_index { (1 ≤ d.index) × (d.index ≤ 3) }
    requires small { Small s × (w ≤ 8) }
    ensures { Ran (shape_dims s) w (axis_of d.backward d.index) result.dim result.up result.down result.back }
{
    let dim = dim_at(d.index, s);
    let stride = stride_at(d.index, s, w);
    if d.backward {
        Run {
            dim,
            up: 0,
            down: stride,
            back: stride * (dim - 1),
        }
    } else {
        Run {
            dim,
            up: stride,
            down: 0,
            back: 0,
        }
    }
}

// The steps, and the dimensions in the order in which they run.
#[derive(Clone, Copy)]
pub struct Walk {
    pub steps: Steps,
    pub dim1: usize,
    pub dim2: usize,
    pub dim3: usize,
}

pub fn walk_of(number: u32, s: Shape, w: usize) -> Walk
    requires le_number { (1 ≤ number) × (number ≤ 48) }
    requires small { Small s × (w ≤ 8) }
    ensures steps_value { result.steps ≡ stored_steps (shape_dims s) w number }
    ensures dim1_value { (result.dim1 ≡ dim_of (shape_dims s) (axis_at number 0)) × (result.dim2 ≡ dim_of (shape_dims s) (axis_at number 1)) }
    ensures dim3_value { result.dim3 ≡ dim_of (shape_dims s) (axis_at number 2) }
{
    let order = order_of(number);
    let a = run_along(order.first, s, w);
    let b = run_along(order.second, s, w);
    let c = run_along(order.third, s, w);
    let steps = Steps {
        at: a.back + b.back + c.back,
        up1: a.up,
        down1: a.down,
        up2: b.up,
        down2: b.down,
        up3: c.up,
        down3: c.down,
    };
    Walk {
        steps,
        dim1: a.dim,
        dim2: b.dim,
        dim3: c.dim,
    }
}
