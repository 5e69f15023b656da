// Whether a frame may be written: error 24, "a type, order or instance code, memory under 1, dimension, configuration".
ghost use Rattle.std.specs.Prelude.{◌≡◌, ◌↔◌, ◌&&◌, ◌≤◌, IsTrue, EachIndex, slice_index};
ghost use Rattle.raster.specs.Axis as axis;
ghost use Rattle.array.specs.Delivery.{is_order};
ghost use Rattle.frame.specs.File.{positive_memory, frame_dims, frame_allowed};
ghost use Rattle.frame.specs.File as spec;
ghost use Rattle.description.specs.Limits.{dim_limit};

use crate::Frame;

// `within` of the specs, of which the tests below are made.
fn within(least: usize, most: usize, n: usize) -> bool
    ensures { result ≡ spec.within least most n }
{
    (least..=most).contains(&n)
}

fn codes_allowed(f: Frame) -> bool
    ensures { result ≡ (spec.within 1 10 f.datatype && is_order f.byteorder && spec.within 1 2 f.instance && positive_memory f.memory) }
{
    within(1, 10, f.datatype as usize)
        && within(1, 2, f.byteorder as usize)
        && within(1, 2, f.instance as usize)
        && f.memory >= 1
}

const DIM_LIMIT: usize = description::DIM_LIMIT as usize;

fn dims_allowed(dims: &[usize]) -> bool
    ensures { IsTrue result ↔ EachIndex dims.now (λ k. IsTrue (spec.within 1 dim_limit (slice_index dims.now k))) }
{
    dims.iter().all(|dim| within(1, DIM_LIMIT, *dim))
}

// How many configurations n indices have.
fn configurations(n: u8) -> usize
    requires { (1 ≤ n) × (n ≤ 3) }
    ensures { result ≡ axis.configurations n }
{
    match n {
        1 => 2,
        2 => 8,
        _ => 48,
    }
}

pub fn frame_allowed(f: Frame) -> bool
    ensures { result ≡ frame_allowed f }
{
    codes_allowed(f)
        && within(1, 3, f.n as usize)
        && dims_allowed(&[f.dim1, f.dim2, f.dim3][..f.n as usize])
        && within(1, configurations(f.n), f.configuration as usize)
}
