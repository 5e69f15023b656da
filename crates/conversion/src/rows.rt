// Rows of an array: one, and one after another.
ghost use Rattle.std.specs.Prelude.{◌≡◌, ◌<◌, length};
ghost use Rattle.raster.specs.Strided.{Width};
ghost use Rattle.strides.specs.Row.{Fits, elements_of};
ghost use Rattle.conversion.specs.Converting.{made_by, converted};
ghost use Rattle.conversion.specs.Plane.{IsInside, FillsOut, row_at, rows_of};

use crate::conversion::{Conversion, Way};
use elements::rows::{kept, reversed};
use offsets::adding::Added;
use offsets::rows::with_offset;
use shift::lane::Lane;
use std::marker::PhantomData;
use strides::changes::{Change, Kept, Reversed};
use strides::places::{Row, spot};
use strides::rows::each;

// Rows at a stride: the first of them, each next one `up` bytes above, or `down` bytes below, and how many they are.
#[derive(Clone, Copy)]
pub struct Plane {
    pub first: Row,
    pub up: usize,
    pub down: usize,
    pub count: usize,
}

impl Plane {
    // The row with index i.
    pub fn row(self, w: usize, src: &[u8], i: usize) -> Row
        requires inside { IsInside self w (length src.now) }
        requires below { i < self.count }
        ensures { result ≡ row_at self i }
    {
        let at = spot(self.first.at, self.up, self.down, i, 0, src.len());
        Row { at, ..self.first }
    }
}

// A row: by the loop for what its elements need. What is passed comes as a reference, here and below: a struct that was just made is
// slow to copy.
pub fn row(src: &[u8], c: &Conversion, row: &Row, out: &mut [u8])
    requires width { Width c.now.width }
    requires fits { Fits row.now c.now.width (length src.now) (length out.old) }
    ensures { out.new ≡ elements_of (converted c.now) c.now.width src.now row.now }
{
    match c.way {
        Way::Kept => kept(src, c.width, row, out),
        Way::Reversed => reversed(src, c.width, row, out),
        Way::Added(a) => with_offset(src, c.width, row, a, out),
    }
}

// The rows of a plane, one after the other, each element changed.
fn rows_by<const W: usize, C: Change<W>>(src: &[u8], plane: &Plane, by: &C, out: &mut [u8])
    requires inside { IsInside plane.now W (length src.now) }
    requires fills { FillsOut plane.now W (length out.old) }
    ensures { out.new ≡ rows_of (C.made by.now) W src.now plane.now }
{
    for i in 0..plane.count {
        let size = W * plane.first.count;
        each::<W, C>(
            src,
            plane.row(W, src, i),
            by,
            &mut out[size * i..size * (i + 1)],
        );
    }
}

fn rows_of_width<const W: usize, T: Lane<W>>(src: &[u8], way: Way, plane: &Plane, out: &mut [u8])
    requires inside { IsInside plane.now W (length src.now) }
    requires fills { FillsOut plane.now W (length out.old) }
    ensures { out.new ≡ rows_of (made_by W way) W src.now plane.now }
{
    match way {
        Way::Kept => rows_by::<W, _>(src, plane, &Kept, out),
        Way::Reversed => rows_by::<W, _>(src, plane, &Reversed, out),
        Way::Added(a) => {
            let added = Added::<T> {
                by: a,
                of: PhantomData,
            };
            rows_by::<W, _>(src, plane, &added, out);
        }
    }
}

// Rows that go one element a turn. The loop for the elements is chosen once for all rows: to choose it takes longer than a short row.
// Out of line, so that its loops do not slow the one of `rows`.
#[inline(never)]
fn single_rows(src: &[u8], c: &Conversion, plane: &Plane, out: &mut [u8])
    requires width { Width c.now.width }
    requires inside { IsInside plane.now c.now.width (length src.now) }
    requires fills { FillsOut plane.now c.now.width (length out.old) }
    ensures { out.new ≡ rows_of (converted c.now) c.now.width src.now plane.now }
{
    match c.width {
        8 => rows_of_width::<8, u64>(src, c.way, plane, out),
        4 => rows_of_width::<4, u32>(src, c.way, plane, out),
        2 => rows_of_width::<2, u16>(src, c.way, plane, out),
        _ => rows_of_width::<1, u8>(src, c.way, plane, out),
    }
}

// The rows of a plane, one after the other.
pub fn rows(src: &[u8], c: &Conversion, plane: &Plane, out: &mut [u8])
    requires width { Width c.now.width }
    requires inside { IsInside plane.now c.now.width (length src.now) }
    requires fills { FillsOut plane.now c.now.width (length out.old) }
    ensures { out.new ≡ rows_of (converted c.now) c.now.width src.now plane.now }
{
    let first = plane.first;
    // Many rows that are short, or that `row` would take element by element too; of more elements it takes no longer.
    let single = plane.count > 8
        && first.count < 128
        && match c.way {
            Way::Kept => first.up != c.width && (first.down != c.width || first.count < 16),
            Way::Reversed => first.up != c.width && first.down != c.width || first.count < 16,
            Way::Added(_) => true,
        };
    if single {
        single_rows(src, c, plane, out);
    } else {
        for i in 0..plane.count {
            let size = c.width * plane.first.count;
            row(
                src,
                c,
                &plane.row(c.width, src, i),
                &mut out[size * i..size * (i + 1)],
            );
        }
    }
}
