// The elements of an array in the order of their indices.
ghost use Rattle.std.specs.Prelude.{◌≡◌, ◌*◌, ◌^◌, ◌<◌, ◌≤◌, length};
ghost use Rattle.scan.specs.Buffer.{over};
ghost use Rattle.raster.specs.Strided.{Inside3, Width, delivered_at};
ghost use Rattle.raster.specs.Types.{type_of};
ghost use Rattle.conversion.specs.Converting.{converted};
ghost use Rattle.conversion.specs.Plane.{IsInside, FillsOut, rows_of};
ghost use Rattle.delivery.specs.Flat.{flat, flat_cube};
ghost use Rattle.delivery.specs.Cube.{IsCubeInside, HasRoom, plane_at, planes_of};

use crate::runs::{are_runs, runs};
use crate::tiles::{are_quicker, bands};
use conversion::conversion::{Conversion, conversion_of};
use conversion::rows::{Plane, row, rows};
use raster::stride::Steps;
use strides::places::{Row, spot};

// Planes at a stride: the first of them, each next one `up` bytes above, or `down` bytes below, and how many they are.
#[derive(Clone, Copy)]
pub struct Cube {
    pub first: Plane,
    pub up: usize,
    pub down: usize,
    pub count: usize,
}

impl Cube {
    // The plane with index i. `w` is for the contract alone.
    fn plane(self, w: usize, src: &[u8], i: usize) -> Plane
        requires inside { IsCubeInside self w (length src.now) }
        requires below { i < self.count }
        ensures { result ≡ plane_at self i }
    {
        let row = self.first.first;
        let at = spot(row.at, self.up, self.down, i, 0, src.len());
        Plane {
            first: Row { at, ..row },
            ..self.first
        }
    }
}

// Whether the rows of a plane stand one after another.
fn is_flat(w: usize, plane: Plane) -> bool
    requires { w * plane.first.count < 2 ^ 64 }
    ensures { result ≡ flat w plane }
{
    let row = plane.first;
    row.up == w && row.down == 0 && plane.down == 0 && plane.up == w * row.count
}

// Whether the planes of a cube stand one after another too.
fn is_flat_cube(w: usize, cube: Cube) -> bool
    requires { (w * cube.first.first.count < 2 ^ 64) × (w * cube.first.first.count * cube.first.count < 2 ^ 64) }
    ensures { result ≡ flat_cube w cube }
{
    let plane = cube.first;
    cube.down == 0 && cube.up == w * plane.first.count * plane.count && is_flat(w, plane)
}

// A plane: as one row, where its rows stand one after another; run by run, where its rows are delivered as they stand; by tiles,
// where that is quicker; else row by row.
fn deliver_plane(src: &[u8], c: &Conversion, plane: &Plane, out: &mut [u8])
    requires width { Width c.now.width }
    requires inside { IsInside plane.now c.now.width (length src.now) }
    requires row_bound { c.now.width * plane.now.first.count < 2 ^ 64 }
    requires fills { FillsOut plane.now c.now.width (length out.old) }
    ensures { out.new ≡ rows_of (converted c.now) c.now.width src.now plane.now }
{
    if is_flat(c.width, *plane) {
        let count = plane.first.count * plane.count;
        row(
            src,
            c,
            &Row {
                count,
                ..plane.first
            },
            out,
        );
    } else if are_runs(*c, plane.first) {
        runs(src, c.width, *plane, out);
    } else if are_quicker(*plane) {
        bands(src, *c, *plane, out);
    } else {
        rows(src, c, plane, out);
    }
}

// The planes of a cube, one after the other, at the front of `out`.
fn deliver_planes(src: &[u8], c: Conversion, cube: Cube, out: &mut [u8])
    requires width { Width c.width }
    requires inside { IsCubeInside cube c.width (length src.now) }
    requires room { HasRoom cube c.width (length out.old) }
    ensures { out.new ≡ over (planes_of (converted c) c.width src.now cube) out.old }
{
    for i in 0..cube.count {
        let size = c.width * cube.first.first.count * cube.first.count;
        deliver_plane(
            src,
            &c,
            &cube.plane(c.width, src, i),
            &mut out[size * i..size * (i + 1)],
        );
    }
}

// A cube: as one row, where its planes stand one after another; as one plane, where each has one row; else plane by plane.
fn deliver_cube(src: &[u8], c: Conversion, cube: Cube, out: &mut [u8])
    requires width { Width c.width }
    requires inside { IsCubeInside cube c.width (length src.now) }
    requires room { HasRoom cube c.width (length out.old) }
    ensures { out.new ≡ over (planes_of (converted c) c.width src.now cube) out.old }
{
    if 1 < cube.count && is_flat_cube(c.width, cube) {
        let plane = cube.first;
        let count = plane.first.count * plane.count * cube.count;
        row(
            src,
            &c,
            &Row {
                count,
                ..plane.first
            },
            &mut out[..c.width * count],
        );
    } else if cube.first.count == 1 {
        let rows = Plane {
            first: cube.first.first,
            up: cube.up,
            down: cube.down,
            count: cube.count,
        };
        let size = c.width * rows.first.count * rows.count;
        deliver_plane(src, &c, &rows, &mut out[..size]);
    } else {
        deliver_planes(src, c, cube, out);
    }
}

// The array of the elements at the steps `t`, of the type with the code `datatype`, stored in the order `byteorder`: in the
// order asked for and with the offset added, at the front of `out`. What follows there stays.
pub fn deliver(
    src: &[u8],
    datatype: u8,
    byteorder: u8,
    offset: i64,
    asked: u8,
    t: Steps,
    dim1: usize,
    dim2: usize,
    dim3: usize,
    out: &mut [u8],
)
    requires inside3 { Inside3 t dim1 dim2 dim3 (type_of datatype).width (length src.now) }
    requires dim1_bound { ((type_of datatype).width * dim1 < 2 ^ 64) × ((type_of datatype).width * dim1 * dim2 * dim3 ≤ length out.old) }
    ensures { out.new ≡ over (delivered_at (type_of datatype) byteorder offset asked src.now t dim1 dim2 dim3) out.old }
{
    let first = Row {
        at: t.at,
        up: t.up1,
        down: t.down1,
        count: dim1,
    };
    let first = Plane {
        first,
        up: t.up2,
        down: t.down2,
        count: dim2,
    };
    let cube = Cube {
        first,
        up: t.up3,
        down: t.down3,
        count: dim3,
    };
    deliver_cube(
        src,
        conversion_of(datatype, byteorder, offset, asked),
        cube,
        out,
    );
}
