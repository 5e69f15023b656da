// Planes whose rows are delivered as they stand: each row is a run of bytes. A call less for each row than `rows` makes: rows of
// 64 elements go quicker by a third.
ghost use Rattle.std.specs.Prelude.{◌≡◌, false, ◌*◌, length};
ghost use Rattle.raster.specs.Strided.{turned, plane_of};
ghost use Rattle.conversion.specs.Plane.{IsInside, FillsOut, rows_of};
ghost use Rattle.delivery.specs.Flat.{is_run};

use conversion::conversion::{Conversion, Way};
use conversion::rows::Plane;
use elements::runs::run;
use strides::places::Row;

// Whether the elements of a row stand one after another, and none changes.
pub fn are_runs(c: Conversion, row: Row) -> bool
    ensures { result ≡ is_run c row.up row.down }
{
    let unchanged = match c.way {
        Way::Kept => true,
        Way::Reversed => c.width == 1,
        Way::Added(_) => false,
    };
    unchanged && row.up == c.width && row.down == 0
}

// The runs of a plane, one after the other: its elements, and so the bytes of each run.
pub fn runs(src: &[u8], w: usize, plane: Plane, out: &mut [u8])
    requires up { plane.first.up ≡ w }
    requires down { plane.first.down ≡ 0 }
    requires inside { IsInside plane w (length src.now) }
    requires fills { FillsOut plane w (length out.old) }
    ensures elements { out.new ≡ rows_of (turned false) w src.now plane }
    ensures bytes { out.new ≡ plane_of (turned false) 1 src.now plane.first.at 1 0 (w * plane.first.count) plane.up plane.down plane.count }
{
    for i in 0..plane.count {
        let size = w * plane.first.count;
        run(
            src,
            plane.row(w, src, i).at,
            &mut out[size * i..size * (i + 1)],
        );
    }
}
