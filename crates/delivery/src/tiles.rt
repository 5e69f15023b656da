// Planes tile by tile. Where index 1 is not the fastest in the file, the elements of a row stand in as many cache lines, and
// each line holds elements of the next rows too. Of a tile, all lines are used while they are in the cache.
ghost use Rattle.std.specs.Prelude.{◌≡◌, true, false, ℕ, ◌+◌, ◌*◌, ◌<◌, ◌≤◌, length};
ghost use Rattle.raster.specs.Strided.{Width, turned, row_of};
ghost use Rattle.conversion.specs.Converting.{converted};
ghost use Rattle.conversion.specs.Plane.{IsInside, FillsOut, rows_of};
ghost use Rattle.delivery.specs.Tiles.{tiled, tile_row, OneWay, slow_rows};

use conversion::conversion::Conversion;
use conversion::rows::{Plane, rows};
use elements::rows::kept;
use strides::places::{Row, spot};

// Whether rows of n1 elements are slow, where the elements of a row are `slow` bytes apart and those of a column `fast`: a line
// holds elements of several rows, and the lines of a row do not stay in the cache, since they share few places of it or stand
// in more pages than the processor keeps.
fn are_slow(fast: usize, slow: usize, n1: usize) -> bool
    ensures { result ≡ slow_rows fast slow n1 }
{
    fast < 64
        && if slow % 1024 == 0 {
            512 <= n1
        } else {
            4096 <= slow && 2560 <= n1
        }
}

// Whether tiles are quicker than rows.
pub fn are_quicker(plane: Plane) -> bool
    ensures { result ≡ true → OneWay plane.up plane.down }
{
    let row = plane.first;
    let slow = row.up.max(row.down);
    if plane.up == 0 {
        are_slow(plane.down, slow, row.count)
    } else {
        plane.down == 0 && are_slow(plane.up, slow, row.count)
    }
}

// A tile into its rows, out of a copy that has it column by column: of each of n2 rows of n1 elements the k from index m on.
fn spread(copy: &[u8], w: usize, m: usize, k: usize, n1: usize, n2: usize, out: &mut [u8])
    requires width { Width w }
    requires n2_bound { (w * n2 ≤ 256) × (length copy.now ≡ w * n2 * k) }
    requires k_bound { (m + k ≤ n1) × (length out.old ≡ w * n1 * n2) }
    ensures { out.new ≡ tiled (w * n1) n2 (w * m) (w * k) out.old (λ (i : ℕ). row_of (turned false) w copy.now (w * i) (w * n2) 0 k) }
{
    for i in 0..n2 {
        let row = Row {
            at: w * i,
            up: w * n2,
            down: 0,
            count: k,
        };
        let o = w * n1 * i + w * m;
        kept(copy, w, &row, &mut out[o..o + w * k]);
    }
}

// One tile: of each row the k elements from index m on. They are copied column by column.
fn tile(src: &[u8], c: Conversion, plane: Plane, m: usize, k: usize, out: &mut [u8])
    requires width { Width c.width × OneWay plane.up plane.down }
    requires inside { IsInside plane c.width (length src.now) }
    requires part { (m < plane.first.count) × ((m + k ≤ plane.first.count) × (k ≤ 64)) }
    requires rows { (0 < plane.count) × (c.width * plane.count ≤ 256) }
    requires fills { FillsOut plane c.width (length out.old) }
    ensures { out.new ≡ tiled (c.width * plane.first.count) plane.count (c.width * m) (c.width * k) out.old (tile_row (converted c) c.width src.now plane m k) }
{
    let row = plane.first;
    let first = Row {
        at: spot(row.at, row.up, row.down, m, c.width, src.len()),
        up: plane.up,
        down: plane.down,
        count: plane.count,
    };
    let columns = Plane {
        first,
        up: row.up,
        down: row.down,
        count: k,
    };
    let size = c.width * plane.count * k;
    let mut copy = [0; 16384];
    rows(src, &c, &columns, &mut copy[..size]);
    spread(&copy[..size], c.width, m, k, row.count, plane.count, out);
}

// A band: the tiles of a plane of few rows, from the left to the right.
fn band(src: &[u8], c: Conversion, plane: Plane, out: &mut [u8])
    requires width { Width c.width × OneWay plane.up plane.down }
    requires inside { IsInside plane c.width (length src.now) }
    requires rows { (0 < plane.count) × (c.width * plane.count ≤ 256) }
    requires fills { FillsOut plane c.width (length out.old) }
    ensures { out.new ≡ rows_of (converted c) c.width src.now plane }
{
    for m in (0..plane.first.count).step_by(64) {
        let k = (plane.first.count - m).min(64);
        tile(src, c, plane, m, k, out);
    }
}

// The bands of a plane, of 256 bytes along index 2, one after the other. Out of line: small planes do not pay for a tile's array.
#[inline(never)]
pub fn bands(src: &[u8], c: Conversion, plane: Plane, out: &mut [u8])
    requires width { Width c.width × OneWay plane.up plane.down }
    requires inside { IsInside plane c.width (length src.now) }
    requires fills { FillsOut plane c.width (length out.old) }
    ensures { out.new ≡ rows_of (converted c) c.width src.now plane }
{
    let height = 256 / c.width;
    for i in (0..plane.count).step_by(height) {
        let count = (plane.count - i).min(height);
        let part = Plane {
            first: plane.row(c.width, src, i),
            count,
            ..plane
        };
        let size = c.width * plane.first.count;
        band(src, c, part, &mut out[size * i..size * (i + count)]);
    }
}
