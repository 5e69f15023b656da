// The fields of a block's array, each looked up once.
ghost use Rattle.std.specs.Prelude.{◌≡◌};
ghost use Rattle.keyword.specs.Trace.{trace_in};
ghost use Rattle.keyword.specs.Viewing.{view_at};
ghost use Rattle.origins.specs.Fields.{by_name, found};
ghost use Rattle.origins.specs.Origins.{found_origins};

use super::{Fields, Origins};
use keyword::lookup::trace;
use keyword::{Block, Traced};

// Each of the seven as its keyword is found.
pub fn fields_of(file: &[u8], b: Block) -> Fields<Traced>
    ensures { found file.now result ≡ by_name (trace_in (view_at file.now b)) }
{
    Fields {
        datatype: trace(file, b, b"DataType"),
        byteorder: trace(file, b, b"ByteOrder"),
        compression: trace(file, b, b"Compression"),
        dims: trace(file, b, b"Dim_1"),
        configuration: trace(file, b, b"DataRasterConfiguration"),
        orientation: trace(file, b, b"RasterOrientation"),
        offset: trace(file, b, b"DataValueOffset"),
    }
}

// Where each came from.
pub fn origins_of(f: Fields<Traced>) -> Origins
    ensures { result ≡ found_origins f }
{
    Fields {
        datatype: f.datatype.origin,
        byteorder: f.byteorder.origin,
        compression: f.compression.origin,
        dims: f.dims.origin,
        configuration: f.configuration.origin,
        orientation: f.orientation.origin,
        offset: f.offset.origin,
    }
}
