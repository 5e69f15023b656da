// Fields 5 to 7, DataRasterConfiguration, RasterOrientation and DataValueOffset: a number of each. An absent field takes its
// default; 18 has the field's number as position.
ghost use Rattle.std.specs.Prelude.{◌≡◌, pos};
ghost use Rattle.keyword.specs.Viewing.{value_bytes};
ghost use Rattle.origins.specs.Fields.{found_values};
ghost use Rattle.description.specs.Fields.{range_field, whole_field};
ghost use Rattle.description.specs.Parts.{numbers_from};

use super::ranges::number_up_to;
use keyword::Traced;
use origins::Fields;
use scan::Error;
use text::number::whole_number;

// The numbers of fields 5 to 7.
#[derive(Clone, Copy)]
pub struct Numbers {
    pub configuration: u32,
    pub orientation: u32,
    pub offset: i64,
}

// A field that is a number from 1 to `most`, by default 1.
fn range_field(file: &[u8], f: Traced, field: usize, most: u32) -> Result<u32, Error>
    ensures { result ≡ range_field field most 1 (value_bytes file.now f.value) }
{
    match f.value {
        None => Ok(1),
        Some(span) => number_up_to(scan::part(file, span), field, most),
    }
}

fn value_offset(file: &[u8], f: Traced) -> Result<i64, Error>
    ensures { result ≡ whole_field 7 (pos 0) (value_bytes file.now f.value) }
{
    match f.value {
        None => Ok(0),
        Some(span) => whole_number(scan::part(file, span)).ok_or(Error {
            code: 18,
            position: 7,
        }),
    }
}

// Fields 5 to 7, where there are `most` configurations: 18 at 5, 6 or 7.
pub fn numbers_of(file: &[u8], f: Fields<Traced>, most: u32) -> Result<Numbers, Error>
    ensures { result ≡ numbers_from (found_values file.now f) most }
{
    Ok(Numbers {
        configuration: range_field(file, f.configuration, 5, most)?,
        orientation: range_field(file, f.orientation, 6, most)?,
        offset: value_offset(file, f.offset)?,
    })
}
