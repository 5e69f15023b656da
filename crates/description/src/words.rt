// Fields 1 to 3, DataType, ByteOrder and Compression: a word of each, as its code. An absent field takes its default; 17 has
// the field's number as position.
ghost use Rattle.std.specs.Prelude.{◌≡◌, ◌<◌, length};
ghost use Rattle.keyword.specs.Viewing.{value_bytes};
ghost use Rattle.origins.specs.Fields.{found_values};
ghost use Rattle.description.specs.Answers.{contents};
ghost use Rattle.description.specs.Describe.{words_of};
ghost use Rattle.description.specs.Fields.{word_field};

use super::codes::{COMPRESSION_WORDS, ORDER_WORDS, TYPE_WORDS, code_of};
use keyword::Traced;
use origins::Fields;
use scan::Error;

// The codes of fields 1 to 3.
#[derive(Clone, Copy)]
pub struct Words {
    pub datatype: u8,
    pub byteorder: u8,
    pub compression: u8,
}

// A field that is one of some words, as its code; `default` where it is absent. 17 at the field.
fn word_field(
    file: &[u8],
    f: Traced,
    field: usize,
    words: &[&[u8]],
    default: u8,
) -> Result<u8, Error>
    requires { length words.now < 256 }
    ensures { result ≡ word_field field (contents words.now) default (value_bytes file.now f.value) }
{
    match f.value {
        None => Ok(default),
        Some(span) => code_of(words, scan::part(file, span)).ok_or(Error {
            code: 17,
            position: field,
        }),
    }
}

// Fields 1 to 3: 17 at 1, 2 or 3.
pub fn words_of(file: &[u8], f: Fields<Traced>) -> Result<Words, Error>
    ensures { result ≡ words_of (found_values file.now f) }
{
    Ok(Words {
        datatype: word_field(file, f.datatype, 1, &TYPE_WORDS, 7)?,
        byteorder: word_field(file, f.byteorder, 2, &ORDER_WORDS, 1)?,
        compression: word_field(file, f.compression, 3, &COMPRESSION_WORDS, 1)?,
    })
}
