ghost use Rattle.std.specs.Prelude.{◌≡◌};
ghost use Rattle.std.specs.List.{list_all};
ghost use Rattle.plain_words.specs.Names.{is_delimiter as delimiter_spec, is_name as name_spec, is_name_byte as name_byte_spec};

use page_model::bounds::LONGEST_NAME;

/// Whether the bytes are the name of a colorant: 1 to 64 bytes from 33 to 126, without the delimiters of the job
/// language. The form is this project's own.
pub fn is_name(name: &[u8]) -> bool
    ensures { result ≡ name_spec name.now }
{
    1 <= name.len() && name.len() <= LONGEST_NAME && are_name_bytes(name)
}

fn are_name_bytes(name: &[u8]) -> bool
    ensures { result ≡ list_all name_byte_spec name.now }
{
    name.iter().all(|byte| is_name_byte(*byte))
}

fn is_name_byte(byte: u8) -> bool
    ensures { result ≡ name_byte_spec byte }
{
    33 <= byte && byte <= 126 && !is_delimiter(byte)
}

fn is_delimiter(byte: u8) -> bool
    ensures { result ≡ delimiter_spec byte }
{
    matches!(
        byte,
        b'(' | b')' | b'<' | b'>' | b'[' | b']' | b'{' | b'}' | b'/' | b'%'
    )
}
