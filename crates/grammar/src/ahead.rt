// What stands next at a place of an upload. Upload and place are taken apart here: each pass over an upload has a type of its
// own that holds both.
ghost use Rattle.std.specs.Prelude.{◌≡◌, ◌+◌, drop};
ghost use Rattle.grammar.specs.Ahead.{white_len, closes};

use crate::bytes::is_white;

// The place behind the white space that begins at a place.
pub fn past_white(upload: &[u8], from: usize) -> usize
    ensures { result ≡ from + white_len (drop from upload.now) }
{
    let rest = upload.get(from..).unwrap_or_default();
    from + rest.iter().take_while(|b| is_white(**b)).count()
}

// Of a tag at a place, whether it is a closing one.
pub fn closes(upload: &[u8], at: usize) -> bool
    ensures { result ≡ closes (drop at upload.now) }
{
    matches!(upload.get(at..), Some([_, b'/', ..]))
}
