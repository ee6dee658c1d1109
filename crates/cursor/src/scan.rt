// How far a value reaches.
ghost use Rattle.std.specs.Prelude.{◌≡◌, ◌+◌, ◌≤◌, length, drop};
ghost use Rattle.cursor.specs.Scan.{value_len};

// The place of the < behind the value that begins at `from`. It is the chain of `past_white` with another test; one function
// for both would need a contract for the test.
pub(crate) fn value_end(upload: &[u8], from: usize) -> usize
    requires { from ≤ length upload.now }
    ensures { result ≡ from + value_len (drop from upload.now) }
{
    from + upload[from..].iter().take_while(|b| **b != b'<').count()
}
