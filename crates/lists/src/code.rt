// A code of a list: twelve bytes at most.
ghost use Rattle.std.specs.Prelude.{◌≡◌, if◌then◌else◌, length, nat_le, Some, None};

use std::marker::Model;

// What stands in `bytes` behind the first `count` never counts.
#[derive(Drop)]
pub struct Code {
    bytes: [u8; 12],
    count: usize,
}

impl Model for Code {
    ghost use Rattle.std.specs.Prelude.{ℕ, ◌≤◌, List, take};

    ghost Value = { List ℕ };

    ghost view = { λ c. take c.count c.bytes };

    ghost invariant = { λ c. c.count ≤ 12 };
}

impl Code {
    // The code of these bytes, if they are not too many.
    pub fn new(bytes: &[u8]) -> Option<Code>
        ensures { result ≡ (if nat_le (length bytes.now) 12 then Some bytes.now else None) }
    {
        let count = bytes.len();
        if count > 12 {
            return None;
        }
        let mut all = [0; 12];
        all[..count].copy_from_slice(bytes);
        Some(Code { bytes: all, count })
    }

    pub fn as_bytes(&self) -> &[u8]
        ensures { result.now ≡ self.now }
    {
        &self.bytes[..self.count]
    }
}
