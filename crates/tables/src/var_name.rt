// The text of the name of a variable that has no row, and such a name by its text.
ghost use Rattle.std.specs.Prelude.{◌≡◌, ◌≤◌, take};
ghost use Rattle.tables.specs.Name.{name_at};
ghost use Rattle.tables.specs.VarName.{var_name, VarId};

use crate::names::name_at;
use words::put_decimal;

// The text, of which no more than 15 bytes are in use.
#[derive(Clone, Copy)]
pub struct VarName {
    bytes: [u8; 15],
    len: usize,
    ghost within: { len ≤ 15 },
}

impl VarName {
    // The name of a variable.
    pub fn new(v: u32) -> VarName
        ensures { take result.len result.bytes ≡ var_name v }
    {
        let mut bytes = *b"__var0000000000";
        let digits = put_decimal(v, &mut bytes[5..]);
        VarName {
            bytes,
            len: 5 + digits,
        }
    }

    // Its text.
    pub fn text(&self) -> &[u8]
        ensures { result.now ≡ take self.now.len self.now.bytes }
    {
        &self.bytes[..self.len]
    }
}

// The variable whose name a text is.
fn var_id(text: &[u8]) -> Option<u32>
    ensures { VarId text.now result }
{
    let digits = text.strip_prefix(b"__var")?;
    // The number that the bytes would say as digits; whether they do is told by its name.
    let mut v: u32 = 0;
    for digit in digits {
        v = v
            .wrapping_mul(10)
            .wrapping_add(u32::from(*digit).wrapping_sub(48));
    }
    if VarName::new(v).text() == text {
        return Some(v);
    }
    None
}

// The variable of the name whose length stands at the byte p, if it is a variable's. Nearly all others are told by their first four bytes, before
// the text is read.
pub fn var_at(s: &[u8], p: u32) -> Option<u32>
    ensures { VarId (name_at s.now p) result }
{
    let at = p as usize;
    let Some(head) = s.get(at + 4..at + 8) else {
        return None;
    };
    if head != b"__va".as_slice() {
        return None;
    }
    var_id(name_at(s, at))
}
