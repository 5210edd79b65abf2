// Lent bytes that a text is written into, and where it ends so far. A writer of its own: each text is asked to fit, which the library's printing
// does not ask; `texts` writes by position, and its text's end is no field.
ghost use Rattle.std.specs.Prelude.{◌≤◌, length};

use words::put_decimal;

// The bytes, and where the text ends so far.
#[derive(Drop)]
pub struct Page<'a> {
    pub bytes: &'a mut [u8],
    pub end: usize,
    ghost within: { end ≤ length bytes.now },
}

impl<'a> Page<'a> {
    ghost use Rattle.std.specs.Prelude.{◌≡◌, ◌+◌};
    ghost use Rattle.condition.specs.Cond.{atom_text};
    ghost use Rattle.condition_text.specs.Write.{Adds, maybe};

    pub fn new(bytes: &'a mut [u8]) -> Page<'a>
        ensures lent { result.bytes.ghost_name ≡ bytes.entry.ghost_name }
        ensures same { result.bytes.now ≡ bytes.old }
        ensures empty { result.end ≡ 0 }
    {
        Page { bytes, end: 0 }
    }

    // Writes a text after what stands there.
    pub fn put(&mut self, text: &[u8])
        requires { self.old.end + length text.now ≤ length self.old.bytes.now }
        ensures { Adds text.now self.old self.new }
    {
        let end = self.end + text.len();
        self.bytes[self.end..end].copy_from_slice(text);
        self.end = end;
    }

    // The same where it is wanted.
    #[tactic(auto, using(crate::proofs::Stages::none_added))]
    pub fn put_if(&mut self, wanted: bool, text: &[u8])
        requires { self.old.end + length (maybe wanted text.now) ≤ length self.old.bytes.now }
        ensures { Adds (maybe wanted text.now) self.old self.new }
    {
        if wanted {
            self.put(text);
        }
    }

    pub fn put_atom(&mut self, place: u32)
        requires { self.old.end + length (atom_text place) ≤ length self.old.bytes.now }
        ensures { Adds (atom_text place) self.old self.new }
    {
        self.put(b"e");
        self.end += put_decimal(place, &mut self.bytes[self.end..]);
    }
}
