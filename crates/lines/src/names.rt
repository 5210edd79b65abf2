// The names of a sheet, as its findings cite them.
ghost use Rattle.std.specs.Prelude.{◌≤◌, length};

use finding::Finding;
use tables::{VarName, name_at};

// The names section, no longer than a sheet, and the byte where each name stands.
#[derive(Clone, Copy)]
pub struct Names<'a> {
    pub section: &'a [u8],
    pub places: &'a [u32],
    pub ghost short: { length section.now ≤ 8192 },
}

// The text of a name: a part of the sheet, or that of a generated one.
#[derive(Clone, Copy)]
pub enum NameText<'a> {
    Listed(&'a [u8]),
    Generated(VarName),
}

impl NameText<'_> {
    ghost use Rattle.std.specs.Prelude.{◌≡◌};
    ghost use Rattle.lines.specs.Given.{bytes_in};

    pub fn bytes(&self) -> &[u8]
        ensures { result.now ≡ bytes_in self.now }
    {
        match self {
            NameText::Listed(text) => text,
            NameText::Generated(name) => name.text(),
        }
    }
}

impl<'a> Names<'a> {
    ghost use Rattle.std.specs.Prelude.{◌≡◌};
    ghost use Rattle.semantics.specs.Log.{cited};
    ghost use Rattle.finding.specs.Flat.{cited_by};
    ghost use Rattle.lines.specs.Lines.{name_of};
    ghost use Rattle.lines.specs.Given.{texts_of, bytes_in};

    // The name that a finding cites.
    pub fn text(&self, f: Finding) -> NameText<'a>
        ensures { bytes_in result ≡ name_of (texts_of self.now) (cited_by f.mark f.name) }
    {
        if f.mark == 0 {
            return NameText::Listed(self.listed(f.name));
        }
        NameText::Generated(VarName::new(f.name))
    }

    // The sheet's name that is cited as its index + 1; no byte for 0, and where none stands.
    fn listed(&self, name: u32) -> &'a [u8]
        ensures { result.now ≡ name_of (texts_of self.now) (cited name) }
    {
        let Some(i) = name.checked_sub(1) else {
            return b"";
        };
        self.places
            .get(i as usize)
            .map_or(b"", |p| name_at(self.section, *p as usize))
    }
}
