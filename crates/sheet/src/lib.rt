// A sheet read in place: accepted, with where its sections stand, or refused by one of the causes 1 to 6; and the text of a name.
#![tactic(auto)]

mod names;
mod sections;
mod trailer;

ghost use Rattle.std.specs.Prelude.{◌≡◌, ◌/◌, ◌≤◌, length};
ghost use Rattle.sheet.specs.Read.{read_sheet};
ghost use Rattle.sheet.specs.Answer.{sheet_of, opened_as, Names};

pub use names::{are_names, check_name, find_name, name_text, text_at};
use refusal::Refusal;
pub use sections::{check_end, read_bindings};
use sections::{check_clauses, check_tables};
use trailer::MAX_BYTES;
pub use trailer::{Places, find_places};

// Where the sections stand, where the sheet is accepted. The two tables have a place for each word of the sheet; where it is accepted, tab
// holds the byte where each name stands in their section, and ids its use id.
pub fn open_in(s: &[u8], tab: &mut [u32], ids: &mut [u32]) -> Result<Places, Refusal>
    requires { (length s.now / 4 ≤ length tab.old) × (length s.now / 4 ≤ length ids.old) }
    ensures { (sheet_of result ≡ opened_as s.now) × Names (read_sheet s.now) s.now tab.new ids.new }
{
    let p = find_places(s)?;
    check_tables(s, p, tab, ids)?;
    check_clauses(s, p)?;
    Ok(p)
}

// The same with tables of N places. No heap: two arrays.
fn open_sized<const N: usize>(s: &[u8]) -> Result<Places, Refusal>
    requires { (length s.now / 4 ≤ N) × (N ≤ 2048) }
    ensures { sheet_of result ≡ opened_as s.now }
{
    let mut tab = [0u32; N];
    let mut ids = [0u32; N];
    open_in(s, &mut tab, &mut ids)
}

// The same with tables of its own, sized to the sheet.
pub fn open(s: &[u8]) -> Result<Places, Refusal>
    ensures { sheet_of result ≡ opened_as s.now }
{
    match s.len() {
        0..=256 => open_sized::<64>(s),
        257..=2048 => open_sized::<512>(s),
        2049..=MAX_BYTES => open_sized::<2048>(s),
        _ => Err(Refusal::Size),
    }
}
