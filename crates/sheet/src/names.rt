// The names section: its two tables, and the text of a name as a part of the sheet. Cause 3.
ghost use Rattle.std.specs.Prelude.{◌≡◌, ℕ, ◌/◌, ◌≤◌, length};
ghost use Rattle.tables.specs.Answer.{Roomy};
ghost use Rattle.sheet.specs.Read.{read_text};
ghost use Rattle.sheet.specs.Answer.{sheet_of, judged, text_of, text_told, Tabled, FindsIn, FindsName};

use crate::trailer::find_places;
use refusal::Refusal;
use tables::{are_read, distinct_names, name_at};

// Whether the bytes of s are n names, no two the same: tab gets the byte where each stands, ids its use id. Names are compared one with another:
// `open` lends no words for chains, as the check call and the listing do.
pub fn are_names(s: &[u8], n: u32, tab: &mut [u32], ids: &mut [u32]) -> bool
    requires { Roomy s.now tab.old ids.old }
    ensures { Tabled n s.now tab.new ids.new result }
{
    are_read(s, n, tab, ids) && distinct_names(s, &tab[..n as usize], &ids[..n as usize])
}

// The name with the index i, of n names in the bytes of their section, with tables of N places: the byte where its length stands, and the
// end of the section. No heap: two arrays of N places.
fn find_sized<const N: usize>(s: &[u8], n: u32, i: u32) -> Result<(u32, usize), Refusal>
    requires { (length s.now ≤ 8192) × ((length s.now / 4 ≤ N) × (N ≤ 2048)) }
    ensures { FindsIn n i s.now result }
{
    let mut tab = [0u32; N];
    let mut ids = [0u32; N];
    if !are_names(s, n, &mut tab, &mut ids) {
        return Err(Refusal::Names);
    }
    if i < n {
        return Ok((tab[i as usize], s.len()));
    }
    Err(Refusal::Word)
}

// With tables sized to the section, so that a short one clears few words. A match beside that of `open`: a closure takes no const argument, so one
// choice of sizes can't serve both.
fn find_in(s: &[u8], n: u32, i: u32) -> Result<(u32, usize), Refusal>
    requires { length s.now ≤ 8192 }
    ensures { FindsIn n i s.now result }
{
    match s.len() {
        0..=256 => find_sized::<64>(s, n, i),
        257..=2048 => find_sized::<512>(s, n, i),
        _ => find_sized::<2048>(s, n, i),
    }
}

// The name with the index i of a sheet, by its names section alone.
pub fn find_name(s: &[u8], i: u32) -> Result<(u32, usize), Refusal>
    ensures { FindsName i s.now result }
{
    let p = find_places(s)?;
    find_in(&s[..p.rows * 4], p.names, i)
}

// The text of the name with the index i, as the part of the sheet that holds it. The refusal is 1 to 3, or 5 for an index past the table.
pub fn text_at(s: &[u8], i: u32) -> Result<&[u8], Refusal>
    ensures { text_told result ≡ read_text s.now i }
{
    let (p, e) = find_name(s, i)?;
    Ok(name_at(&s[..e], p as usize))
}

// Whether the name with the index i has a text, or its refusal. Document 01 has a name's text and its refusal as two calls.
pub fn check_name(s: &[u8], i: u32) -> Result<(), Refusal>
    ensures { sheet_of result ≡ judged (read_text s.now i) }
{
    text_at(s, i).map(|_| ())
}

// The text of the name with the index i; empty where check_name refuses. The other of document 01's two calls.
pub fn name_text(s: &[u8], i: u32) -> &[u8]
    ensures { result.now ≡ text_of (read_text s.now i) }
{
    text_at(s, i).unwrap_or_default()
}
