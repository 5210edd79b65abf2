// The tables of a sheet: its names and their use ids, its bindings hung up in chains; and what the walks go by. Causes 3 and 4. The lists
// are parameters each: see walk_sheet.
ghost use Rattle.std.specs.Prelude.{◌≡◌, ◌+◌, ◌*◌, ◌≤◌, length, take};
ghost use Rattle.words.specs.Words.{words};
ghost use Rattle.tables.specs.Answer.{Roomy};
ghost use Rattle.sheet.specs.Answer.{InPlaces, Tabled};
ghost use Rattle.sheet.specs.Read.{locate, accepted};
ghost use Rattle.sheet_walk.specs.Parts.{Slots, Clear, RowedAs, HungAs, Settling, Settles, ReadsAs};

use crate::Choice;
use heads::Section;
use name_chains::are_names;
use refusal::Refusal;
use rows::{Index, Rows, multiplier};
use sheet::{Places, read_bindings};
use steps::{Context, Texts};
use tables::index_of;
use words::word;

// How many slots n bindings have: two for each, and eight.
fn slots_for(n: u32) -> usize
    requires { n ≤ 2048 }
    ensures { Slots n result }
{
    n as usize * 2 + 8
}

// The names: where they stand and their use ids; whether they are right. The last words are scratch.
fn names_of(s: &[u8], p: Places, places: &mut [u32], ids: &mut [u32], held: &mut [u32]) -> bool
    requires { InPlaces s.now p × (Roomy s.now places.old ids.old × (length (words s.now) ≤ length held.old)) }
    ensures kept { length held.new ≡ length held.old }
    ensures tabled { Tabled p.names (take (p.rows * 4) s.now) places.new ids.new result }
{
    are_names(&s[..p.rows * 4], p.names, places, ids, held)
}

// The n bindings from the word `rows` on, hung up, where no two have the same variable.
fn hang(s: &[u8], chains: &mut [u32], rows: usize, n: u32) -> Option<Index>
    requires { ((rows + n * 5 + 8 ≤ length (words s.now)) × (n ≤ 2048)) × Clear (length (words s.now)) chains.old }
    ensures { HungAs (words s.now) rows n chains.old chains.new result }
{
    let index = Index {
        first: rows,
        count: n,
        mult: multiplier(n, |row| word(s, rows + row as usize * 5)),
        slots: slots_for(n),
    };
    index.hang_rows(s, chains).then_some(index)
}

// The bindings: read, and hung up.
fn rows_of(s: &[u8], p: Places, chains: &mut [u32]) -> Result<Index, Refusal>
    requires { (InPlaces s.now p × (p.names ≤ p.rows)) × Clear (length (words s.now)) chains.old }
    ensures { RowedAs s.now p chains.old chains.new result }
{
    read_bindings(s, p)?;
    hang(s, chains, p.rows, p.bindings).ok_or(Refusal::Bindings)
}

// Both tables. The last words are scratch.
pub fn read_tables(
    s: &[u8],
    p: Places,
    places: &mut [u32],
    ids: &mut [u32],
    chains: &mut [u32],
    held: &mut [u32],
) -> Result<Index, Refusal>
    requires { ((locate s.now ≡ accepted p) × (Roomy s.now places.old ids.old × (length (words s.now) ≤ length held.old))) × Clear (length (words s.now)) chains.old }
    ensures sized { (length places.new ≡ length places.old) × ((length ids.new ≡ length ids.old) × ((length chains.new ≡ length chains.old) × (length held.new ≡ length held.old))) }
    ensures reads { ReadsAs s.now p places.new ids.new chains.new result }
{
    if !names_of(s, p, places, ids, held) {
        return Err(Refusal::Names);
    }
    rows_of(s, p, chains)
}

// What the walks go by: the words are the sheet's, and no name is hushed.
pub fn context_of<'a>(
    s: &'a [u8],
    p: Places,
    choice: Choice,
    index: Index,
    places: &'a [u32],
    ids: &'a [u32],
    chains: &'a [u32],
) -> Context<'a>
    requires { Settling s.now p places.now ids.now }
    ensures { Settles s.now p choice index places.now ids.now chains.now result }
{
    let part = &s[..p.rows * 4];
    let places = &places[..p.names as usize];
    let named = &ids[..p.names as usize];
    Context {
        section: Section {
            bytes: s,
            names: p.names,
            rows: p.rows,
        },
        rows: Rows {
            bytes: s,
            chains,
            index,
        },
        texts: Texts {
            section: part,
            places,
        },
        uses: ids,
        hushed: &[],
        star: index_of(part, places, named, b"*"),
        ident: index_of(part, places, named, b"id"),
        warns: choice.warns,
        wants: choice.wants,
    }
}
