// A whole sheet, read and walked in one: the tables of names and bindings, the head, the arms. Causes 1 to 6. `held`, `marks` and `carried` are
// lent beside the walk: a WITH's pairs and a context borrow them, and what a struct borrows from another's field is not known afterwards.
#![tactic(auto)]

mod reading;
mod walking;

ghost use Rattle.std.specs.Prelude.{◌≡◌, length};
ghost use Rattle.words.specs.Words.{words};
ghost use Rattle.sheet_walk.specs.Runs.{Clean, Still, Runs};
ghost use Rattle.sheet_walk.specs.Parts.{Walking, WalksBy};

use reading::{context_of, read_tables};
use refusal::Refusal;
use rows::Index;
use sheet::{Places, find_places};
use steps::Walk;
use walking::walk_all;

// What is asked for: warnings, and every event and not findings alone.
#[derive(Clone, Copy, Debug, PartialEq, Eq)]
pub struct Choice {
    pub warns: bool,
    pub wants: bool,
}

// The words that a run works in. After it `places` and `ids` have where each name stands and its use id, `chains` the rows of the bindings, and
// the walk what was found, and how many bindings were made and names carried. Places and ids are two lists, as in crate tables: the one is read without
// the other. That it is Clean, as long as the sheet asks and zero where it must be, is asked for and is no ghost field: a run writes these words.
#[derive(Drop)]
pub struct Scratch<'a> {
    pub places: &'a mut [u32],
    pub ids: &'a mut [u32],
    pub chains: &'a mut [u32],
    pub marks: &'a mut [u32],
    pub held: &'a mut [u32],
    pub walk: Walk<'a>,
}

// The walks over a sheet whose tables were read. What a context borrows is known afterwards only where it came as a parameter, so each does.
fn walk_sheet(
    s: &[u8],
    p: Places,
    choice: Choice,
    index: Index,
    places: &[u32],
    ids: &[u32],
    chains: &[u32],
    walk: &mut Walk,
    held: &mut [u32],
    marks: &mut [u32],
    carried: &mut [u32],
) -> Result<(), Refusal>
    requires { Walking s.now p index places.now ids.now chains.now held.old marks.old walk.old }
    ensures same { marks.new ≡ marks.old }
    ensures kept { length held.new ≡ length held.old }
    ensures walks { WalksBy s.now p choice index places.now ids.now chains.now walk.old carried.old walk.new carried.new result }
{
    let mut context = context_of(s, p, choice, index, places, ids, chains);
    walk_all(walk, &mut context, p, held, marks, carried)
}

// The whole sheet: where its bindings stand, and how they hang. The carried list has what is carried where it has room for it.
pub fn run(
    s: &[u8],
    choice: Choice,
    scratch: &mut Scratch,
    carried: &mut [u32],
) -> Result<Index, Refusal>
    requires { Clean (length (words s.now)) scratch.old }
    ensures still { Still scratch.old scratch.new }
    ensures lent { length carried.new ≡ length carried.old }
    ensures runs { Runs choice s.now scratch.new carried.old carried.new result }
{
    let p = find_places(s)?;
    let places = &mut *scratch.places;
    let ids = &mut *scratch.ids;
    let chains = &mut *scratch.chains;
    let marks = &mut *scratch.marks;
    let held = &mut *scratch.held;
    let index = read_tables(s, p, places, ids, chains, held)?;
    let walk = &mut scratch.walk;
    walk_sheet(
        s, p, choice, index, places, ids, chains, walk, held, marks, carried,
    )?;
    Ok(index)
}
