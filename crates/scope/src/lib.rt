// The scope graph (002) on lent lists: lookup of a name from a scope, and the scope at an offset. Lists are flat words, an entry each:
// scopes 4 (kind, parent + 1 or 0, start, end), bindings 7 (scope, name, variable, kind, 1 if it replaced one, the variable replaced or 0, the
// name's mark), carried 4 (barrier, name, variable, the name's mark); a count says how many entries are in use. Kinds, marks, and numbers + 1 with 0
// for none, are the lists' own words, which may be any.
#![tactic(auto)]

ghost use Rattle.std.specs.Prelude.{◌≡◌, suc, ◌/◌, ◌<◌, ◌≤◌, length, map, ◌==◌, ◌&&◌, slice_index, IfOk, IfErr};
ghost use Rattle.std.specs.List.{find, list_any};
ghost use Rattle.std.specs.Option.{option_map};
ghost use Rattle.std.specs.Simd.{first_chunks};
ghost use Rattle.refusal.specs.declared.Refusal.TheVariants.{Asked};
ghost use Rattle.scope.specs.Flat.{scope_of};
ghost use Rattle.scope.specs.Graph.{scope};
ghost use Rattle.scope.specs.Lookup.{carries, lets_on, climb, lookup, lookup_in};
ghost use Rattle.scope.specs.Offset.{offset, better, scope_at_offset};
ghost use Rattle.scope.specs.Answer.{name_of, bound_as, looked_as, offset_as, best_as, scopes_in, bindings_in, carried_in};

mod kind;
mod widths;

pub use kind::ScopeKind;
use refusal::Refusal;
pub use widths::{
    BINDING_WIDTH, CARRIED_WIDTH, FINDING_WIDTH, LOGGED_WIDTH, RECORDED_WIDTH, SCOPE_WIDTH,
};

// A name: an index of the sheet with the mark 0, or the id of a variable with the mark 1.
#[derive(Clone, Copy, Debug, PartialEq, Eq)]
pub struct Name {
    pub mark: u32,
    pub word: u32,
}

// The entries in use of the three lists.
#[derive(Clone, Copy)]
pub struct Graph<'a> {
    pub scopes: &'a [[u32; SCOPE_WIDTH]],
    pub bindings: &'a [[u32; BINDING_WIDTH]],
    pub carried: &'a [[u32; CARRIED_WIDTH]],
}

// What lookup finds: the variable of a name, and the scope that binds it.
#[derive(Clone, Copy)]
pub struct Found {
    pub variable: u32,
    pub scope: u32,
}

// The first entries of a list of flat words; Asked where it has fewer.
#[tactic(auto, using(crate::proofs::Listed::front))]
fn in_use<const WIDTH: usize>(words: &[u32], count: usize) -> Result<&[[u32; WIDTH]], Refusal>
    requires { 0 < WIDTH }
    ensures ok { IfOk result (λ list. (count ≤ length words.now / WIDTH) × (list.now ≡ first_chunks WIDTH count words.now)) }
    ensures err { IfErr result (λ cause. (length words.now / WIDTH < count) × (cause ≡ Asked)) }
{
    let (all, _) = words.as_chunks::<WIDTH>();
    if all.len() < count {
        return Err(Refusal::Asked);
    }
    Ok(&all[..count])
}

impl Graph<'_> {
    // The variable of the first binding that fits the scope and the name.
    fn bound_in(&self, scope: u32, name: Name) -> Option<u32>
        ensures { result ≡ option_map (λ e. slice_index e 2) (find (λ e. slice_index e 0 == scope && (slice_index e 6 == name.mark && slice_index e 1 == name.word)) self.now.bindings.now) }
    {
        let Name { mark, word } = name;
        self.bindings
            .iter()
            .find(|[of, called, _, _, _, _, marked]| {
                *of == scope && (*marked == mark && *called == word)
            })
            .map(|[_, _, variable, _, _, _, _]| *variable)
    }

    // Whether the barrier carries the name.
    fn carried_by(&self, barrier: u32, name: Name) -> bool
        ensures { result ≡ list_any (λ e. slice_index e 0 == barrier && (slice_index e 3 == name.mark && slice_index e 1 == name.word)) self.now.carried.now }
    {
        let Name { mark, word } = name;
        self.carried.iter().any(|[past, called, _, marked]| {
            *past == barrier && (*marked == mark && *called == word)
        })
    }

    // Whether a name may go on from a scope of the kind to its parent: not past a WithBarrier that doesn't carry it.
    #[tactic(auto, using(crate::proofs::Listed::carried_where))]
    fn passes(&self, kind: u32, scope: u32, name: Name) -> bool
        ensures { result ≡ lets_on kind (carries (carried_in self.now) scope (name_of name)) }
    {
        kind != ScopeKind::WithBarrier as u32 || self.carried_by(scope, name)
    }

    // From a scope up its parents, each of which lies below its child.
    fn climb(&self, from: u32, name: Name) -> Result<Option<Found>, Refusal>
        requires { from < length self.now.scopes.now }
        ensures { looked_as result ≡ climb (scopes_in self.now) (bindings_in self.now) (carried_in self.now) (suc from) from (name_of name) }
    {
        let mut scope = from;
        // Up the scopes: each turn says where the next begins.
        loop {
            if let Some(variable) = self.bound_in(scope, name) {
                return Ok(Some(Found { variable, scope }));
            }
            let [kind, parent, _, _] = self.scopes[scope as usize];
            if parent == 0 || !self.passes(kind, scope, name) {
                return Ok(None);
            }
            if scope <= parent - 1 {
                return Err(Refusal::Asked);
            }
            scope = parent - 1;
        }
    }

    // The variable that a name has in a scope, and the scope that binds it: the first binding on the way up; a WithBarrier lets through only
    // names that it carries. Asked where there is no such scope, or a parent on the way is not below its child.
    #[tactic(auto, using(crate::proofs::Listed::counted), unfolding(crate::specs::Lookup::lookup_in))]
    pub fn lookup(&self, scope: u32, name: Name) -> Result<Option<Found>, Refusal>
        ensures { looked_as result ≡ lookup_in (scopes_in self.now) (bindings_in self.now) (carried_in self.now) scope (name_of name) }
    {
        if self.scopes.len() <= scope as usize {
            return Err(Refusal::Asked);
        }
        self.climb(scope, name)
    }
}

// Lookup on lent lists, in eight parameters since C gives each list with its count; Asked also where a count is above its list's entries, and for a
// mark that is neither 0 nor 1.
#[tactic(auto, using(crate::proofs::Listed::scopes_listed, crate::proofs::Listed::bindings_listed, crate::proofs::Listed::carried_listed), unfolding(crate::specs::Lookup::lookup))]
pub fn lookup(
    scopes: &[u32],
    a: usize,
    bindings: &[u32],
    b: usize,
    carried: &[u32],
    c: usize,
    scope: u32,
    name: Name,
) -> Result<Option<Found>, Refusal>
    ensures { looked_as result ≡ lookup a scopes.now b bindings.now c carried.now scope (name_of name) }
{
    if 1 < name.mark {
        return Err(Refusal::Asked);
    }
    let graph = Graph {
        scopes: in_use(scopes, a)?,
        bindings: in_use(bindings, b)?,
        carried: in_use(carried, c)?,
    };
    graph.lookup(scope, name)
}

// The scope i takes the place of the best so far, a scope's number and the width of its span, where it covers the offset and is no wider.
#[tactic(auto, unfolding(crate::specs::Offset::better, crate::specs::Offset::covers, crate::specs::Offset::width))]
fn better(
    o: u32,
    i: usize,
    entry: &[u32; SCOPE_WIDTH],
    best: Option<(usize, u32)>,
) -> Option<(usize, u32)>
    ensures { best_as result ≡ better o i (scope_of entry.now) (best_as best) }
{
    let [_, _, start, end] = *entry;
    if end <= start || o < start || end < o {
        return best;
    }
    match best {
        Some((_, width)) if width < end - start => best,
        _ => Some((i, end - start)),
    }
}

// The scope whose span covers an offset: ends included, empty spans skipped, the narrowest, then the highest number.
#[tactic(auto, using(crate::proofs::Listed::next_listed, crate::proofs::Listed::none_listed), unfolding(crate::specs::Offset::narrowest, crate::specs::Offset::scope_at_offset))]
fn narrowest(scopes: &[[u32; SCOPE_WIDTH]], o: u32) -> Option<usize>
    ensures { bound_as result ≡ scope_at_offset (map scope_of scopes.now) o }
{
    let mut best = None;
    for (i, entry) in scopes.iter().enumerate() {
        best = better(o, i, entry, best);
    }
    best.map(|(i, _)| i)
}

// The scope at an offset on a lent list; Asked where the count is above the list's entries.
#[tactic(auto, using(crate::proofs::Listed::scopes_listed), unfolding(crate::specs::Offset::offset))]
pub fn scope_at_offset(scopes: &[u32], n: usize, o: u32) -> Result<Option<usize>, Refusal>
    ensures { offset_as result ≡ offset n scopes.now o }
{
    Ok(narrowest(in_use(scopes, n)?, o))
}
