// The visible names in lent words, a name as its place: for each place where its newest entry stands (its number + 1, or 0), then a stack of entries of four
// words: name, variable, twice the scope and 1 more if it came over a WITH, and where the name's newest entry stood before. Numbers + 1, and 0
// for none, are what is stored: lent words, no heap. Finding and binding take constant time, and so does each entry that is undone.
// One run of lent words for both: how many names there are is known only once the sheet is read. Entries are gone over by index: each turn writes
// where other entries and the names' places stand. That the words are `Sound` and a name is below `names` is asked by contracts: a ghost field would
// have to hold between the writes of `bind` and `cut`.
#![tactic(auto)]

ghost use Rattle.std.specs.Prelude.{◌≡◌, cond, ◌+◌, ◌*◌, ◌<◌, ◌≤◌, length};
ghost use Rattle.scope.specs.Graph.{indexed};
ghost use Rattle.semantics.specs.Resolve.{hit, lookup};
ghost use Rattle.visible.specs.Visible.{scope_of, name_at, answer, Turned};
ghost use Rattle.visible.specs.Stack.{entries, entry_at, Sound, Bound, Cut, Restacked};

// What is visible: the words, for how many names they have a place, and how many entries there are.
#[derive(Drop)]
pub struct Visible<'a> {
    pub words: &'a mut [u32],
    pub names: u32,
    pub top: u32,
}

// The newest binding of a name: its variable, the scope that binds it, and via_projection, 1 if it came over a WITH and else 0.
#[derive(Clone, Copy)]
pub struct Newest {
    pub variable: u32,
    pub scope: u32,
    pub via: u32,
}

impl Visible<'_> {
    // The newest binding of x; a name past the table has none.
    pub fn find(&self, x: u32) -> Option<Newest>
        requires { Sound self.now }
        ensures { result ≡ answer (lookup (indexed x) (entries self.now)) (scope_of (indexed x) (entries self.now)) }
    {
        if x < self.names {
            let i = self.words[x as usize];
            if 0 < i {
                let k = (self.names as usize) + ((i - 1) as usize) * 4;
                let home = self.words[k + 2];
                return Some(Newest {
                    variable: self.words[k + 1],
                    scope: home / 2,
                    via: home % 2,
                });
            }
        }
        None
    }

    // The name and the variable of an entry, by its number from below.
    pub fn entry(&self, i: u32) -> (u32, u32)
        requires { (i < self.now.top) × Sound self.now }
        ensures { result ≡ entry_at i self.now }
    {
        let k = (self.names as usize) + (i as usize) * 4;
        (self.words[k], self.words[k + 1])
    }

    // One entry more; whether it came over a WITH.
    pub fn bind(&mut self, x: u32, v: u32, scope: u32, over: bool)
        requires { (x < self.old.names) × ((scope < 2147483648) × ((self.old.top < 4294967295) × ((self.old.names + (self.old.top + 1) * 4 ≤ length self.old.words.now) × Sound self.old))) }
        ensures { Bound x (hit v (cond over 1 0)) scope self.old self.new }
    {
        let old = self.words[x as usize];
        let k = (self.names as usize) + (self.top as usize) * 4;
        self.words[k] = x;
        self.words[k + 1] = v;
        self.words[k + 2] = scope * 2 + u32::from(over);
        self.words[k + 3] = old;
        self.top += 1;
        self.words[x as usize] = self.top;
    }

    // Back to a height: what each entry above it hid is the newest again.
    pub fn cut(&mut self, height: u32)
        requires { (height ≤ self.old.top) × Sound self.old }
        ensures { Cut height self.old self.new }
    {
        for i in (height..self.top).rev() {
            let k = (self.names as usize) + (i as usize) * 4;
            let x = self.words[k] as usize;
            self.words[x] = self.words[k + 3];
        }
        self.top = height;
    }

    // Each visible name once, with its newest variable, in the order of those bindings, oldest first, all in one scope: what a star carries, which
    // came over a WITH.
    pub fn restack(&mut self, scope: u32)
        requires { (scope < 2147483648) × Sound self.old }
        ensures { Restacked scope self.old self.new }
    {
        let mut kept = 0;
        for i in 0..self.top {
            kept = keep(self.words, self.names, i, kept, scope);
        }
        self.top = kept;
    }
}

// One turn of `restack`: the entry i goes to the place j if it is the newest of its name; the number of entries that are kept then. It takes the words
// and not the struct: between two turns these are not `Sound`, and its law goes by the words.
fn keep(vis: &mut [u32], names: u32, i: u32, j: u32, scope: u32) -> u32
    requires { (j ≤ i) × ((i < 4294967295) × ((scope < 2147483648) × ((names + (i + 1) * 4 ≤ length vis.old) × (name_at names vis.old i < names)))) }
    ensures { Turned names scope vis.old vis.new i j result }
{
    let k = (names as usize) + (i as usize) * 4;
    let x = vis[k];
    let number = i + 1;
    if vis[x as usize] == number {
        let kept = j + 1;
        let home = scope * 2 + 1;
        if j < i {
            let v = vis[k + 1];
            let to = (names as usize) + (j as usize) * 4;
            vis[to] = x;
            vis[to + 1] = v;
            vis[to + 2] = home;
            vis[to + 3] = 0;
            vis[x as usize] = kept;
            return kept;
        }
        vis[k + 2] = home;
        vis[k + 3] = 0;
        return kept;
    }
    j
}
