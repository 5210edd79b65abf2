// What a WITH takes of its projections. Lent words with how many are held, since there is no heap; one type for these and the aliases of a RETURN would
// be no plainer: two words each and a star beside them, against one.
ghost use Rattle.std.specs.Prelude.{◌≡◌, ◌+◌, ◌*◌, ◌<◌, ◌≤◌, length};
ghost use Rattle.projection_walk.specs.Pairs.{Kept, pair_at};

// The pairs that are held, of a name and a variable, two words each; and whether a projection was a star.
#[derive(Drop)]
pub struct Pairs<'a> {
    pub words: &'a mut [u32],
    pub count: u32,
    pub star: bool,
}

impl Pairs<'_> {
    // The name and the variable of a pair.
    pub fn pair(&self, i: u32) -> (u32, u32)
        requires { (i < self.now.count) × (self.now.count * 2 ≤ length self.now.words.now) }
        ensures { result ≡ pair_at i self.now }
    {
        let k = i as usize * 2;
        (self.words[k], self.words[k + 1])
    }

    // A pair is held behind those there are.
    pub fn keep(&mut self, x: u32, v: u32)
        requires { (self.old.count < 4294967295) × ((self.old.count + 1) * 2 ≤ length self.old.words.now) }
        ensures { Kept x v self.old self.new }
    {
        let k = self.count as usize * 2;
        self.words[k] = x;
        self.words[k + 1] = v;
        self.count += 1;
    }
}
