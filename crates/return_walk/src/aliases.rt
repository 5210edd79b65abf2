// What a RETURN with sort keys holds of its projections. Lent words with how many are held, since there is no heap; one type for these and the pairs of
// a WITH would be no plainer.
ghost use Rattle.std.specs.Prelude.{◌<◌, length};
ghost use Rattle.return_walk.specs.Returns.{Marked};
ghost use Rattle.return_walk.specs.Aliases.{InRange, HoldsAlias};

// The aliases that are held, a word each.
#[derive(Drop)]
pub struct Aliases<'a> {
    pub words: &'a mut [u32],
    pub count: u32,
}

impl Aliases<'_> {
    // An alias, if there is one, is held behind those there are.
    pub fn hold(&mut self, alias: Option<u32>)
        requires { (self.old.count < length self.old.words.now) × (self.old.count < 4294967295) }
        ensures { HoldsAlias alias self.old self.new }
    {
        let Some(x) = alias else {
            return;
        };
        self.words[self.count as usize] = x;
        self.count += 1;
    }

    // The marks of the aliases become `to`, 1 or 0: a mark is a lent word.
    pub fn mark(&self, marks: &mut [u32], to: u32)
        requires { InRange (length marks.old) self.now }
        ensures { Marked to self.now.count self.now.words.now marks.old marks.new }
    {
        for x in &self.words[..self.count as usize] {
            marks[*x as usize] = to;
        }
    }
}
