// The steps of both walks: what is said and told, what is opened, bound and left, and what the head of an expression does before its parts.
// They go by a context, and the walk has where it stands: two structs, since one walk goes by several contexts. Room is paid for by the words that
// were read (specs/Hold): it is a fact between the two and falls with each word that is said, so it is no ghost field of either, and each contract
// asks for it (Ready, Roomy). A span is two parameters, its start and its end: two words that are read, compared and said each for itself.
#![tactic(auto)]

mod bound;
mod context;
mod head;
mod kinds;
mod log;
mod mode;

ghost use Rattle.std.specs.Prelude.{◌≡◌};
ghost use Rattle.tables.specs.Answer.{names_at};
ghost use Rattle.steps.specs.Hold.{Restartable, Restarts};

use clauses::MAX_DEPTH;
pub use context::{Context, Texts, operator_settings, property_settings};
pub use head::leaf_type;
pub use log::{Log, Sort};
pub use mode::{Mode, Setting, Settings};
use rowless::Rowless;
use visible::Visible;

// Where both walks stand: the next word, what is visible and the places of its names, the current scope and the last one, what was said and told, how
// many expressions 25 were read, how many bindings were made and how many names carried; and what waits at each level of a row: how many
// expressions are left there, and the setting of those. They are two arrays, since there is no heap, with a place for each room from 0 to the limit.
#[derive(Drop)]
pub struct Walk<'a> {
    pub at: usize,
    pub visible: Visible<'a>,
    pub rowless: Rowless<'a>,
    pub cur: u32,
    pub last: u32,
    pub log: Log<'a>,
    pub olds: u32,
    pub made: u32,
    pub taken: u32,
    pub left: [u32; MAX_DEPTH as usize + 1],
    pub later: [Setting; MAX_DEPTH as usize + 1],
}

impl<'a> Walk<'a> {
    // A walk in lent words: what is visible, what is said, and the places of names go there.
    pub fn new(
        visible: &'a mut [u32],
        said: &'a mut [u32],
        chains: &'a mut [u32],
        entries: &'a mut [u32],
    ) -> Walk<'a>
        ensures visible { result.visible.words.now ≡ visible.old }
        ensures said { result.log.words.now ≡ said.old }
        ensures chains { result.rowless.chains.now ≡ chains.old }
        ensures entries { result.rowless.entries.now ≡ entries.old }
    {
        Walk {
            at: 0,
            visible: Visible {
                words: visible,
                names: 0,
                top: 0,
            },
            rowless: Rowless {
                chains,
                entries,
                listed: 0,
                count: 0,
                mult: 0,
            },
            cur: 0,
            last: 0,
            log: Log {
                words: said,
                said: 0,
                told: 0,
            },
            olds: 0,
            made: 0,
            taken: 0,
            left: [0; MAX_DEPTH as usize + 1],
            later: [Setting::General; MAX_DEPTH as usize + 1],
        }
    }
}

impl Walk<'_> {
    // The walk begins anew at a word, with these names: all its other numbers are as `new` has them, but what waits at the levels.
    pub fn restart(&mut self, at: usize, texts: Texts)
        requires { Restartable texts self.old }
        ensures { Restarts at (names_at texts.entry.section.now texts.entry.places.now) self.old self.new }
    {
        self.rowless.restart(texts.section, texts.places);
        self.at = at;
        self.visible.names = self.rowless.listed + (self.rowless.chains.len() / 2) as u32;
        self.visible.top = 0;
        self.cur = 0;
        self.last = 0;
        self.log.said = 0;
        self.log.told = 0;
        self.olds = 0;
        self.made = 0;
        self.taken = 0;
    }
}
