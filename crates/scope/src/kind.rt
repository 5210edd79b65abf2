// The kinds of scopes, by the numbers that the list of scopes has.
#[derive(Clone, Copy, Debug, PartialEq, Eq)]
pub enum ScopeKind {
    Root = 1,
    Match = 2,
    Create = 3,
    Merge = 4,
    Unwind = 5,
    Call = 6,
    WithBarrier = 7,
    Return = 8,
    PatternComprehension = 9,
}
