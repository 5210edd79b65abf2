// The kinds of variables: what a binding holds.

// Its numbers are those of a binding's word.
#[derive(Clone, Copy, Debug, PartialEq, Eq)]
pub enum VarKind {
    Node = 1,
    Relationship = 2,
    Path = 3,
    Value = 4,
}
