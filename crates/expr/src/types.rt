// The types that an expression shows.

// Its numbers are those of a finding's detail.
#[derive(Clone, Copy, Debug, PartialEq, Eq)]
pub enum Type {
    Bool = 1,
    Int = 2,
    Float = 3,
    String = 4,
    Null = 5,
    Map = 6,
    Pattern = 7,
    Node = 8,
    Relationship = 9,
    Path = 10,
}
