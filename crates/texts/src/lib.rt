// The texts of the findings, written at the front of lent bytes, piece by piece: no array holds a text in between.
#![tactic(auto)]

mod codes;
mod measure;
mod pieces;

ghost use Rattle.std.specs.Prelude.{◌≤◌, length};
ghost use Rattle.texts.specs.Texts.{text_of};
ghost use Rattle.texts.specs.Laid.{Lays};

pub use codes::text_for;
pub use measure::text_len;
pub use pieces::lay;
use pieces::{kind_name, lay_around, lay_kind, type_name};

// What a finding says: one for each text of resolve.rs and kinds.rs.
#[derive(Clone, Copy, Debug, PartialEq, Eq)]
pub enum Text {
    Unresolved,
    Shadows,
    Arithmetic,
    PropAccess,
    PathBinder,
    NodePosition,
    RelPosition,
    Index,
    Slice,
    IterateOver,
    ListIterable,
    BoolPredicate,
}

// The text that a push gives, for the name x and detail two, into bytes that hold it; how long it is.
#[tactic(auto, unfolding(crate::specs::Texts::text_of))]
pub fn write_text(text: Text, x: &[u8], two: u32, out: &mut [u8]) -> usize
    requires { length (text_of text x.now two) ≤ length out.old }
    ensures { Lays (text_of text x.now two) out.old 0 out.new result }
{
    match text {
        Text::Unresolved => lay_around(b"unresolved variable `", x, b"`", out),
        Text::Shadows => lay_around(b"variable `", x, b"` shadows an earlier binding", out),
        Text::Arithmetic => lay_kind(
            x,
            b"` has kind `",
            two,
            b"` but is used in an arithmetic expression; only `Value` variables are valid here",
            out,
        ),
        Text::PropAccess => lay_around(
            b"variable `",
            x,
            b"` has kind `Path` and does not support property access; use `nodes()` or `relationships()` to extract graph elements first",
            out,
        ),
        Text::PathBinder => lay_kind(
            x,
            b"` used as path binder but has kind `",
            two,
            b"`; expected `Path`",
            out,
        ),
        Text::NodePosition => lay_kind(
            x,
            b"` used in node-pattern position but has kind `",
            two,
            b"`; expected `Node`",
            out,
        ),
        Text::RelPosition => lay_kind(
            x,
            b"` used in relationship-pattern position but has kind `",
            two,
            b"`; expected `Relationship`",
            out,
        ),
        Text::Index => lay_around(
            b"cannot index non-list expression of type `",
            type_name(two),
            b"`; list indexing and slicing require a list target",
            out,
        ),
        Text::Slice => lay_around(
            b"cannot slice non-list expression of type `",
            type_name(two),
            b"`; list indexing and slicing require a list target",
            out,
        ),
        Text::IterateOver => lay_around(
            b"cannot iterate over non-list expression of type `",
            type_name(two),
            b"`; list indexing and slicing require a list target",
            out,
        ),
        Text::ListIterable => lay_around(
            b"list-predicate iterable must be a list but found `",
            type_name(two),
            b"`; ANY/ALL/NONE/SINGLE require a `LIST<T>` source",
            out,
        ),
        Text::BoolPredicate => lay_around(
            b"list-predicate WHERE clause requires a `Bool` predicate but found `",
            type_name(two),
            b"`",
            out,
        ),
    }
}
