// The pieces of a text, each laid where the last one ended, and the names of kinds and types by their numbers in the lists: they are the
// Rust's own strings, a line each. What lays several is inlined, and a place and the lent bytes go from piece to piece, so that a fixed piece is a
// few stores: the end in a struct of a lent slice, as `condition_text` has one, would be memory. (The library's printing into lent bytes promises no text.)
ghost use Rattle.std.specs.Prelude.{◌≡◌, ◌++◌, ◌+◌, ◌≤◌, length};
ghost use Rattle.texts.specs.Bytes.{bytes};
ghost use Rattle.texts.specs.Texts.{type_name, kind_name};
ghost use Rattle.texts.specs.Laid.{Lays};

// A piece laid from a place on; where it ends.
pub fn lay(piece: &[u8], at: usize, out: &mut [u8]) -> usize
    requires { at + length piece.now ≤ length out.old }
    ensures { Lays piece.now out.old at out.new result }
{
    let end = at + piece.len();
    out[at..end].copy_from_slice(piece);
    end
}

// A name between two pieces, at the front.
#[inline(always)]
pub fn lay_around(before: &[u8], name: &[u8], after: &[u8], out: &mut [u8]) -> usize
    requires { length before.now + length name.now + length after.now ≤ length out.old }
    ensures { Lays (before.now ++ (name.now ++ after.now)) out.old 0 out.new result }
{
    let p = lay(before, 0, out);
    let q = lay(name, p, out);
    lay(after, q, out)
}

// What is said of the variable x and its kind, at the front.
#[inline(always)]
pub fn lay_kind(x: &[u8], between: &[u8], kind: u32, after: &[u8], out: &mut [u8]) -> usize
    requires { 10 + length x.now + length between.now + length (kind_name kind) + length after.now ≤ length out.old }
    ensures { Lays (bytes "variable `" ++ (x.now ++ (between.now ++ (kind_name kind ++ after.now)))) out.old 0 out.new result }
{
    let p = lay_around(b"variable `", x, between, out);
    let q = lay(kind_name(kind), p, out);
    lay(after, q, out)
}

// The name of a type by its number in a finding. A host may ask with any number, and one that no type has has no name.
#[tactic(auto, unfolding(crate::specs::Texts::type_name))]
pub fn type_name(t: u32) -> &'static [u8]
    ensures { result.now ≡ type_name t }
{
    match t {
        1 => b"Bool",
        2 => b"Int",
        3 => b"Float",
        4 => b"String",
        5 => b"Null",
        6 => b"Map",
        7 => b"Pattern",
        8 => b"Node",
        9 => b"Relationship",
        10 => b"Path",
        _ => b"",
    }
}

// The name of a kind, likewise.
#[tactic(auto, unfolding(crate::specs::Texts::kind_name))]
pub fn kind_name(kind: u32) -> &'static [u8]
    ensures { result.now ≡ kind_name kind }
{
    match kind {
        1 => b"Node",
        2 => b"Relationship",
        3 => b"Path",
        4 => b"Value",
        _ => b"",
    }
}
