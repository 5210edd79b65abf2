// The lists of a sheet as text on a writer: each after a line of its name and count, an entry a line, fields between blanks.
use checker::{Lists, check_words};
use scope::{BINDING_WIDTH, CARRIED_WIDTH, FINDING_WIDTH, RECORDED_WIDTH, SCOPE_WIDTH};
use std::io::Write;
use std::{fmt, io};

// A number that may be missing, as it is printed: `-` where it is.
#[derive(Clone, Copy)]
struct Shown(Option<u32>);

impl fmt::Display for Shown {
    fn fmt<W: fmt::Write>(&self, f: &mut fmt::Formatter<W>) -> fmt::Result {
        match self.0 {
            Some(n) => write!(f, "{n}"),
            None => f.write_str("-"),
        }
    }
}

// Kind, parent or `-`, start, end.
fn scope_line<W: Write>(out: &mut W, entry: &[u32; SCOPE_WIDTH]) -> io::Result<()> {
    let [kind, parent, start, end] = *entry;
    let parent = Shown(parent.checked_sub(1));
    writeln!(out, "{kind} {parent} {start} {end}")
}

// Scope, name, variable, kind, the variable replaced or `-`, the name's mark.
fn binding_line<W: Write>(out: &mut W, entry: &[u32; BINDING_WIDTH]) -> io::Result<()> {
    let [scope, name, variable, kind, replaces, replaced, mark] = *entry;
    let replaced = Shown((replaces != 0).then_some(replaced));
    writeln!(out, "{scope} {name} {variable} {kind} {replaced} {mark}")
}

// Barrier, name, variable, the name's mark.
fn carried_line<W: Write>(out: &mut W, entry: &[u32; CARRIED_WIDTH]) -> io::Result<()> {
    let [barrier, name, variable, mark] = *entry;
    writeln!(out, "{barrier} {name} {variable} {mark}")
}

// Use id, and variable, kind and via_projection if there is an answer.
fn recorded_line<W: Write>(out: &mut W, entry: &[u32; RECORDED_WIDTH]) -> io::Result<()> {
    let [id, found, variable, kind, via] = *entry;
    if found == 0 {
        return writeln!(out, "{id} unresolved");
    }
    writeln!(out, "{id} resolved {variable} {kind} {via}")
}

// Code, start, end, name + 1 or 0, two details, the name's mark; with the mark 1 the name is an id.
fn record_line<W: Write>(out: &mut W, entry: &[u32; FINDING_WIDTH]) -> io::Result<()> {
    let [code, start, end, name, one, two, mark] = *entry;
    writeln!(out, "{code} {start} {end} {name} {one} {two} {mark}")
}

// The first n entries of a list, whose name ends in a blank.
fn list<E, W: Write, F: Fn(&mut W, &E) -> io::Result<()>>(
    out: &mut W,
    name: &str,
    entries: &[E],
    n: usize,
    line: F,
) -> io::Result<()>
    requires { F.IsAlwaysCallable line }
{
    writeln!(out, "{name}{n}")?;
    for entry in entries.iter().take(n) {
        line(out, entry)?;
    }
    Ok(())
}

// The first n finding records of a flat list.
pub fn show_records<W: Write>(out: &mut W, words: &[u32], n: usize) -> io::Result<()> {
    list(
        out,
        "records ",
        words.as_chunks::<FINDING_WIDTH>().0,
        n,
        record_line::<W>,
    )
}

// The lists of a sheet, warnings on; nothing where it is refused. (Program `checked` makes the same five arrays: a struct that owned
// them would lend them by a method, and what a method's result borrows from a field isn't known afterwards.)
pub fn show_lists<W: Write>(out: &mut W, s: &[u8]) -> io::Result<()> {
    let mut scopes = [0u32; 2048 * SCOPE_WIDTH];
    let mut bindings = [0u32; 2048 * BINDING_WIDTH];
    let mut carried = [0u32; 2048 * CARRIED_WIDTH];
    let mut recorded = [0u32; 2048 * RECORDED_WIDTH];
    let mut findings = [0u32; 2048 * FINDING_WIDTH];
    let mut lists = Lists {
        scopes: &mut scopes,
        bindings: &mut bindings,
        carried: &mut carried,
        recorded: &mut recorded,
        findings: &mut findings,
    };
    if let Ok(counts) = check_words(s, true, &mut lists, 2048) {
        list(
            out,
            "scopes ",
            scopes.as_chunks::<SCOPE_WIDTH>().0,
            counts.scopes,
            scope_line::<W>,
        )?;
        list(
            out,
            "bindings ",
            bindings.as_chunks::<BINDING_WIDTH>().0,
            counts.bindings,
            binding_line::<W>,
        )?;
        list(
            out,
            "carried ",
            carried.as_chunks::<CARRIED_WIDTH>().0,
            counts.carried,
            carried_line::<W>,
        )?;
        list(
            out,
            "recorded ",
            recorded.as_chunks::<RECORDED_WIDTH>().0,
            counts.recorded,
            recorded_line::<W>,
        )?;
        show_records(out, &findings, counts.findings)?;
    }
    Ok(())
}
