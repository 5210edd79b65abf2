// The check call, lookup and offset as C functions on flat lists, for the program that compares them with the Rust.
#![tactic(auto)]

ghost use Rattle.std.specs.Prelude.{◌≡◌};
ghost use Rattle.scope.specs.Graph as graph;
ghost use Rattle.scope.specs.Lookup.{lookup};
ghost use Rattle.scope.specs.Offset.{offset};
ghost use Rattle.exports.specs.Numbers.{flat, answer_by, left_by, checked_number, with_counts, looked_number, with_found, offset_number};

use checker::{Lists, check_words};
use scope::{FINDING_WIDTH, Name, lookup, scope_at_offset};

// The lists of a sheet and their five counts: 256, or the refusal's number. Eight parameters: a list each, as C has them.
#[unsafe(no_mangle)]
pub extern "C" fn cenguatu_check(
    sheet: &[u8],
    warnings: u32,
    scopes: &mut [u32],
    bindings: &mut [u32],
    carried: &mut [u32],
    recorded: &mut [u32],
    findings: &mut [u32],
    counts: &mut [usize; 5],
) -> u32
    ensures number { result ≡ checked_number (answer_by warnings sheet.now (flat scopes.old bindings.old carried.old recorded.old findings.old)) }
    ensures lists { flat scopes.new bindings.new carried.new recorded.new findings.new ≡ left_by warnings sheet.now (flat scopes.old bindings.old carried.old recorded.old findings.old) }
    ensures counts { counts.new ≡ with_counts (answer_by warnings sheet.now (flat scopes.old bindings.old carried.old recorded.old findings.old)) counts.old }
{
    let room = findings.len() / FINDING_WIDTH;
    let mut lists = Lists {
        scopes,
        bindings,
        carried,
        recorded,
        findings,
    };
    match check_words(sheet, warnings != 0, &mut lists, room) {
        Err(cause) => u32::from(cause),
        Ok(c) => {
            *counts = [c.scopes, c.bindings, c.carried, c.recorded, c.findings];
            256
        }
    }
}

// 256 where a name is found, whose variable and the scope that binds it go into `found`; 0 for nothing, or the refusal's number. Ten
// parameters: C gives each list with its count, and a name's word and mark each for itself.
#[unsafe(no_mangle)]
pub extern "C" fn cenguatu_lookup(
    scopes: &[u32],
    a: usize,
    bindings: &[u32],
    b: usize,
    carried: &[u32],
    c: usize,
    scope: u32,
    name: u32,
    mark: u32,
    found: &mut [u32; 2],
) -> u32
    ensures number { result ≡ looked_number (lookup a scopes.now b bindings.now c carried.now scope (graph.name mark name)) }
    ensures found { found.new ≡ with_found (lookup a scopes.now b bindings.now c carried.now scope (graph.name mark name)) found.old }
{
    let name = Name { mark, word: name };
    match lookup(scopes, a, bindings, b, carried, c, scope, name) {
        Ok(Some(looked)) => {
            *found = [looked.variable, looked.scope];
            256
        }
        Ok(None) => 0,
        Err(cause) => u32::from(cause),
    }
}

// 256 and the scope, 0 for none, or the refusal's number.
#[unsafe(no_mangle)]
pub extern "C" fn cenguatu_scope_at_offset(scopes: &[u32], n: usize, o: u32) -> u64
    ensures { result ≡ offset_number (offset n scopes.now o) }
{
    match scope_at_offset(scopes, n, o) {
        Ok(Some(i)) => 256 + i as u64,
        Ok(None) => 0,
        Err(cause) => u64::from(u32::from(cause)),
    }
}
