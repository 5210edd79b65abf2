// The listing of a sheet: its findings as text, a line each, at the front of lent bytes; or a refusal (1 to 6, 8, 10), which alters none of
// them. The sheet is read and walked once, with scratch that is sized to it. No heap: scratch is one array, cut into the lists.
// Sheet, choice and page go down as they came, and each function hands on the same promise: they differ in scratch alone.
#![tactic(auto)]

ghost use Rattle.std.specs.Prelude.{◌≡◌, not, ◌+◌, ◌*◌, ◌^◌, ◌<◌, ◌≤◌, eqb, length};
ghost use Rattle.words.specs.Words.{words};
ghost use Rattle.texts.specs.Page.{answered, written_as, page_as, WritesAsWord, number};
ghost use Rattle.sheet_walk.specs.Runs.{Clean};
ghost use Rattle.listing.specs.Listing.{listing};
ghost use Rattle.listing.specs.Found.{FoundIn, AllZero, scratch_for};

use lines::{Found, Names, write_listing};
use refusal::Refusal;
use sheet::find_places;
use sheet_walk::{Choice, Scratch, run};
use steps::Walk;
use words::count;

// How many entries a list may need.
const ENTRIES: u32 = 2048;

// Scratch for so many words: sixteen for each of them and 8 besides, and five for each binder that they may have, which takes three words. A const
// for each: the language computes no const argument. The first stays below 2 KB, which is cleared fastest; for large sheets they stand close, since
// clearing is then a good part of the time.
const FOR_28: usize = 28 * 16 + 8 + (28 / 3 + 1) * 5;

const FOR_64: usize = 64 * 16 + 8 + (64 / 3 + 1) * 5;

const FOR_128: usize = 128 * 16 + 8 + (128 / 3 + 1) * 5;

const FOR_256: usize = 256 * 16 + 8 + (256 / 3 + 1) * 5;

const FOR_384: usize = 384 * 16 + 8 + (384 / 3 + 1) * 5;

const FOR_512: usize = 512 * 16 + 8 + (512 / 3 + 1) * 5;

const FOR_768: usize = 768 * 16 + 8 + (768 / 3 + 1) * 5;

const FOR_1024: usize = 1024 * 16 + 8 + (1024 / 3 + 1) * 5;

const FOR_1280: usize = 1280 * 16 + 8 + (1280 / 3 + 1) * 5;

const FOR_1536: usize = 1536 * 16 + 8 + (1536 / 3 + 1) * 5;

const FOR_1792: usize = 1792 * 16 + 8 + (1792 / 3 + 1) * 5;

const FOR_2048: usize = 2048 * 16 + 8 + (2048 / 3 + 1) * 5;

// What was found, `said` of it by the name walk: words and counts as a Log has them, of which only these are read, and how many expressions 25
// the walk has counted.
fn found_in(words: &[u32], said: u32, told: u32, olds: u32) -> Found<'_>
    requires { (said + told ≤ 2048) × ((said + told) * 6 ≤ length words.now) }
    ensures { (result.words.now ≡ words.now) × ((result.front ≡ said) × ((result.count ≡ said + told) × (result.olds ≡ olds))) }
{
    Found {
        words,
        front: said as usize,
        count: said as usize + told as usize,
        olds,
    }
}

// The lines of what a run found in a sheet, or 10.
fn write(s: &[u8], warns: bool, scratch: &Scratch, page: &mut [u8]) -> Result<usize, Refusal>
    requires { FoundIn warns s.now scratch.now.places.now scratch.now.walk }
    ensures { WritesAsWord (listing warns s.now) page.old page.new result }
{
    let p = find_places(s)?;
    let names = Names {
        section: &s[..p.rows * 4],
        places: &scratch.places[..p.names as usize],
    };
    let log = &scratch.walk.log;
    let found = found_in(log.words, log.said, log.told, scratch.walk.olds);
    write_listing(&names, &found, page)
}

// With scratch for a sheet's words. Bindings and carried names are counted, not stored.
fn list_in(s: &[u8], warns: bool, scratch: &mut Scratch, page: &mut [u8]) -> Result<usize, Refusal>
    requires { Clean (length (words s.now)) scratch.old }
    ensures { WritesAsWord (listing warns s.now) page.old page.new result }
{
    let choice = Choice {
        warns,
        wants: false,
    };
    let mut nowhere = [0u32; 1];
    run(s, choice, scratch, &mut nowhere)?;
    if ENTRIES < scratch.walk.made {
        return Err(Refusal::Entries);
    }
    if ENTRIES < scratch.walk.taken {
        return Err(Refusal::Entries);
    }
    write(s, warns, scratch, page)
}

// With scratch, all zeros: sixteen words for each of a sheet's words, 8 besides, and five for each binder that it may have.
fn list(s: &[u8], warns: bool, scratch: &mut [u32], page: &mut [u8]) -> Result<usize, Refusal>
    requires { (scratch_for (length (words s.now)) ≤ length scratch.old) × ((length scratch.old ≤ 65536) × AllZero scratch.old) }
    ensures { WritesAsWord (listing warns s.now) page.old page.new result }
{
    let n = count(s);
    let (places, rest) = scratch.split_at_mut(n);
    let (ids, rest) = rest.split_at_mut(n);
    let (chains, rest) = rest.split_at_mut(n);
    let (marks, rest) = rest.split_at_mut(n);
    let (held, rest) = rest.split_at_mut(n * 2);
    let binders = n / 3 + 1;
    let (slots, rest) = rest.split_at_mut(binders * 2);
    let (entries, rest) = rest.split_at_mut(binders * 2);
    let (visible, said) = rest.split_at_mut(n * 4 + 8 + binders);
    let mut scratch = Scratch {
        places,
        ids,
        chains,
        marks,
        held,
        walk: Walk::new(visible, said, slots, entries),
    };
    list_in(s, warns, &mut scratch, page)
}

// With scratch of N words.
fn list_with<const N: usize>(s: &[u8], warns: bool, page: &mut [u8]) -> Result<usize, Refusal>
    requires { (scratch_for (length (words s.now)) ≤ N) × (N ≤ 65536) }
    ensures { WritesAsWord (listing warns s.now) page.old page.new result }
{
    let mut scratch = [0u32; N];
    list(s, warns, &mut scratch, page)
}

// A sheet of any size, with scratch for 256 words at least. Its frame is that of the largest scratch, and is touched page by page.
#[inline(never)]
fn list_large(s: &[u8], warns: bool, page: &mut [u8]) -> Result<usize, Refusal>
    ensures { WritesAsWord (listing warns s.now) page.old page.new result }
{
    match s.len() {
        0..=1024 => list_with::<FOR_256>(s, warns, page),
        1025..=1536 => list_with::<FOR_384>(s, warns, page),
        1537..=2048 => list_with::<FOR_512>(s, warns, page),
        2049..=3072 => list_with::<FOR_768>(s, warns, page),
        3073..=4096 => list_with::<FOR_1024>(s, warns, page),
        4097..=5120 => list_with::<FOR_1280>(s, warns, page),
        5121..=6144 => list_with::<FOR_1536>(s, warns, page),
        6145..=7168 => list_with::<FOR_1792>(s, warns, page),
        7169..=8192 => list_with::<FOR_2048>(s, warns, page),
        _ => Err(Refusal::Size),
    }
}

// The listing of a sheet, warnings on or off.
pub fn listing(s: &[u8], warns: bool, page: &mut [u8]) -> Result<usize, Refusal>
    ensures { WritesAsWord (listing warns s.now) page.old page.new result }
{
    match s.len() {
        0..=112 => list_with::<FOR_28>(s, warns, page),
        113..=256 => list_with::<FOR_64>(s, warns, page),
        257..=512 => list_with::<FOR_128>(s, warns, page),
        _ => list_large(s, warns, page),
    }
}

// The refusal's number, or 256 and the length.
fn number(written: Result<usize, Refusal>) -> u32
    requires { number (answered written) < 2 ^ 32 }
    ensures { result ≡ number (answered written) }
{
    match written {
        Ok(n) => 256 + n as u32,
        Err(refusal) => u32::from(refusal),
    }
}

// What hosts call: warnings are off for 0 and on for any other number.
#[unsafe(no_mangle)]
pub extern "C" fn cenguatu_listing(sheet: &[u8], page: &mut [u8], warnings: u32) -> u32
    ensures { (result ≡ number (written_as (listing (not (eqb warnings 0)) sheet.now) (length page.old))) × (page.new ≡ page_as (listing (not (eqb warnings 0)) sheet.now) page.old) }
{
    number(listing(sheet, warnings != 0, page))
}
