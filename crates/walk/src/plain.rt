// Plain heads by their code (specs/Plain): which there are, how many parts they have, in which settings these stand, and what the head does
// itself. Shapes are numbers whose bits the loop of a row reads, as the definition's table has them: one look tells all.
ghost use Rattle.std.specs.Prelude.{◌≡◌, ℕ, ◌+◌, ◌/◌, ◌%◌, ◌^◌, ◌<◌, ◌≤◌, eqb, length};
ghost use Rattle.words.specs.Words.{words};
ghost use Rattle.semantics.specs.Kinds.{settings};
ghost use Rattle.fused.specs.Fused.{head_of};
ghost use Rattle.steps.specs.Types.{type_number};
ghost use Rattle.steps.specs.Modes.{mode_of, setting_of, pair_of};
ghost use Rattle.steps.specs.Memory.{names_in, is_the, world_at};
ghost use Rattle.steps.specs.Hold.{Ready, Steps, cost_of};
ghost use Rattle.walk.specs.Plain.{shape, limit, headed, parts_of, type_by, number_of, Plainly};

use expr::Type;
use steps::{
    Context, Mode, Setting, Settings, Walk, leaf_type, operator_settings, property_settings,
};
use words::{count, word};

// The most parts that a row of the loop counts.
pub const MOST: usize = 524287;

// By code; 0 where no head with it is plain, as the definition's table has it. A table and no match: a jump for each head would be mispredicted.
const SHAPES: [u32; 26] = [
    0, 15728642, 15728642, 16252930, 16252930, 16252930, 2, 16711683, 16711747, 583, 1034, 1335,
    19, 15728659, 19, 2315, 7, 0, 6, 10, 0, 1563, 0, 7959, 0, 0,
];

fn shape(code: u32) -> u32
    ensures { result ≡ shape code }
{
    SHAPES.get(code as usize).copied().unwrap_or(0)
}

// By code: the most that the word after it may be, 4294967295 where it may be any; a table too, as far as the one of shapes.
const LIMITS: [u32; 26] = [
    4294967295, 4294967295, 4294967295, 4294967295, 4294967295, 4294967295, 4294967295, 4294967295,
    4294967295, 4294967295, 4294967295, 3, 524287, 524287, 524287, 19, 1, 4294967295, 4294967295,
    4294967295, 4294967295, 1, 4294967295, 1, 4294967295, 4294967295,
];

fn limit(code: u32) -> u32
    ensures { result ≡ limit code }
{
    LIMITS.get(code as usize).copied().unwrap_or(4294967295)
}

// The shape of the plain head at `at`, where two words are there and a level is left; or 0.
pub fn plain_at(s: &[u8], names: u32, at: usize, room: u32) -> u32
    requires { at ≤ length (words s.now) }
    ensures { Plainly (words s.now) names room at result }
{
    if room == 0 {
        return 0;
    }
    // Each test as `word` makes it, which then need not make it again, here or in the loop.
    if count(s) <= at {
        return 0;
    }
    if count(s) <= at + 1 {
        return 0;
    }
    let code = word(s, at);
    let a = word(s, at + 1);
    let t = shape(code);
    if limit(code) < a {
        return 0;
    }
    if t / 64 % 2 == 1 {
        if names <= a {
            return 0;
        }
    }
    t
}

// How many parts follow.
pub fn parts_of(t: u32, a: u32) -> usize
    requires { (t < 16777216) × (t / 32 % 2 ≤ t / 16 % 2) }
    ensures { result ≡ parts_of t a }
{
    let c = if t / 16 % 2 == 1 { a } else { 0 };
    let h = if t / 32 % 2 == 1 { a / 2 } else { 0 };
    (t / 4 % 4) as usize + (c - h) as usize
}

// Whether the head with the shape does something itself in the setting: the shape has a bit for each.
pub fn shows(t: u32, set: Setting) -> bool
    ensures { result ≡ eqb (t / 2 ^ (16 + number_of set) % 2) 1 }
{
    (t >> (16 + set as u32)) % 2 == 1
}

// The setting with a number of the shapes. A match and no TryFrom, since it can't fail: three bits of a shape are always one of the eight.
fn setting_at(n: u32) -> Setting
    requires { n < 8 }
    ensures { number_of result ≡ n }
{
    match n {
        0 => Setting::General,
        1 => Setting::Arithmetic,
        2 => Setting::Property,
        3 => Setting::Boolean,
        4 => Setting::Indexed,
        5 => Setting::Sliced,
        6 => Setting::Iterated,
        _ => Setting::Quantified,
    }
}

// The settings of the parts, the first one's and the others'. This and `act` go by the code and not by `settings_of` and `begin` of crate steps: a
// plain head is not made into a Form, since the loop reads two words and a shape.
pub fn pair(t: u32, code: u32, a: u32, set: Setting, ident: Option<u32>) -> Settings
    requires { (t ≡ shape code) × ((0 < t) × (a ≤ limit code)) }
    ensures { pair_of result ≡ settings (λ x. is_the x ident) (headed code a) (setting_of set) }
{
    match code {
        9 => property_settings(ident, a),
        15 => operator_settings(a),
        16 => Settings::first(set.passed()),
        _ => Settings {
            first: setting_at(t / 256 % 8),
            later: setting_at(t / 2048 % 8),
        },
    }
}

// What the head does itself.
pub fn act(walk: &mut Walk, context: &Context, code: u32, a: u32, mode: Mode, set: Setting)
    requires { (0 < shape code) × ((a ≤ limit code) × ((shape code / 64 % 2 ≡ 1 → a < names_in context.now) × Ready (cost_of (headed code a)) context.now walk.old)) }
    ensures { Steps (cost_of (headed code a)) context.now walk.old walk.new (λ id. head_of (world_at context.now id) (mode_of mode) (headed code a) (setting_of set)) }
{
    if code == 7 {
        walk.use_var(context, a, mode, set);
        return;
    }
    if code == 8 {
        if mode.resolves {
            walk.use_name(context, a);
        }
        return;
    }
    if mode.checks {
        walk.at_type(context, set, type_by(code));
    }
}

// The type that a plain head shows, if any: a leaf's, or a Map's.
fn type_by(code: u32) -> Option<Type>
    ensures { type_number result ≡ type_by code }
{
    match code {
        13 => Some(Type::Map),
        _ => leaf_type(code),
    }
}
