// FNV-1 over 32 bits, and the use id of a name.
ghost use Rattle.std.specs.Prelude.{◌≡◌};
ghost use Rattle.words.specs.Fnv.{fnv_step, fnv1_of, id_of, use_id};

// The published prime and offset basis.
const PRIME: u32 = 16777619;

pub const OFFSET_BASIS: u32 = 2166136261;

// One step: multiply by the prime, then xor the byte in.
#[tactic(auto, unfolding(crate::specs::Fnv::fnv_step))]
pub fn fnv_step(h: u32, b: u8) -> u32
    ensures { result ≡ fnv_step h b }
{
    h.wrapping_mul(PRIME) ^ u32::from(b)
}

// The FNV-1 hash of a byte string, from the published offset basis.
pub fn fnv1(s: &[u8]) -> u32
    ensures { result ≡ fnv1_of s.now }
{
    s.iter().fold(OFFSET_BASIS, |h, b| fnv_step(h, *b))
}

// "Id = 0xFFFFFFFF minus the low 30 bits of h"
pub fn id_of(h: u32) -> u32
    ensures { result ≡ id_of h }
{
    u32::MAX - h % (1 << 30)
}

// The use id of a name: 0xFFFFFFFF minus the low 30 bits of its hash.
#[tactic(auto, unfolding(crate::specs::Fnv::use_id))]
pub fn use_id(name: &[u8]) -> u32
    ensures { result ≡ use_id name.now }
{
    id_of(fnv1(name))
}
