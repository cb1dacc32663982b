// Memory that a caller hands over for a store.
ghost use Rattle.std.specs.Prelude.{◌≡◌, vec_len, MatchResult};
ghost use Rattle.store.specs.Limits.{MayBeLimit};
ghost use Rattle.store.specs.Refusals.{listed, wrong_row_count};

use crate::limit::Limit;
use crate::refusal::StoreRefusal;

/// As many places as a store may have ranges, 64 to 65,535: rows or cells, with anything in them.
#[derive(Drop)]
pub struct Memory<P> {
    pub places: Vec<P>,
    ghost lawful: { MayBeLimit (vec_len places) },
}

/// Places that are too few or too many for a store, as they were.
#[derive(Drop)]
pub struct RefusedMemory<P> {
    pub places: Vec<P>,
    pub refusal: StoreRefusal,
}

impl<P> Memory<P> {
    /// Memory for a store; refused, and given back, below 64 and above 65,535.
    pub fn new(places: Vec<P>) -> Result<Memory<P>, RefusedMemory<P>>
        ensures { MatchResult result (λ x. MayBeLimit (vec_len places) × (x.places ≡ places)) (λ e. (MayBeLimit (vec_len places) → ⊥) × (listed e.refusal ≡ wrong_row_count) × (e.places ≡ places)) }
    {
        match Limit::try_from(places.len() as u64) {
            Ok(_) => Ok(Memory { places }),
            Err(refusal) => Err(RefusedMemory { places, refusal }),
        }
    }
}
