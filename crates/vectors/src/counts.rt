// The counts of what was compared.
ghost use Rattle.std.specs.Prelude.{◌≡◌};
ghost use Rattle.vectors.specs.Lendings.{no_counts, counted_at, count_at};

// Counts, each at a place.
#[derive(Clone, Copy)]
pub struct Counts<const N: usize> {
    n: [u64; N],
}

impl<const N: usize> Counts<N> {
    #[tactic(auto, unfolding(crate::specs::Lendings::no_counts))]
    pub fn new() -> Self
        ensures { result ≡ record { n = no_counts N } }
    {
        Counts { n: [0; N] }
    }

    // The count at a place, so much higher.
    #[tactic(auto, using(crate::proofs::Counting::counted_in, crate::proofs::Counting::counted_out))]
    pub fn add(&mut self, place: usize, by: u64)
        ensures { self.new ≡ record { n = counted_at self.old.n place by } }
    {
        if place < N {
            self.n[place] = self.n[place].wrapping_add(by);
        }
    }

    // The count at a place; 0 where there is no such place.
    #[tactic(auto, using(crate::proofs::Counting::count_in_law, crate::proofs::Counting::count_out))]
    pub fn at(&self, place: usize) -> u64
        ensures { result ≡ count_at self.now.n place }
    {
        self.n.get(place).copied().unwrap_or(0)
    }
}
