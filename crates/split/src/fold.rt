// Reduction modulo q by multiplications: of a sum of products to a small number, and to 0..q-1.
ghost use Rattle.std.specs.Prelude.{◌≡◌, ◌*◌, ◌^◌, ◌%◌, ◌<◌};
ghost use Rattle.split.specs.Fold.{Modulus, inverse, folded, lowered};

// x, or x - q where x is at least q.
fn lower(x: u32, q: u32) -> u32
    ensures { result ≡ lowered q x }
{
    if x < q { x } else { x - q }
}

// A modulus q, with what it takes to reduce by it.
#[derive(Clone, Copy)]
pub struct Reducer {
    pub q: u32,
    // 2^51 / q
    reciprocal: u32,
    ghost sound: { Modulus q × (reciprocal ≡ inverse q) },
}

impl Reducer {
    pub fn of(q: u32) -> Reducer
        requires { Modulus q }
        ensures { result.q ≡ q }
    {
        Reducer {
            q,
            reciprocal: (2251799813685248 / u64::from(q)) as u32,
        }
    }

    // s reduced below 3 q. Both factors of each product have 32 bits, and the compiler is shown it, so that it takes several at once.
    #[tactic(auto, using(crate::proofs::FoldLaws::guess_fits, crate::proofs::FoldLaws::left_below))]
    pub fn fold(self, s: u64) -> u32
        requires { s < 2 ^ 51 }
        ensures value { result ≡ folded self.q s }
        ensures below { result < 3 * self.q }
    {
        let top = (s / 524288) as u32;
        let guess = u64::from(top) * u64::from(self.reciprocal) / 4294967296;
        (s - guess * u64::from(self.q)) as u32
    }

    // s reduced to 0..q-1.
    #[tactic(auto, using(crate::proofs::FoldLaws::lowered_twice, crate::proofs::FoldLaws::folded_mod))]
    pub fn reduce(self, s: u64) -> u32
        requires { s < 2 ^ 51 }
        ensures { result ≡ s % self.q }
    {
        let q = self.q;
        lower(lower(self.fold(s), q), q)
    }
}
