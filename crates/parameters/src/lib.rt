// The five parameter sets of document 01, the powers of each set's g, and the limits that arrays have room for.
#![tactic(auto)]

ghost use Rattle.std.specs.Prelude.{◌≡◌, ◌↔◌, ◌≤◌, true, length, IsSome, IfSome};
ghost use Rattle.parameters.specs.Sets.{is_set, set_of};
ghost use Rattle.parameters.specs.Ring.{Usable, are_powers};

mod power_tables;

// The limits by name, as specs/Limits.antt gives them: N, t and b at most, the masks held at most, a row buffer's bytes, and the bytes of a session
// file and of a message at most.
pub const MAX_N: usize = 1153;

pub const MAX_T: usize = 1152;

pub const MAX_B: usize = 64;

pub const MAX_MASKS: usize = 8;

pub const ROW_ROOM: usize = 16384;

pub const MAX_FILE: usize = 65536;

pub const MAX_MESSAGE: usize = 65535;

// A parameter set: N coefficients modulo x^N - 1, evaluations modulo q at powers of g, masks within k, b challenge indices, t points.
#[derive(Clone, Copy)]
pub struct Params {
    pub n: usize,
    pub q: u32,
    pub g: u32,
    pub k: u32,
    pub b: usize,
    pub t: usize,
}

const SETS: [Params; 5] = [
    Params {
        n: 5,
        q: 31,
        g: 2,
        k: 6,
        b: 2,
        t: 2,
    },
    Params {
        n: 433,
        q: 775937,
        g: 268673,
        k: 4095,
        b: 19,
        t: 200,
    },
    Params {
        n: 577,
        q: 743177,
        g: 296108,
        k: 16383,
        b: 24,
        t: 280,
    },
    Params {
        n: 769,
        q: 1047379,
        g: 421722,
        k: 32767,
        b: 29,
        t: 386,
    },
    Params {
        n: 1153,
        q: 968521,
        g: 56574,
        k: 32767,
        b: 36,
        t: 600,
    },
];

// Whether a byte is a set.
pub fn is_set(set: u8) -> bool
    ensures { result ≡ is_set set }
{
    set < 5
}

// The numbers of a set; all 0 for a byte that is no set: zeros and no `Option`, since its promise is `set_of`, which is total.
pub fn params_of(set: u8) -> Params
    ensures { result ≡ set_of set }
{
    let at = set as usize;
    if at < 5 {
        // lent and read where it lies: `SETS[at]` would build the whole table on the stack first
        let sets = &SETS;
        sets[at]
    } else {
        Params {
            n: 0,
            q: 0,
            g: 0,
            k: 0,
            b: 0,
            t: 0,
        }
    }
}

impl Params {
    // The numbers of a set, where the byte is one. Here a byte becomes a type; `of` and no `TryFrom`, as a caller names its own refusal.
    pub fn of(set: u8) -> Option<Params>
        ensures known { IsSome result ↔ (is_set set ≡ true) }
        ensures numbers { IfSome result (λ p. p ≡ set_of set) }
    {
        if !is_set(set) {
            return None;
        }
        Some(params_of(set))
    }
}

// A set's numbers with the powers of its g, which are lent and read where they stand: what evaluation one point after the other needs. What stands behind the N
// powers is not read.
#[derive(Clone, Copy)]
pub struct Powers<'a> {
    pub params: Params,
    pub table: &'a [u32],
    pub ghost usable: { Usable params table.now },
    pub ghost size: { params.n ≤ length table.now },
}

// The powers of a set's g, read in place where they stand. A `match`: the proof tests each arm's table under its own number.
fn powers_of(set: u8) -> &'static [u32]
    requires { is_set set ≡ true }
    ensures { are_powers (set_of set) result.now ≡ true }
{
    match set {
        0 => &power_tables::POWERS_0,
        1 => &power_tables::POWERS_1,
        2 => &power_tables::POWERS_2,
        3 => &power_tables::POWERS_3,
        _ => &power_tables::POWERS_4,
    }
}

impl<'a> Powers<'a> {
    // Those of a set's numbers, any that are sound, with a table by the rule: N numbers at least, of which the first N are the powers of its g.
    pub fn from_table(params: Params, table: &'a [u32]) -> Powers<'a>
        requires usable { Usable params table.now }
        requires size { params.n ≤ length table.now }
        ensures numbers { result.params ≡ params }
        ensures powers { result.table.now ≡ table.now }
    {
        Powers { params, table }
    }

    // Those of a set, where the byte is one.
    #[tactic(auto, using(crate::proofs::Tables::known_powers, crate::proofs::Tables::powers_size))]
    pub fn of(set: u8) -> Option<Powers<'static>>
        ensures known { IsSome result ↔ (is_set set ≡ true) }
        ensures numbers { IfSome result (λ p. p.params ≡ set_of set) }
        ensures size { IfSome result (λ p. length p.table.now ≡ p.params.n) }
    {
        let params = Params::of(set)?;
        Some(Powers {
            params,
            table: powers_of(set),
        })
    }
}
