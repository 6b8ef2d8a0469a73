// The ring of each set, and of any tables by the rule.
ghost use Rattle.std.specs.Prelude.{◌≡◌, ◌↔◌, ◌≤◌, true, ◌-◌, length, IsSome, IfSome, take};
ghost use Rattle.parameters.specs.Sets.{is_set, set_of};
ghost use Rattle.parameters.specs.Ring.{Usable};
ghost use Rattle.transform.specs.Generator.{generator_of, GeneratorTable};
ghost use Rattle.split_tables.specs.Split.{SplitTable};
ghost use Rattle.split_tables.specs.Test.{has_split};

use crate::{Ring, splits};
use parameters::{Params, Powers};

// The tables of a set's split. They begin with the powers of the least generator. A `match`, as `powers_of` of `parameters` is.
fn split_of(set: u8) -> &'static [u32]
    requires { is_set set ≡ true }
    ensures passes { has_split (set_of set) result.now ≡ true }
    ensures least { GeneratorTable (generator_of set) (set_of set).n (take ((set_of set).n - 1) result.now) }
{
    match set {
        0 => &splits::SPLIT_0,
        1 => &splits::SPLIT_1,
        2 => &splits::SPLIT_2,
        3 => &splits::SPLIT_3,
        _ => &splits::SPLIT_4,
    }
}

impl<'a> Ring<'a> {
    // The ring of a set, where the byte is one.
    pub fn of(set: u8) -> Option<Ring<'static>>
        ensures known { IsSome result ↔ (is_set set ≡ true) }
        ensures numbers { IfSome result (λ r. r.params ≡ set_of set) }
        ensures size { IfSome result (λ r. length r.powers.now ≡ r.params.n) }
        ensures least { IfSome result (λ r. GeneratorTable (generator_of set) (set_of set).n (take ((set_of set).n - 1) r.split.now)) }
    {
        let powers = Powers::of(set)?;
        Some(Ring {
            params: powers.params,
            powers: powers.table,
            split: split_of(set),
        })
    }

    // The ring of a set's numbers, any that are sound, with tables by the rule: N powers of its g at least, of which the first N are read, and 3 (N - 1) numbers
    // that are a split's (specs/Split.antt). A ring asks no more than this of tables.
    pub fn from_tables(params: Params, powers: &'a [u32], split: &'a [u32]) -> Ring<'a>
        requires usable { Usable params powers.now × SplitTable params split.now }
        requires size { params.n ≤ length powers.now }
        ensures numbers { result.params ≡ params }
        ensures powers { result.powers.now ≡ powers.now }
        ensures split { result.split.now ≡ split.now }
    {
        Ring {
            params,
            powers,
            split,
        }
    }

    // The ring without the tables of its split.
    pub fn powers(&self) -> Powers<'a>
        ensures numbers { result.params ≡ self.now.params }
        ensures table { result.table.now ≡ self.now.powers.now }
    {
        Powers {
            params: self.params,
            table: self.powers,
        }
    }
}
