// The three stages: the sums of a list with the powers of g in the order of the generator's powers.
ghost use Rattle.std.specs.Prelude.{◌≡◌, ◌*◌, length};
ghost use Rattle.split.specs.Levels.{UnderIn};
ghost use Rattle.split.specs.Values.{Correlated};

use crate::levels::{cut_all, join_all};
use crate::products::multiply;
use crate::stages::Stages;

// Cuts x, multiplies its blocks by the rows, and joins the results.
pub fn correlate(x: &mut [u32], stages: &Stages, y: &mut [u32])
    requires x_len { let s = stages.now in (length x.old ≡ length s.twists.now * s.l) × (length y.old ≡ length s.twists.now * s.l) × UnderIn s.reducer.q x.old 0 (length x.old) }
    ensures size { length y.new ≡ length y.old }
    ensures under { UnderIn (144 * stages.now.reducer.q) y.new 0 (length y.new) }
    ensures stages { let s = stages.now in Correlated s.reducer.q s.l s.twists.now s.rows.now x.old y.new }
{
    cut_all(x, stages);
    multiply(x, stages, y);
    join_all(y, stages);
}
