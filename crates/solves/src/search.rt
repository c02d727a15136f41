// The loop of both searches: a pass goes on with the number that the last one left, until it leaves none.
ghost use Rattle.std.specs.Prelude.{ℕ, ◌≡◌, ◌≤◌, length, Float};
ghost use Rattle.arith.specs.Flow.{leaving};
ghost use Rattle.arith.specs.Run.{ran, after, up_to};
ghost use Rattle.rows.specs.Fault.{NonConvergent, Result};
ghost use Rattle.rows.specs.View.{Kept};
ghost use Rattle.solves.specs.Answer.{search_as};
ghost use Rattle.solves.specs.Region.{vec_at, Does};
ghost use Rattle.solves.specs.View.{search_at, Passing, COUNT_MOST, SOLUTION, END};

use arith::fault::CollisionError;

// A pass is counted when it was gone through whole, and there is no test after the last.
pub(crate) fn search<F: Fn(&mut [f64], f64) -> Result<Option<f64>, CollisionError>>(
    s: &mut [f64],
    most: usize,
    start: f64,
    linear: &mut usize,
    pass: F,
) -> Result<(), CollisionError>
    requires small { (END ≤ length s.old) × (linear.old ≤ COUNT_MOST) × (most ≤ COUNT_MOST) }
    requires callable { (t : _) (rho : Float) → END ≤ length t.now → F.pre pass t rho }
    ensures { (n : ℕ) (defined : _) → ((t : _) (rho : Float) (r : _) (u : _) → Kept Passing s.old t.now → F.post pass t rho r u
        → Does Passing t.now u.now (search_as r u.now n) (defined (search_at t.now n rho)))
        → Does Passing s.old s.new (ran (leaving result (vec_at s.new SOLUTION n)) 0 linear.new)
        (after 0 linear.old (up_to most NonConvergent defined (search_at s.old n start))) }
{
    let mut rho = start;
    for _ in 0..most {
        let Some(next) = pass(s, rho)? else {
            return Ok(());
        };
        rho = next;
        *linear += 1;
    }
    Err(CollisionError::NonConvergent)
}
