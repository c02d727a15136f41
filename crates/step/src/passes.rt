// What both loops of a run share: what a stage of it is (`Stage`), the second half of a pass (`correct`) and the loop
// (`stage_loop`). The stages are `NonlinearStage` of integrator.rt and `VelocityStage` of velocity.rt.
ghost use Rattle.std.specs.Prelude.{◌*◌, ◌≤◌};
ghost use Rattle.solves.specs.declared.joined.Rows.{Rows};
ghost use Rattle.solves.specs.View.{solution_at, COUNT_MOST};
ghost use Rattle.step.specs.Bodies.{Job};
ghost use Rattle.step.specs.RunView.{Which, Apart, Outside, given_at, make_at, LIMIT};
ghost use Rattle.step.specs.Says.{Leaves, Corrects, Passes, Loops};

use crate::layout::Scratch;
use arith::fault::CollisionError;
use solves::joined::Rows;
use std::ops::ControlFlow;

// The passes that were begun in the nonlinear loop, and the linear passes of all solves.
#[derive(Clone, Copy)]
pub(crate) struct Counts {
    pub nonlinear: usize,
    pub linear: usize,
}

// What a stage makes of a solution.
pub(crate) trait Apply {
    // Which of the definition's loops it is of.
    ghost which: { Which };

    // The impulses of the next pass, or the candidates kicked.
    fn apply(&self, s: &mut Scratch, rows: &Rows) -> Result<(), CollisionError>
        ensures { Leaves (Outside which) s.old s.new result (λ u. given_at which u rows.now)
            (make_at which s.old rows.now (solution_at s.old rows.now)) };
}

// The nonlinear loop from the starting bodies, or the velocity loop over the candidates that it found.
pub(crate) trait Stage: Apply {
    // What of a job it has, and what it asks of the rows.
    ghost job: { Self → Job };

    ghost needs: { Self → Rows → Type 0 };

    // One pass: the loop is over where its test is met.
    fn pass(
        &self,
        s: &mut Scratch,
        rows: &Rows,
        counts: &mut Counts,
    ) -> Result<ControlFlow<()>, CollisionError>
        requires { (needs self.now rows.now) × (counts.old.nonlinear ≤ 64) × (counts.old.linear ≤ COUNT_MOST) }
        ensures { Passes Self.which rows.now s.old s.new (job self.now) counts.old counts.new result };

    // The rows stand apart from those that a pass writes.
    ghost apart: { (it : Self) (rows : Rows) → needs it rows → Apart Self.which rows };
}

// The second half of a pass: a solve, and what is made of its solution.
pub(crate) fn correct<A: Apply>(
    to: &A,
    s: &mut Scratch,
    rows: &Rows,
    cyclic: bool,
    counts: &mut Counts,
) -> Result<ControlFlow<()>, CollisionError>
    requires { counts.old.linear ≤ COUNT_MOST }
    ensures { Corrects A.which rows.now s.old s.new cyclic counts.old counts.new result }
{
    rows.solve(s, cyclic, &mut counts.linear)?;
    to.apply(s, rows)?;
    Ok(ControlFlow::Continue(()))
}

// At most so many passes. Of at most 32, begun after at most 32, the counts cannot wrap.
pub(crate) fn stage_loop<S: Stage>(
    stage: &S,
    s: &mut Scratch,
    rows: &Rows,
    most: usize,
    counts: &mut Counts,
) -> Result<(), CollisionError>
    requires { (S.needs stage.now rows.now) × (most ≤ 32) × (counts.old.nonlinear ≤ 32) × (counts.old.linear ≤ 32 * LIMIT) }
    ensures { Loops S.which rows.now s.old s.new (S.job stage.now) most counts.old counts.new result }
{
    for _ in 0..most {
        if let ControlFlow::Break(()) = stage.pass(s, rows, counts)? {
            return Ok(());
        }
    }
    Err(CollisionError::NonConvergent)
}
