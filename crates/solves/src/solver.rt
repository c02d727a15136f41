// `linear_solve` of solver.rs: which solve is taken, from a solution of zeros and the right side as residual.
ghost use Rattle.std.specs.Prelude.{◌≡◌, ◌≤◌, length};
ghost use Rattle.solves.specs.Search.{linear_solve};
ghost use Rattle.solves.specs.Answer.{Solves};
ghost use Rattle.solves.specs.View.{rhs_at, COUNT_MOST, END};

use crate::gradients::gradients;
use crate::joined::{Path, Rows};
use crate::layout::{RESIDUAL, RHS, SOLUTION};
use crate::least_squares::least_squares;
use crate::order::path_order;
use crate::path::path_along;
use crate::values::copy;
use arith::fault::CollisionError;
use rows::geometry::clear;

impl Rows<'_> {
    // Solves for the right side that stands in the scratch, and counts on the linear passes.
    pub fn solve(
        &self,
        s: &mut [f64],
        cyclic: bool,
        linear: &mut usize,
    ) -> Result<(), CollisionError>
        requires { (END ≤ length s.old) × (linear.old ≤ COUNT_MOST) }
        ensures { Solves s.old s.new self.now linear.old linear.new result (λ system. linear_solve cyclic system (rhs_at s.old self.now)) }
    {
        let n = self.count();
        clear(s, SOLUTION, n);
        copy(s, RESIDUAL, RHS, n);
        if cyclic {
            return least_squares(s, self, linear);
        }
        let Ok(order) = path_order(self) else {
            return gradients(s, self, linear);
        };
        path_along(
            s,
            &Path {
                rows: *self,
                order: &order[..n],
            },
            linear,
        )
    }
}
