// Loops over whole vectors of the scratch.
ghost use Rattle.std.specs.Prelude.{◌≡◌, ◌+◌, Float};
ghost use Rattle.solves.specs.Solver.{plus, difference as difference_of};
ghost use Rattle.solves.specs.Region.{vec_at, Does};
ghost use Rattle.solves.specs.View.{Beside, Onto, Filling};

// x = f(a, b), double by double, where x may be a or b
fn combine<F: Fn(f64, f64) -> f64>(s: &mut [f64], x: usize, a: usize, b: usize, n: usize, f: F)
    requires places { (Onto s.old n x a) × (Onto s.old n x b) }
    requires callable { F.IsAlwaysCallable f }
    ensures { (g : Float → Float → Float) → ((p q r : Float) → F.post f p q r → r ≡ g p q) → Filling g x a b n s.old s.new }
{
    for k in 0..n {
        s[x + k] = f(s[a + k], s[b + k]);
    }
}

pub(crate) fn copy(s: &mut [f64], to: usize, from: usize, n: usize)
    requires { Onto s.old n to from }
    ensures { Does (Beside to) s.old s.new (vec_at s.new to n) (vec_at s.old from n) }
{
    combine(s, to, from, from, n, |a, _| a);
}

// x = a + alpha * b, where x may be a or b
pub(crate) fn add_scaled(s: &mut [f64], x: usize, a: usize, alpha: f64, b: usize, n: usize)
    requires { (Onto s.old n x a) × (Onto s.old n x b) }
    ensures { Does (Beside x) s.old s.new (vec_at s.new x n) (plus (vec_at s.old a n) alpha (vec_at s.old b n)) }
{
    combine(s, x, a, b, n, |a, b| a + alpha * b);
}

// x = a - b
pub(crate) fn difference(s: &mut [f64], x: usize, a: usize, b: usize, n: usize)
    requires { (Onto s.old n x a) × (Onto s.old n x b) }
    ensures { Does (Beside x) s.old s.new (vec_at s.new x n) (difference_of (vec_at s.old a n) (vec_at s.old b n)) }
{
    combine(s, x, a, b, n, |a, b| a - b);
}
