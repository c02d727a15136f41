// Rows in the scratch with the bodies that they join, and an order of them along a path. What is known of their numbers is
// known of each such value.
ghost use Rattle.std.specs.Prelude.{◌≡◌, ◌≤◌, ◌<◌, length, get_or};
ghost use Rattle.solves.specs.Layout.{ROWS, BODIES_MOST, ROWS_MOST};

// A table of rows: its place in the scratch, how many bodies there are, and of each row the two that it joins.
#[derive(Clone, Copy)]
pub struct Rows<'a> {
    pub place: usize,
    pub bodies: usize,
    pub a: &'a [usize],
    pub b: &'a [usize],
    ghost in_table: { place ≤ ROWS },
    ghost few_bodies: { bodies ≤ BODIES_MOST },
    ghost few_rows: { length a.now ≤ ROWS_MOST },
    ghost paired: { length b.now ≡ length a.now },
    ghost a_there: { (k : _) → k < length a.now → get_or a.now k 0 < bodies },
    ghost b_there: { (k : _) → k < length a.now → get_or b.now k 0 < bodies },
}

// Rows in the order of a path.
#[derive(Clone, Copy)]
pub(crate) struct Path<'a> {
    pub rows: Rows<'a>,
    pub order: &'a [usize],
    ghost whole: { length order.now ≡ length rows.a.now },
    ghost along: { (i : _) → i < length rows.a.now → get_or order.now i 0 < length rows.a.now },
}
