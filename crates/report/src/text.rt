// The text that answers a plan: one line of the outcome and the counts, then a line for each body.
ghost use Rattle.std.specs.Prelude.{◌+◌, ◌*◌, ◌≤◌, ◌≡◌, length};
ghost use Rattle.io.specs.Counts.{IsPrefixLen};
ghost use Rattle.step.specs.Records.{RECORD};
ghost use Rattle.report.specs.Text as Text;

use std::num::f64_to_bits_with_nan;
use step::layout::RECORD;

// The longest first line, and the longest line of a body: a count has at most 20 digits.
const HEAD_LINE: usize = 66;

const BODY_LINE: usize = 242;

// The nonlinear passes begun, and the linear passes counted.
#[derive(Clone, Copy)]
pub struct Counts {
    pub nonlinear: usize,
    pub linear: usize,
}

impl From<step::Report> for Counts {
    ghost from_gives = { λ answer counts. counts ≡ record { nonlinear = answer.nonlinear; linear = answer.linear } };

    fn from(answer: step::Report) -> Counts {
        Counts {
            nonlinear: answer.nonlinear,
            linear: answer.linear,
        }
    }
}

// Puts the report at the head of `out`, and answers its length. An accepted step has bodies, as many as there are records of
// 26 doubles; a refusal has its number. Where `out` may be too short nothing is written, and the answer is 0.
pub fn report(answer: Result<&[f64], usize>, counts: Counts, out: &mut [u8]) -> usize
    ensures prefix_len { IsPrefixLen result out.new }
    ensures value { result ≡ Text.report_length (Text.told answer.entry) counts.nonlinear counts.linear out.old }
    ensures out_after { out.new ≡ Text.report_out (Text.told answer.entry) counts.nonlinear counts.linear out.old }
{
    if out.len() < HEAD_LINE || (out.len() - HEAD_LINE) / BODY_LINE < body_count(answer) {
        return 0;
    }
    let mut page = Page { out, at: 0 };
    page.put_report(answer, counts);
    page.at
}

// How many bodies have a line.
fn body_count(answer: Result<&[f64], usize>) -> usize
    ensures { result ≡ Text.count_in (Text.told answer.entry) }
{
    match answer {
        Ok(bodies) => bodies.len() / RECORD,
        Err(_) => 0,
    }
}

// A text that is put piece by piece: the next piece goes to `at`.
#[derive(Drop)]
struct Page<'a> {
    out: &'a mut [u8],
    at: usize,
}

impl<'a> Page<'a> {
    fn put_report(&mut self, answer: Result<&[f64], usize>, counts: Counts)
        requires { self.old.at + Text.room_of (Text.told answer) ≤ length self.old.out.now }
        ensures { Text.Writes self.old (Text.report_of (Text.told answer.entry) counts.nonlinear counts.linear) self.new }
    {
        match answer {
            Ok(bodies) => {
                self.put_ok(counts);
                self.put_bodies(bodies, bodies.len() / RECORD);
            }
            Err(number) => self.put_no(number, counts),
        }
    }

    // The first line of an accepted step.
    fn put_ok(&mut self, counts: Counts)
        requires { self.old.at + Text.HEAD_LINE ≤ length self.old.out.now }
        ensures { Text.Writes self.old (Text.ok_line counts.nonlinear counts.linear) self.new }
    {
        self.put(b"OK ");
        self.put_counts(counts);
    }

    // The line of a refusal.
    fn put_no(&mut self, number: usize, counts: Counts)
        requires { self.old.at + Text.HEAD_LINE ≤ length self.old.out.now }
        ensures { Text.Writes self.old (Text.no_line number counts.nonlinear counts.linear) self.new }
    {
        self.put(b"NO ");
        self.put_decimal(number as u64);
        self.put(b" ");
        self.put_counts(counts);
    }

    fn put_counts(&mut self, counts: Counts)
        requires { self.old.at + 42 ≤ length self.old.out.now }
        ensures { Text.Writes self.old (Text.counts_of counts.nonlinear counts.linear) self.new }
    {
        self.put_decimal(counts.nonlinear as u64);
        self.put(b" ");
        self.put_decimal(counts.linear as u64);
        self.put(b"\n");
    }

    fn put_bodies(&mut self, bodies: &[f64], body_count: usize)
        requires { (self.old.at + Text.BODY_LINE * body_count ≤ length self.old.out.now) × (RECORD * body_count ≤ length bodies.now) }
        ensures { Text.Writes self.old (Text.body_lines bodies.now body_count) self.new }
    {
        for i in 0..body_count {
            self.put_body(bodies, i);
        }
    }

    // The line of body `i`.
    fn put_body(&mut self, bodies: &[f64], i: usize)
        requires { (self.old.at + Text.BODY_LINE ≤ length self.old.out.now) × (RECORD * i + RECORD ≤ length bodies.now) }
        ensures { Text.Writes self.old (Text.body_line bodies.now i) self.new }
    {
        self.put_decimal(i as u64);
        self.put_state(bodies, RECORD * i);
        self.put(b"\n");
    }

    // The thirteen doubles of a state, each after a space.
    fn put_state(&mut self, bodies: &[f64], from: usize)
        requires { (self.old.at + 221 ≤ length self.old.out.now) × (from + 13 ≤ length bodies.now) }
        ensures { Text.Writes self.old (Text.fields_of bodies.now from 13) self.new }
    {
        for x in &bodies[from..from + 13] {
            self.put_field(*x);
        }
    }

    // A space and the sixteen hexadecimal digits of a double's bits.
    fn put_field(&mut self, x: f64)
        requires { self.old.at + 17 ≤ length self.old.out.now }
        ensures { Text.Writes self.old (Text.field_of x) self.new }
    {
        let mut digits = [0u8; 16];
        let k = io::hex(f64_to_bits_with_nan(x), 16, &mut digits);
        self.put(b" ");
        self.put(&digits[..k]);
    }

    fn put_decimal(&mut self, n: u64)
        requires { self.old.at + 20 ≤ length self.old.out.now }
        ensures { Text.Writes self.old (Text.decimal_of n) self.new }
    {
        let mut digits = [0u8; 20];
        let k = io::decimal(n, &mut digits);
        self.put(&digits[..k]);
    }

    fn put(&mut self, text: &[u8])
        requires { self.old.at + length text.now ≤ length self.old.out.now }
        ensures { Text.Writes self.old text.now self.new }
    {
        let end = self.at + text.len();
        self.out[self.at..end].copy_from_slice(text);
        self.at = end;
    }
}
