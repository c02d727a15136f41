// The functions of `arith` and the whole of `pose` for Rust to link: tools/bench measures them. A refused argument gives 0.
#![tactic(auto)]

ghost use Rattle.std.specs.Prelude.{◌≡◌};
ghost use Rattle.std.specs.Float.{binary64};
ghost use Rattle.arith.specs.Root as Root;
ghost use Rattle.arith.specs.Hypot.{hypot_of};
ghost use Rattle.arith.specs.Angle.{sin_cos_of, atan2_of, rem_tau_of};
ghost use Rattle.io.specs.Counts.{IsPrefixLen};
ghost use Rattle.report.specs.Pose as Pose;
ghost use Rattle.bench_c.specs.Exported.{sine_in, cosine_in, angle_in};

use step::layout::SCRATCH;

#[unsafe(no_mangle)]
pub extern "C" fn rattle_sqrt(x: f64) -> f64
    ensures { result ≡ Root.sqrt binary64 x }
{
    arith::root::sqrt(x)
}

#[unsafe(no_mangle)]
pub extern "C" fn rattle_hypot(x: f64, y: f64) -> f64
    ensures { result ≡ hypot_of x y }
{
    arith::root::hypot(x, y)
}

#[unsafe(no_mangle)]
pub extern "C" fn rattle_sin(h: f64) -> f64
    ensures { result ≡ sine_in (sin_cos_of h) }
{
    match arith::angle::sin_cos(h) {
        Ok(t) => t.s,
        Err(_) => 0.0,
    }
}

#[unsafe(no_mangle)]
pub extern "C" fn rattle_cos(h: f64) -> f64
    ensures { result ≡ cosine_in (sin_cos_of h) }
{
    match arith::angle::sin_cos(h) {
        Ok(t) => t.c,
        Err(_) => 0.0,
    }
}

#[unsafe(no_mangle)]
pub extern "C" fn rattle_atan2(y: f64, x: f64) -> f64
    ensures { result ≡ angle_in (atan2_of y x) }
{
    match arith::angle::atan2(y, x) {
        Ok(v) => v,
        Err(_) => 0.0,
    }
}

#[unsafe(no_mangle)]
pub extern "C" fn rattle_rem_tau(x: f64) -> f64
    ensures { result ≡ rem_tau_of x }
{
    arith::angle::rem_tau(x)
}

#[unsafe(no_mangle)]
pub extern "C" fn pose_report(file: &[u8], out: &mut [u8]) -> usize
    ensures prefix_len { IsPrefixLen result out.new }
    ensures value { result ≡ Pose.pose_length file.now Pose.fresh out.old }
    ensures out_after { out.new ≡ Pose.pose_out file.now Pose.fresh out.old }
{
    let mut scratch = [0.0f64; SCRATCH];
    report::pose(file, &mut scratch, out)
}
