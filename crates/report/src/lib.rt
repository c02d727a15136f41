// A plan file read, stepped and reported.
#![tactic(auto)]

pub mod text;

ghost use Rattle.std.specs.Prelude.{◌≤◌, ◌≡◌, length};
ghost use Rattle.io.specs.Counts.{IsPrefixLen};
ghost use Rattle.report.specs.Pose as Pose;
ghost use Rattle.report.specs.Text as Text;

use crate::text::Counts;
use plan::reader::{Plan, Tables};
use step::layout::RECORD;

// Room enough for every answer: the first line, and sixteen bodies.
pub const ROOM: usize = 3938;

// Puts the answer to a plan file at the head of `out`, and answers its length. Where `out` is shorter than `ROOM` nothing
// is done, and the answer is 0.
pub fn pose(file: &[u8], scratch: &mut [f64], out: &mut [u8]) -> usize
    ensures prefix_len { IsPrefixLen result out.new }
    ensures value { result ≡ Pose.pose_length file.now scratch.old out.old }
    ensures out_after { out.new ≡ Pose.pose_out file.now scratch.old out.old }
    ensures scratch_after { scratch.new ≡ Pose.pose_scratch file.now scratch.old out.old }
{
    if out.len() < ROOM {
        return 0;
    }
    let no_passes = Counts {
        nonlinear: 0,
        linear: 0,
    };
    match plan::reader::read(file, Tables::default()) {
        Ok(plan) => step_and_report(plan, scratch, out),
        Err(refused) => text::report(Err(refused.error.number()), no_passes, out),
    }
}

fn step_and_report(plan: Plan, scratch: &mut [f64], out: &mut [u8]) -> usize
    requires { (plan.tables.body_count ≤ 16) × (plan.tables.joint_count ≤ 16) × (Pose.ROOM ≤ length out.old) }
    ensures puts { Text.Puts out.old 0 (Pose.posed_after (Pose.step_of plan scratch.old)).text out.new result }
    ensures scratch_after { scratch.new ≡ (Pose.posed_after (Pose.step_of plan scratch.old)).scratch }
{
    let tables = plan.tables;
    let mut bodies = tables.bodies;
    let joints = tables.joints;
    let used = RECORD * tables.body_count;
    let answer = step::solve(
        &mut bodies[..used],
        &joints[..tables.joint_count],
        plan.dt,
        scratch,
    );
    let counts = Counts::from(answer);
    match answer.outcome {
        Ok(()) => text::report(Ok(&bodies[..used]), counts, out),
        Err(refusal) => text::report(Err(refusal.number()), counts, out),
    }
}
