// The records of a plan file, each at the head of a part of it.
ghost use Rattle.std.specs.Prelude.{◌+◌, ◌≤◌, ◌≡◌, length};
ghost use Rattle.std.proofs.Math.Seq.{paste};
ghost use Rattle.plan.specs.File as File;

use crate::kind::JointKind;
use crate::layout;
use rows::geometry::{Joint, JointFrame, Kind};
use std::num::f64_from_bits_with_nan;
use vectors::quaternion::Quat;
use vectors::vector::Vec3;

// The doubles of the body at the head of the file.
pub(crate) fn put_body(bodies: &mut [f64], at: usize, file: &[u8])
    requires { (File.BODY ≤ length file.now) × (at + File.DOUBLES ≤ length bodies.old) }
    ensures { bodies.new ≡ paste bodies.old at (File.body_of file.now) File.DOUBLES }
{
    for (i, x) in bodies[at..at + layout::DOUBLES].iter_mut().enumerate() {
        *x = double_at(file, layout::NUMBERS + 8 * i);
    }
}

// The joint at the head of the file.
#[tactic(auto, unfolding(crate::specs::File::joint_of, crate::specs::File::kind_of))]
pub(crate) fn joint_at(file: &[u8]) -> Joint
    requires { File.JointThere file.now }
    ensures { result ≡ File.joint_of file.now }
{
    let kind = JointKind::try_from(file[layout::KIND]).unwrap();
    Joint {
        body_a: file[layout::SIDE_A] as usize,
        body_b: file[layout::SIDE_B] as usize,
        frame_a: frame_at(file, layout::FRAME_A),
        frame_b: frame_at(file, layout::FRAME_B),
        kind: kind_at(file, kind),
    }
}

fn frame_at(file: &[u8], at: usize) -> JointFrame
    requires { at + 56 ≤ length file.now }
    ensures { result ≡ File.frame_at file.now at }
{
    JointFrame {
        local_anchor: Vec3 {
            x: double_at(file, at),
            y: double_at(file, at + 8),
            z: double_at(file, at + 16),
        },
        local_rotation: Quat {
            x: double_at(file, at + 24),
            y: double_at(file, at + 32),
            z: double_at(file, at + 40),
            w: double_at(file, at + 48),
        },
    }
}

// What a joint of this kind holds.
fn kind_at(file: &[u8], kind: JointKind) -> Kind
    requires { File.joint_length kind ≤ length file.now }
    ensures { result ≡ File.kind_in file.now kind }
{
    match kind {
        JointKind::Ball => Kind::Ball,
        JointKind::Hinge => Kind::Hinge,
        JointKind::Cylindrical => Kind::Cylindrical,
        JointKind::Planar => Kind::Planar,
        JointKind::Distance => Kind::Distance(double_at(file, layout::LENGTH)),
        JointKind::ConeTwist => cone_twist_at(file),
    }
}

fn cone_twist_at(file: &[u8]) -> Kind
    requires { File.CONE_TWIST ≤ length file.now }
    ensures { result ≡ File.cone_twist_of file.now }
{
    Kind::ConeTwist {
        swing_x: double_at(file, layout::SWING_X),
        swing_y: double_at(file, layout::SWING_Y),
        twist_lower: double_at(file, layout::TWIST_LOWER),
        twist_upper: double_at(file, layout::TWIST_UPPER),
    }
}

#[tactic(auto, unfolding(crate::specs::File::double))]
pub(crate) fn double_at(file: &[u8], at: usize) -> f64
    requires { at + 8 ≤ length file.now }
    ensures { result ≡ File.double file.now at }
{
    f64_from_bits_with_nan(word_at(file, at))
}

// Eight bytes, the least first.
fn word_at(file: &[u8], at: usize) -> u64
    requires { at + 8 ≤ length file.now }
    ensures { result ≡ File.word file.now at }
{
    u64::from_le_bytes([
        file[at],
        file[at + 1],
        file[at + 2],
        file[at + 3],
        file[at + 4],
        file[at + 5],
        file[at + 6],
        file[at + 7],
    ])
}
