// The kind byte of a joint, and how long the record of such a joint is.
ghost use Rattle.std.specs.Prelude.{◌≡◌};
ghost use Rattle.plan.specs.File as File;

use crate::layout;
use crate::reader::ReadError;

#[derive(Clone, Copy)]
pub(crate) enum JointKind {
    Ball,
    Hinge,
    Cylindrical,
    Planar,
    Distance,
    ConeTwist,
}

impl TryFrom<u8> for JointKind {
    type Error = ReadError;

    ghost try_from_gives = { λ byte r. r ≡ File.kind_byte byte };

    #[tactic(auto, unfolding(crate::specs::File::kind_named))]
    fn try_from(byte: u8) -> Result<JointKind, ReadError> {
        match byte {
            0 => Ok(JointKind::Ball),
            1 => Ok(JointKind::Hinge),
            2 => Ok(JointKind::Cylindrical),
            3 => Ok(JointKind::Planar),
            4 => Ok(JointKind::Distance),
            5 => Ok(JointKind::ConeTwist),
            _ => Err(ReadError::KindByte),
        }
    }
}

impl JointKind {
    pub(crate) fn length(self) -> usize
        ensures { result ≡ File.joint_length self }
    {
        match self {
            JointKind::Distance => layout::DISTANCE,
            JointKind::ConeTwist => layout::CONE_TWIST,
            _ => layout::JOINT,
        }
    }
}
