// The plan file's marks, how many bytes each record has, its mark among them, and from which byte on it has what. A double has
// eight bytes.
pub const TIME_STEP_MARK: [u8; 2] = *b"DT";

pub const BODY_MARK: [u8; 2] = *b"BD";

pub const JOINT_MARK: [u8; 2] = *b"JT";

// The first double of a time step or a body.
pub const NUMBERS: usize = 2;

pub const TIME_STEP: usize = 10;

pub const BODY: usize = 210;

// A joint's bodies, its kind and its frames.
pub const SIDE_A: usize = 2;

pub const SIDE_B: usize = 3;

pub const KIND: usize = 4;

pub const FRAME_A: usize = 5;

pub const FRAME_B: usize = 61;

// Behind them the one number of a distance, or the four of a cone with a twist.
pub const LENGTH: usize = 117;

pub const SWING_X: usize = 117;

pub const SWING_Y: usize = 125;

pub const TWIST_LOWER: usize = 133;

pub const TWIST_UPPER: usize = 141;

// A joint of one of these, and of any other kind.
pub const DISTANCE: usize = 125;

pub const CONE_TWIST: usize = 149;

pub const JOINT: usize = 117;

// The table of bodies: sixteen of 26 doubles.
pub const DOUBLES: usize = 26;

pub const TABLE: usize = 16 * DOUBLES;
