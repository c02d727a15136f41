// Reads a plan file: records in any order, each under a two-byte mark. What it says is in specs/File.antt.
ghost use Rattle.std.specs.Prelude.{◌+◌, ◌^◌, ◌≤◌, ◌<◌, ◌≡◌, length, is_some};
ghost use Rattle.plan.specs.File as File;
ghost use Rattle.plan.specs.Noting as Noting;

use crate::kind::JointKind;
use crate::layout;
use crate::records::{double_at, joint_at, put_body};
use rows::geometry::{Joint, JointFrame, Kind};
use vectors::quaternion::Quat;
use vectors::vector::Vec3;

// The tables, with space for sixteen bodies of 26 doubles and sixteen joints.
#[derive(Drop)]
pub struct Tables {
    pub bodies: [f64; layout::TABLE],
    pub body_count: usize,
    pub joints: [Joint; 16],
    pub joint_count: usize,
}

// What a file says: the time step, and the tables with its records.
#[derive(Drop)]
pub struct Plan {
    pub dt: f64,
    pub tables: Tables,
}

#[derive(Clone, Copy, Debug, PartialEq, Eq)]
pub enum ReadError {
    Mark,
    SecondTimeStep,
    TooMany,
    KindByte,
    Truncated,
    NoTimeStep,
}

impl ReadError {
    pub fn number(self) -> usize
        ensures { result ≡ File.read_number self }
    {
        match self {
            ReadError::Mark => 13,
            ReadError::SecondTimeStep => 14,
            ReadError::TooMany => 15,
            ReadError::KindByte => 16,
            ReadError::Truncated => 17,
            ReadError::NoTimeStep => 18,
        }
    }
}

// Why a file was refused, and the tables as they came.
#[derive(Drop)]
pub struct Refused {
    pub error: ReadError,
    pub tables: Tables,
}

// What stands at the head of a part of the file, to its end. A joint comes with its length in bytes, which goes by its kind.
#[derive(Clone, Copy)]
enum Record {
    TimeStep,
    Body,
    Joint(usize),
}

// Tables with no records; every number is +0.
impl Default for Tables {
    ghost is_default = { λ tables. tables ≡ File.empty_of };

    #[tactic(auto, unfolding(crate::specs::File::empty_of))]
    fn default() -> Tables {
        let frame = JointFrame {
            local_anchor: Vec3 {
                x: 0.0,
                y: 0.0,
                z: 0.0,
            },
            local_rotation: Quat {
                x: 0.0,
                y: 0.0,
                z: 0.0,
                w: 0.0,
            },
        };
        let joint = Joint {
            body_a: 0,
            body_b: 0,
            frame_a: frame,
            frame_b: frame,
            kind: Kind::Ball,
        };
        Tables {
            bodies: [0.0; layout::TABLE],
            body_count: 0,
            joints: [joint; 16],
            joint_count: 0,
        }
    }
}

// At which byte each record of one sort begins.
#[derive(Clone, Copy)]
struct Places {
    bytes: [usize; 16],
    count: usize,
}

impl Places {
    fn none() -> Places
        ensures { result ≡ Noting.no_places }
    {
        Places {
            bytes: [0; 16],
            count: 0,
        }
    }

    fn with(self, at: usize) -> Places
        requires { self.count < 16 }
        ensures { result ≡ Noting.with_place at self }
    {
        let mut bytes = self.bytes;
        bytes[self.count] = at;
        Places {
            bytes,
            count: self.count + 1,
        }
    }
}

// What was read of a file: the time step, and where its bodies and its joints begin. The part from `at` on is still to be read.
#[derive(Clone, Copy)]
struct Notes {
    at: usize,
    dt: Option<f64>,
    bodies: Places,
    joints: Places,
}

// Reads a whole file. A refusal hands the tables back as they came; else they hold the records read, and the space after
// them is as it was. They are written once, when the file has been read to its end.
pub fn read(file: &[u8], tables: Tables) -> Result<Plan, Refused>
    ensures { result ≡ File.read_of file.now tables }
{
    match noted(file) {
        Ok((dt, notes)) => Ok(Plan {
            dt,
            tables: filled(file, tables, notes),
        }),
        Err(error) => Err(Refused { error, tables }),
    }
}

// The time step of a whole file, and what else was noted.
fn noted(file: &[u8]) -> Result<(f64, Notes), ReadError>
    ensures { Noting.Noted file.now result }
{
    let start = Notes {
        at: 0,
        dt: None,
        bodies: Places::none(),
        joints: Places::none(),
    };
    let notes = read_on(file, start)?;
    let dt = notes.dt.ok_or(ReadError::NoTimeStep)?;
    Ok((dt, notes))
}

// Reads the rest of a file, and hands the part after each record on to itself.
fn read_on(file: &[u8], notes: Notes) -> Result<Notes, ReadError>
    requires { notes.at + length file.now < 2 ^ 64 }
    ensures { Noting.Reads file.now notes result }
{
    match notes.head(file)? {
        None => Ok(notes),
        Some(Record::TimeStep) => read_on(
            &file[layout::TIME_STEP..],
            notes.with_time_step(double_at(file, layout::NUMBERS)),
        ),
        Some(Record::Body) => read_on(&file[layout::BODY..], notes.with_body()),
        Some(Record::Joint(n)) => read_on(&file[n..], notes.with_joint(n)),
    }
}

// The notes with one more record, which stands where they end.
impl Notes {
    fn with_time_step(self, dt: f64) -> Notes
        requires { self.at + File.TIME_STEP < 2 ^ 64 }
        ensures { result ≡ Noting.with_time_step dt self }
    {
        Notes {
            at: self.at + layout::TIME_STEP,
            dt: Some(dt),
            ..self
        }
    }

    fn with_body(self) -> Notes
        requires { (self.at + File.BODY < 2 ^ 64) × (self.bodies.count < 16) }
        ensures { result ≡ Noting.with_body self }
    {
        let bodies = self.bodies.with(self.at);
        Notes {
            at: self.at + layout::BODY,
            bodies,
            ..self
        }
    }

    fn with_joint(self, n: usize) -> Notes
        requires { (self.at + n < 2 ^ 64) × (self.joints.count < 16) }
        ensures { result ≡ Noting.with_joint n self }
    {
        let joints = self.joints.with(self.at);
        Notes {
            at: self.at + n,
            joints,
            ..self
        }
    }

    // The tests at a record, in the order of SPECIFICATION §12; at the end of the file there is none.
    #[tactic(auto, unfolding(crate::specs::File::head_of))]
    fn head(self, file: &[u8]) -> Result<Option<Record>, ReadError>
        ensures { result ≡ File.head_of file.now (is_some self.dt) self.bodies.count self.joints.count }
    {
        if file.is_empty() {
            return Ok(None);
        }
        if file.starts_with(&layout::TIME_STEP_MARK) {
            return time_step_head(file, self.dt.is_some());
        }
        if file.starts_with(&layout::BODY_MARK) {
            return body_head(file, self.bodies.count);
        }
        if file.starts_with(&layout::JOINT_MARK) {
            return joint_head(file, self.joints.count);
        }
        Err(ReadError::Mark)
    }
}

#[tactic(auto, unfolding(crate::specs::File::time_step_head))]
fn time_step_head(file: &[u8], has_dt: bool) -> Result<Option<Record>, ReadError>
    ensures { result ≡ File.time_step_head file.now has_dt }
{
    if has_dt {
        return Err(ReadError::SecondTimeStep);
    }
    if file.len() < layout::TIME_STEP {
        return Err(ReadError::Truncated);
    }
    Ok(Some(Record::TimeStep))
}

#[tactic(auto, unfolding(crate::specs::File::body_head))]
fn body_head(file: &[u8], bodies: usize) -> Result<Option<Record>, ReadError>
    ensures { result ≡ File.body_head file.now bodies }
{
    if 16 <= bodies {
        return Err(ReadError::TooMany);
    }
    if file.len() < layout::BODY {
        return Err(ReadError::Truncated);
    }
    Ok(Some(Record::Body))
}

// The kind byte, the fifth, is looked at before the record's end is.
#[tactic(auto, unfolding(crate::specs::File::joint_head))]
fn joint_head(file: &[u8], joints: usize) -> Result<Option<Record>, ReadError>
    ensures { result ≡ File.joint_head file.now joints }
{
    if 16 <= joints {
        return Err(ReadError::TooMany);
    }
    if file.len() < layout::FRAME_A {
        return Err(ReadError::Truncated);
    }
    let n = JointKind::try_from(file[layout::KIND])?.length();
    if file.len() < n {
        return Err(ReadError::Truncated);
    }
    Ok(Some(Record::Joint(n)))
}

// The tables with the records that are noted.
fn filled(file: &[u8], tables: Tables, notes: Notes) -> Tables
    requires { Noting.There file.now notes }
    ensures { result ≡ Noting.filled_of file.now tables notes }
{
    let mut bodies = tables.bodies;
    put_bodies(&mut bodies, file, notes.bodies);
    let joints = joints_from(tables.joints, file, notes.joints);
    Tables {
        bodies,
        body_count: notes.bodies.count,
        joints,
        joint_count: notes.joints.count,
    }
}

// The bodies that begin at these places of the file.
fn put_bodies(table: &mut [f64], file: &[u8], places: Places)
    requires count_bound { (places.count ≤ 16) × (length table.old ≡ File.TABLE) }
    requires all { Noting.All (Noting.BodyAt file.now) places }
    ensures { table.new ≡ Noting.bodies_from file.now places table.old }
{
    for (k, at) in places.bytes[..places.count].iter().enumerate() {
        put_body(table, layout::DOUBLES * k, &file[*at..]);
    }
}

// The joints likewise.
fn joints_from(table: [Joint; 16], file: &[u8], places: Places) -> [Joint; 16]
    requires count_bound { places.count ≤ 16 }
    requires all { Noting.All (Noting.JointAt file.now) places }
    ensures { result ≡ Noting.joints_from file.now places table }
{
    let mut joints = table;
    for (k, at) in places.bytes[..places.count].iter().enumerate() {
        joints[k] = joint_at(&file[*at..]);
    }
    joints
}
