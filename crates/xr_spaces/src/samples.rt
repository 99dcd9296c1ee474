// The samples of each origin: a ring for each, whose room is taken at the start.
ghost use Rattle.std.specs.Prelude.{◌≡◌, [], IfOk};
ghost use Rattle.xr_model.specs.machine.Spaces.{with_sample, pose_at, hand_place, origin_place, samples_of, with_sample_of};

use circular_buffer::HeapCircularBuffer;
use std::alloc::Global;
use std::marker::Model;
use xr_types::{NoMemory, ORIGINS, Origin, SAMPLES, User};

/// The pose that an origin has from a time on, in ns of device time. Contracts see the machine's sample.
#[derive(Clone, Copy)]
struct Sample {
    time: i64,
    pose: u64,
}

impl Model for Sample {
    ghost use Rattle.xr_model.specs.machine.Spaces as model;

    ghost Value = { model.Sample };

    ghost view = { λ s. record { time = s.time; pose = s.pose } };

    ghost inverse = { λ s. record { time = s.time; pose = s.pose } };
}

/// The newest samples of an origin, seen by contracts as their list, the newest first.
#[derive(Drop)]
pub(crate) struct Samples {
    ring: HeapCircularBuffer<Sample>,
}

impl Model for Samples {
    ghost use Rattle.std.specs.Prelude.{◌≡◌, List};
    ghost use Rattle.xr_model.specs.machine.Spaces as model;

    ghost Value = { List model.Sample };

    ghost view = { λ s. s.ring.items };

    ghost invariant = { λ s. s.ring.capacity ≡ 16 };
}

impl Samples {
    /// No sample yet. Takes the room of 16 samples, and nothing later takes any.
    pub(crate) fn start(alloc: Global) -> Result<Samples, NoMemory>
        ensures { IfOk result (λ samples. samples ≡ []) }
    {
        let ring = HeapCircularBuffer::with_capacity(alloc, SAMPLES)?;
        Ok(Samples { ring })
    }

    /// A sample comes. One that isn't later than the newest is ignored; with no room left, the oldest goes.
    fn push(&mut self, time: i64, pose: u64)
        ensures { self.new ≡ with_sample time pose self.old }
    {
        if let Some(newest) = self.ring.front() {
            if time <= newest.time {
                return;
            }
        }
        self.ring.push_front(Sample { time, pose });
    }

    /// The pose at a time: that of the newest sample which isn't later.
    fn pose_at(&self, time: i64) -> Option<u64>
        ensures { result ≡ pose_at time self.now }
    {
        let sample = self.ring.iter().find(|sample| sample.time <= time)?;
        Some(sample.pose)
    }
}

/// The place of a hand in a pair of them. No other user path has one: its number is past the end of any row.
fn hand_place(user: User) -> usize
    ensures { result ≡ hand_place user }
{
    match user {
        User::Left => 0,
        User::Right => 1,
        User::Head | User::Gamepad | User::Treadmill => ORIGINS,
    }
}

/// The place of an origin in the row of all. A grip or aim of no hand has none: its number is past the end.
fn origin_place(origin: Origin) -> usize
    ensures { result ≡ origin_place origin }
{
    match origin {
        Origin::View => 0,
        Origin::Local => 1,
        Origin::Stage => 2,
        Origin::Grip(user) => 3 + hand_place(user),
        Origin::Aim(user) => 5 + hand_place(user),
    }
}

/// A sample of an origin comes into the row of all, where the origin has a place there.
#[tactic(auto, using(std::proofs::lemmas::List::set_past))]
pub(crate) fn note(row: &mut [Samples], origin: Origin, time: i64, pose: u64)
    ensures { row.new ≡ with_sample_of row.old origin time pose }
{
    let place = origin_place(origin);
    if place < row.len() {
        row[place].push(time, pose);
    }
}

/// The pose of an origin at a time, by its samples in the row of all.
pub(crate) fn pose_in(row: &[Samples], origin: Origin, time: i64) -> Option<u64>
    ensures { result ≡ pose_at time (samples_of row.now origin) }
{
    row.get(origin_place(origin))?.pose_at(time)
}
