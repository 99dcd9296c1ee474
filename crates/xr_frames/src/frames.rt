// The loops of the sessions and the frames that are pending, and the calls on them.
ghost use Rattle.std.specs.Prelude.{◌≡◌, ◌≤ℤ◌, ◌<◌, ◌++◌, ◌∷◌, [], IfSome, pos, None, true, not, false, drop, slice_get, if◌then◌else◌};
ghost use Rattle.std.specs.List.{list_any};
ghost use Rattle.xr_types.specs.declared.handles.TheConstants.{SESSIONS};
ghost use Rattle.xr_model.specs.machine.Chains.{has_place};
ghost use Rattle.xr_model.specs.machine.Frames.{new_loop, reset_loop, waited_loop, begun_loop, ended_loop, predicted_time, is_frame_held_back, begun_code, is_empty};
ghost use Rattle.xr_frames.specs.Slots.{no_slot_frames, frames_of, loop_at, with_loop_at};

use crate::times::predicted_time;
use arrayvec::ArrayVec;
use std::marker::Model;
use xr_types::{Code, Frame, FrameState, Image, SESSIONS};

/// How many frames are pending at most: a wait that isn't held back leaves three with those of its own session, and each other
/// session adds two.
const MOST_PENDING: usize = 2 * SESSIONS + 1;

/// Whether an image of this place is among these.
fn has_place(images: &[Image], place: u8) -> bool
    ensures { result ≡ has_place place images.now }
{
    images.iter().any(|image| image.place == place)
}

/// The loop of a session: the time that was predicted last, whether a frame is waited for and not begun, and whether one is
/// begun and not ended.
#[derive(Clone, Copy)]
struct Loop {
    predicted: i64,
    has_waited: bool,
    has_begun: bool,
}

impl Model for Loop {
    ghost use Rattle.xr_model.specs.machine.Frames.{FrameLoop};

    ghost Value = { FrameLoop };

    ghost view = { λ l. record { predicted = l.predicted; has_waited = l.has_waited; has_begun = l.has_begun } };

    ghost inverse = { λ l. record { predicted = l.predicted; has_waited = l.has_waited; has_begun = l.has_begun } };
}

impl Loop {
    /// No time was predicted, and no frame is waited for or begun.
    fn start() -> Loop
        ensures { result ≡ new_loop }
    {
        Loop {
            predicted: 0,
            has_waited: false,
            has_begun: false,
        }
    }
}

/// The loops of the sessions by their slots, from 0; and the frames of all sessions that were ended and not taken, the oldest
/// first.
#[derive(Drop)]
pub struct Frames {
    loops: [Loop; SESSIONS],
    pending: ArrayVec<Frame, MOST_PENDING>,
}

impl Model for Frames {
    ghost use Rattle.std.specs.Prelude.{◌≤◌, ◌+◌, ◌*◌, length};
    ghost use Rattle.xr_types.specs.declared.handles.TheConstants.{SESSIONS};
    ghost use Rattle.xr_frames.specs.Slots.{SlotFrames, all_busy};

    ghost Value = { SlotFrames };

    ghost view = { λ f. record { loops = f.loops; pending = f.pending.items } };

    ghost invariant = { λ f. length f.pending.items + all_busy f.loops ≤ 2 * SESSIONS + 1 };
}

impl Frames {
    /// No time was predicted, and no frame is waited for, begun or pending. Takes no memory.
    pub fn start() -> Frames
        ensures { result ≡ no_slot_frames }
    {
        Frames {
            loops: [Loop::start(); SESSIONS],
            pending: ArrayVec::new(),
        }
    }

    /// Waits for a frame of the session in a slot, and gives the time that is predicted for it and the period, in ns of device
    /// time, and whether it is worth while to render it. Nothing is given, and all stays, exactly where the call has to wait:
    /// while a frame of the session is waited for, and while more than two are pending, of all sessions, or begun, of its own.
    /// OpenXR 1.0 chapter 10, xrWaitFrame.
    pub fn wait(
        &mut self,
        slot: usize,
        clock: i64,
        base: i64,
        period: i64,
        render: bool,
    ) -> Option<FrameState>
        requires slot { slot < SESSIONS }
        requires period { pos 1 ≤ℤ period }
        ensures waits { result ≡ None → (is_frame_held_back (frames_of self.old) (loop_at self.old slot) ≡ true) × (self.new ≡ self.old) }
        ensures free { IfSome result (λ state. is_frame_held_back (frames_of self.old) (loop_at self.old slot) ≡ false) }
        ensures predicts { IfSome result (λ state. state ≡ record { time = predicted_time (loop_at self.old slot).predicted clock base period; period = period; render = render }) }
        ensures waited { IfSome result (λ state. self.new ≡ with_loop_at self.old slot (waited_loop (loop_at self.old slot) state.time)) }
    {
        if self.is_held_back(slot) {
            return None;
        }
        let own = &self.loops[slot];
        let time = predicted_time(own.predicted, clock, base, period);
        self.set_waited(slot, time);
        Some(FrameState {
            time,
            period,
            render,
        })
    }

    /// Whether a wait of the session in a slot has to wait: while a frame of its own is waited for, and while more than two are
    /// pending, of all sessions, or begun, of its own.
    pub fn is_held_back(&self, slot: usize) -> bool
        requires slot { slot < SESSIONS }
        ensures { result ≡ is_frame_held_back (frames_of self.now) (loop_at self.now slot) }
    {
        let own = &self.loops[slot];
        if own.has_waited {
            return true;
        }
        let frames = self.pending.len() + if own.has_begun { 1 } else { 0 };
        frames > 2
    }

    /// A frame of the session in a slot is waited for, for which this time is predicted.
    #[tactic(auto, using(crate::proofs::Busy::others_few, crate::proofs::Busy::one_changes))]
    fn set_waited(&mut self, slot: usize, time: i64)
        requires slot { slot < SESSIONS }
        requires free { is_frame_held_back (frames_of self.old) (loop_at self.old slot) ≡ false }
        ensures { self.new ≡ with_loop_at self.old slot (waited_loop (loop_at self.old slot) time) }
    {
        let own = &mut self.loops[slot];
        own.predicted = time;
        own.has_waited = true;
    }

    /// Begins the frame that the session in a slot waits for. Refused is a call where none is (`CallOrderInvalid`); it leaves
    /// all as it was. A frame that was begun and not ended is discarded, which its success tells (`FrameDiscarded`). OpenXR 1.0
    /// chapter 10, xrBeginFrame.
    #[tactic(auto, using(crate::proofs::Busy::one_changes))]
    pub fn begin(&mut self, slot: usize) -> Code
        requires slot { slot < SESSIONS }
        ensures code { result ≡ (if (loop_at self.old slot).has_waited then begun_code (loop_at self.old slot) else Code.CallOrderInvalid) }
        ensures state { self.new ≡ (if (loop_at self.old slot).has_waited then with_loop_at self.old slot (begun_loop (loop_at self.old slot)) else self.old) }
    {
        let own = &mut self.loops[slot];
        if !own.has_waited {
            return Code::CallOrderInvalid;
        }
        let code = if own.has_begun {
            Code::FrameDiscarded
        } else {
            Code::Success
        };
        own.has_waited = false;
        own.has_begun = true;
        code
    }

    /// Whether the session in a slot may end a frame: `Success` where it has begun one, and else `CallOrderInvalid`. OpenXR 1.0
    /// chapter 10, xrEndFrame.
    pub fn may_end(&self, slot: usize) -> Code
        requires slot { slot < SESSIONS }
        ensures { result ≡ (if (loop_at self.now slot).has_begun then Code.Success else Code.CallOrderInvalid) }
    {
        let own = &self.loops[slot];
        if own.has_begun {
            Code::Success
        } else {
            Code::CallOrderInvalid
        }
    }

    /// Ends the frame that the session in a slot has begun: it is pending from now on, behind those that are. OpenXR 1.0
    /// chapter 10, xrEndFrame.
    #[tactic(auto, using(crate::proofs::Busy::one_changes))]
    pub fn end(&mut self, slot: usize, frame: Frame)
        requires slot { slot < SESSIONS }
        requires begun { (loop_at self.old slot).has_begun ≡ true }
        ensures { self.new ≡ record (with_loop_at self.old slot (ended_loop (loop_at self.old slot))) { pending = self.old.pending ++ frame ∷ [] } }
    {
        let own = &mut self.loops[slot];
        own.has_begun = false;
        self.pending.push(frame);
    }

    /// Whether a frame is pending.
    pub fn has_pending(&self) -> bool
        ensures { result ≡ not (is_empty self.now.pending) }
    {
        !self.pending.is_empty()
    }

    /// Whether a pending frame uses an image of this place of a swapchain.
    pub fn uses(&self, place: u8) -> bool
        ensures { result ≡ list_any (λ f. has_place place f.images) self.now.pending }
    {
        self.pending
            .as_slice()
            .iter()
            .any(|frame| has_place(frame.images.as_slice(), place))
    }

    /// Takes the frame that is pending longest, where one is.
    pub fn pop(&mut self) -> Option<Frame>
        ensures frame { result ≡ slice_get self.old.pending 0 }
        ensures rest { self.new ≡ record self.old { pending = drop 1 self.old.pending } }
    {
        self.pending.pop_at(0)
    }

    /// A running period of the session in a slot begins or ends: none of its frames is waited for or begun. What is pending
    /// stays. OpenXR 1.0 chapter 9, xrBeginSession and xrEndSession.
    #[tactic(auto, using(crate::proofs::Busy::one_changes))]
    pub fn reset(&mut self, slot: usize)
        requires slot { slot < SESSIONS }
        ensures { self.new ≡ with_loop_at self.old slot (reset_loop (loop_at self.old slot)) }
    {
        let own = &mut self.loops[slot];
        own.has_waited = false;
        own.has_begun = false;
    }

    /// A session is created in a slot: no time was predicted for it, and no frame is waited for or begun. What is pending
    /// stays. OpenXR 1.0 chapter 9, xrCreateSession.
    #[tactic(auto, using(crate::proofs::Busy::one_changes))]
    pub fn renew(&mut self, slot: usize)
        requires slot { slot < SESSIONS }
        ensures { self.new ≡ with_loop_at self.old slot new_loop }
    {
        self.loops[slot] = Loop::start();
    }
}
