// The queue over a ring whose room is taken at the start.
ghost use Rattle.std.specs.Prelude.{◌≡◌, IfOk};
ghost use Rattle.xr_model.specs.machine.Events.{no_events, pushed, polled, behind_poll};

use circular_buffer::HeapCircularBuffer;
use std::alloc::Global;
use std::marker::Model;
use xr_types::{EVENTS, Event, NoMemory};

/// The events that wait, seen by contracts as their list, the oldest first, and the count of lost events. The
/// count stands still at the end of its type.
#[derive(Drop)]
pub struct Events {
    ring: HeapCircularBuffer<Event>,
    lost: u64,
}

impl Model for Events {
    ghost use Rattle.std.specs.Prelude.{◌≡◌, ◌≤◌, length};
    ghost use Rattle.xr_types.specs.declared.limits.TheConstants.{EVENTS};
    ghost use Rattle.xr_model.specs.machine.Events.{Queue};

    ghost Value = { Queue };

    ghost view = { λ q. record { waiting = q.ring.items; lost = q.lost } };

    ghost invariant = { λ q. (q.ring.capacity ≡ EVENTS) × (length q.ring.items ≤ EVENTS) };
}

impl Events {
    /// No event waits. Takes the room of 32 events, and nothing later takes any.
    pub fn start(alloc: Global) -> Result<Events, NoMemory>
        ensures { IfOk result (λ events. events ≡ no_events) }
    {
        let ring = HeapCircularBuffer::with_capacity(alloc, EVENTS)?;
        Ok(Events { ring, lost: 0 })
    }

    /// An event comes. A full queue drops its oldest event and counts it as lost.
    pub fn push(&mut self, event: Event)
        ensures { self.new ≡ pushed self.old event }
    {
        if self.ring.push_back(event).is_some() {
            self.lost = self.lost.saturating_add(1);
        }
    }

    /// What is told next, which is then told no more: the count of lost events where there are any, else the
    /// oldest event. Nothing where nothing was lost and none waits. OpenXR 1.0 chapter 2, xrPollEvent.
    pub fn poll(&mut self) -> Option<Event>
        ensures state { self.new ≡ behind_poll self.old }
        ensures event { result ≡ polled self.old }
    {
        if self.lost > 0 {
            let lost = self.lost;
            self.lost = 0;
            return Some(Event::Lost(lost));
        }
        self.ring.pop_front()
    }

    /// Forgets all events and the count of lost ones.
    pub fn clear(&mut self)
        ensures { self.new ≡ no_events }
    {
        self.ring.clear();
        self.lost = 0;
    }
}
