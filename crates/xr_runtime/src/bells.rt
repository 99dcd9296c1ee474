// Which bell a call that isn't ready listens to, and which bells a call rings. It decides nothing: a call that no bell tells of is tried
// again all the same.
use crate::calling::Runtime;
use xr_lock::ring;
use xr_rule::Bell;
use xr_types::{Call, Code, DeviceEvent, MOST_MARK};

impl Runtime {
    // what a call that isn't ready waits for
    pub(crate) fn bell_of(&self, call: &Call<'_>) -> &Bell {
        let beside = &self.table.beside;
        match call {
            Call::AwaitMark { mark } => self.bell_of_mark(*mark),
            Call::Device(DeviceEvent::Await(mark)) => self.bell_of_mark(*mark),
            Call::WaitFrame { .. } => &beside.frames,
            Call::WaitImage { .. } => &beside.images,
            _ => &beside.pending,
        }
    }

    // marks are numbered from 1 to as many as there are bells
    fn bell_of_mark(&self, mark: u8) -> &Bell {
        &self.table.beside.marks[(mark % MOST_MARK) as usize]
    }

    // Rings for those whose calls may be ready behind this one. A call that was refused made none ready.
    pub(crate) fn ring_behind(&self, call: &Call<'_>, code: Code) {
        if !code.is_success() {
            return;
        }
        let beside = &self.table.beside;
        match call {
            Call::Mark { mark, .. } => ring(self.bell_of_mark(*mark)),
            Call::Device(DeviceEvent::Mark(mark)) => ring(self.bell_of_mark(*mark)),
            Call::BeginFrame { .. } | Call::NextFrame => ring(&beside.frames),
            Call::EndFrame { .. } | Call::Leave => ring(&beside.pending),
            Call::AcquireImage { .. }
            | Call::WaitImage { .. }
            | Call::ReleaseImage { .. }
            | Call::DestroySwapchain { .. } => ring(&beside.images),
            Call::Device(_)
            | Call::EndSession { .. }
            | Call::DestroySession { .. }
            | Call::DestroyInstance { .. } => {
                ring(&beside.frames);
                ring(&beside.images);
            }
            _ => {}
        }
    }
}
