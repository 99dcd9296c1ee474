// How one call is decided but for the compositor's: by the group that it belongs to, a file of `calls` each. No group is
// inlined here, so that a call pays for the locals of its own group alone.
ghost use Rattle.std.specs.Prelude.{length, List};
ghost use Rattle.xr_types.specs.declared.frames.Image.{Image};
ghost use Rattle.xr_types.specs.declared.frames.Shown.{Shown};
ghost use Rattle.xr_model.specs.machine.CoreCalls.{MayMake};
ghost use Rattle.xr_core.specs.inside.Deciding.{CountsFit, DecidesAlong, MayTouch, kept_world};
ghost use Rattle.xr_model.specs.laws.Soundness.{IsAside};

use crate::bound::Draft;
use crate::halt::Halt;
use crate::parts::Parts;
use std::alloc::Global;
use xr_model::Cells;
use xr_types::{Actor, Call, Reply};

impl Parts {
    /// Decides a call that is none of the compositor's: what it comes to, that it is refused, or that it has to
    /// wait. `text` is the buffer that `path_to_string` is lent; other calls leave it. Memory is taken for a new path text and
    /// for suggestions.
    pub(crate) fn decide<C: Cells>(
        &mut self,
        alloc: Global,
        draft: &mut Draft,
        cells: &mut C,
        who: Actor,
        call: &Call<'_>,
        text: &mut [u8],
    ) -> Result<Reply, Halt>
        requires counts { CountsFit self.old }
        requires may { MayMake self.old who call.now (length text.old) }
        requires aside { IsAside call.now }
        requires cells { MayTouch C.may C.does self.old cells.old call.now }
        ensures { (held : List Image) (frame : Shown) → DecidesAlong C.does (kept_world self.old held cells.old text.old frame) (kept_world self.new held cells.new text.new frame) who call.now result }
    {
        match call {
            // rows: the arms
            Call::DestroyInstance { instance } => self.destroy_instance(cells, *instance),
            Call::CreateInstance { .. } | Call::GetSystem { .. } | Call::PollEvent { .. } =>
                self.instance_call(call),
            Call::StringToPath { .. } | Call::PathToString { .. } => self.path_call(
                alloc, who, call, text,
            ),
            Call::DestroySession { session } => self.destroy_session(cells, *session),
            Call::CreateSession { .. }
            | Call::BeginSession { .. }
            | Call::EndSession { .. }
            | Call::RequestExitSession { .. } => self.session_call(call),
            Call::CreateReferenceSpace { .. }
            | Call::CreateActionSpace { .. }
            | Call::DestroySpace { .. }
            | Call::LocateSpace { .. } => self.space_call(call),
            Call::CreateActionSet { .. }
            | Call::DestroyActionSet { .. }
            | Call::CreateAction { .. }
            | Call::DestroyAction { .. }
            | Call::AttachSets { .. } => self.set_call(call),
            Call::SuggestBindings {
                instance,
                profile,
                list,
            } => self.suggest_bindings(alloc, draft, *instance, *profile, list.as_slice()),
            Call::SyncActions { session, active } => self.sync_actions(*session, active.as_slice()),
            Call::GetBoolean { .. }
            | Call::GetFloat { .. }
            | Call::GetVector { .. }
            | Call::GetPoseActive { .. } => self.getter_call(call),
            Call::CreateSwapchain { .. }
            | Call::DestroySwapchain { .. }
            | Call::WaitImage { .. }
            | Call::Paint { .. }
            | Call::ReleaseImage { .. } => self.chain_call(cells, call),
            Call::AcquireImage { chain } => self.acquire_image(*chain),
            Call::WaitFrame { .. } | Call::BeginFrame { .. } => self.frame_call(call),
            Call::EndFrame {
                session,
                time,
                blend,
                layers,
            } => self.end_frame(cells, *session, time, *blend, layers.as_slice()),
            Call::Mark { .. } | Call::AwaitMark { .. } | Call::Leave => self.own_call(who, call),
            Call::Device(event) => self.device_event(*event),
            Call::NextFrame | Call::ImageDone => unreachable!(),
            // rows: end
        }
    }
}
