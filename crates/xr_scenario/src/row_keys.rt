// The keys of each op's row.
ghost use Rattle.std.specs.Prelude.{◌≡◌};
ghost use Rattle.xr_model.specs.scenario.OpReading.{keys_of};

use xr_types::{CallName, FieldName, VERSION};

/// The keys of an op's object in a version of the format, in order: `op`, the fields of its row, and last the name that
/// it may give. A call that stands in no script has none, and no op has any in a version that there isn't.
pub(crate) fn keys_of(row: CallName, version: u8) -> &'static [FieldName]
    ensures { result.now ≡ keys_of version row }
{
    if version != VERSION {
        return &[];
    }
    match row {
        // rows: the keys
        CallName::CreateInstance => &[
            FieldName::Op,
            FieldName::Major,
            FieldName::Minor,
            FieldName::As,
        ],
        CallName::DestroyInstance | CallName::PollEvent => &[FieldName::Op, FieldName::Instance],
        CallName::GetSystem => &[
            FieldName::Op,
            FieldName::Instance,
            FieldName::Form,
            FieldName::As,
        ],
        CallName::StringToPath => &[
            FieldName::Op,
            FieldName::Instance,
            FieldName::Text,
            FieldName::As,
        ],
        CallName::PathToString => &[
            FieldName::Op,
            FieldName::Instance,
            FieldName::Path,
            FieldName::Capacity,
        ],
        CallName::CreateSession => &[
            FieldName::Op,
            FieldName::Instance,
            FieldName::System,
            FieldName::As,
        ],
        CallName::DestroySession
        | CallName::EndSession
        | CallName::RequestExitSession
        | CallName::BeginFrame => &[FieldName::Op, FieldName::Session],
        CallName::BeginSession => &[FieldName::Op, FieldName::Session, FieldName::View],
        CallName::CreateReferenceSpace => &[
            FieldName::Op,
            FieldName::Session,
            FieldName::Kind,
            FieldName::Offset,
            FieldName::As,
        ],
        CallName::CreateActionSpace => &[
            FieldName::Op,
            FieldName::Session,
            FieldName::Action,
            FieldName::Sub,
            FieldName::Offset,
            FieldName::As,
        ],
        CallName::DestroySpace => &[FieldName::Op, FieldName::Space],
        CallName::LocateSpace => &[
            FieldName::Op,
            FieldName::Space,
            FieldName::Base,
            FieldName::Time,
        ],
        CallName::CreateActionSet => &[
            FieldName::Op,
            FieldName::Instance,
            FieldName::Name,
            FieldName::Localized,
            FieldName::Priority,
            FieldName::As,
        ],
        CallName::DestroyActionSet => &[FieldName::Op, FieldName::Set],
        CallName::CreateAction => &[
            FieldName::Op,
            FieldName::Set,
            FieldName::Name,
            FieldName::ActionType,
            FieldName::Subactions,
            FieldName::Localized,
            FieldName::As,
        ],
        CallName::DestroyAction => &[FieldName::Op, FieldName::Action],
        CallName::SuggestBindings => &[
            FieldName::Op,
            FieldName::Instance,
            FieldName::Profile,
            FieldName::Bindings,
        ],
        CallName::AttachSets => &[FieldName::Op, FieldName::Session, FieldName::Sets],
        CallName::SyncActions => &[FieldName::Op, FieldName::Session, FieldName::Active],
        CallName::GetBoolean | CallName::GetFloat | CallName::GetVector | CallName::GetPoseActive =>
            &[
                FieldName::Op,
                FieldName::Session,
                FieldName::Action,
                FieldName::Sub,
            ],
        CallName::CreateSwapchain => &[
            FieldName::Op,
            FieldName::Session,
            FieldName::Format,
            FieldName::Width,
            FieldName::Height,
            FieldName::Static,
            FieldName::As,
        ],
        CallName::DestroySwapchain | CallName::AcquireImage | CallName::ReleaseImage => &[
            FieldName::Op,
            FieldName::Chain,
        ],
        CallName::WaitImage => &[FieldName::Op, FieldName::Chain, FieldName::Timeout],
        CallName::Paint => &[FieldName::Op, FieldName::Chain, FieldName::Stamp],
        CallName::WaitFrame => &[FieldName::Op, FieldName::Session, FieldName::As],
        CallName::EndFrame => &[
            FieldName::Op,
            FieldName::Session,
            FieldName::Time,
            FieldName::Blend,
            FieldName::Layers,
        ],
        CallName::Mark => &[FieldName::Op, FieldName::Mark, FieldName::Value],
        CallName::Await => &[FieldName::Op, FieldName::Mark, FieldName::As],
        CallName::Leave | CallName::Device | CallName::NextFrame | CallName::ImageDone => &[],
        // rows: end
    }
}
