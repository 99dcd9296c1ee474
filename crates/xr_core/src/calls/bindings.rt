// The call that suggests bindings (OpenXR 1.0 chapter 11, xrSuggestInteractionProfileBindings).
ghost use Rattle.std.specs.Prelude.{◌≡◌, true};
ghost use Rattle.std.specs.List.{list_all};
ghost use Rattle.xr_types.specs.Code.{is_out_of_memory};
ghost use Rattle.xr_model.specs.machine.Bindings.{suggest_refusals, with_suggestions};
ghost use Rattle.xr_model.specs.machine.PartAnswers.{code_by};
ghost use Rattle.xr_model.specs.machine.Refusals.{first_of, unless};
ghost use Rattle.xr_types.specs.declared.calls.Call.TheVariants as ask;
ghost use Rattle.xr_model.specs.machine.Sync.{is_source};
ghost use Rattle.xr_core.specs.inside.Deciding.{Decides};

use crate::bound::Draft;
use crate::halt::{Halt, done, refused};
use crate::parts::Parts;
use std::alloc::Global;
use xr_types::{Binding, Bound, Code, Kind, MOST_SUGGESTED, Profile, Reply};

impl Parts {
    /// What the bindings come to stands in the draft until it is suggested.
    #[inline(never)]
    pub(crate) fn suggest_bindings(
        &mut self,
        alloc: Global,
        draft: &mut Draft,
        instance: u64,
        profile: u64,
        list: &[Binding],
    ) -> Result<Reply, Halt>
        ensures { Decides self.old (ask.SuggestBindings instance profile list.now) self.new result }
    {
        self.live(Kind::Instance, instance)?;
        let profile = self.profile_at(profile)?;
        if list.is_empty() {
            return refused(Code::ValidationFailure);
        }
        if list.len() > MOST_SUGGESTED {
            return refused(Code::LimitReached);
        }
        self.bound_by(profile, list, draft)?;
        let code = self.suggest(alloc, profile, draft.as_slice());
        if code != Code::Success {
            return refused(code);
        }
        done(Code::Success)
    }

    /// Suggests what bindings came to for a profile, where memory is found; nothing else refuses them.
    fn suggest(&mut self, alloc: Global, profile: Profile, bound: &[Bound]) -> Code
        requires sources { list_all is_source bound.now ≡ true }
        ensures state { self.new ≡ record self.old { suggestions = unless (first_of (suggest_refusals bound.now (is_out_of_memory result))) self.old.suggestions (with_suggestions self.old.suggestions profile bound.now) } }
        ensures code { result ≡ code_by (first_of (suggest_refusals bound.now (is_out_of_memory result))) }
    {
        self.bindings.suggest(alloc, profile, bound)
    }
}
