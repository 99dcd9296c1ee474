// What a frame is checked against: the live spaces and swapchains of its session. It changes nothing.
ghost use Rattle.std.specs.Prelude.{◌≡◌, length};
ghost use Rattle.xr_types.specs.declared.handles.TheConstants.{SWAPCHAINS};

use xr_chains::Chains;
use xr_handles::Handles;
use xr_layers::Look;
use xr_types::{ChainInfo, Kind};

/// The session that ends a frame, the handles, and the swapchains in their places.
#[derive(Drop)]
pub(crate) struct Sight<'a> {
    pub(crate) session: u64,
    pub(crate) handles: &'a Handles,
    pub(crate) chains: &'a Chains,
    ghost few: { length chains.now ≡ SWAPCHAINS },
}

impl Look for Sight<'_> {
    ghost use Rattle.std.specs.Prelude.{None, if◌then◌else◌};
    ghost use Rattle.xr_model.specs.machine.Chains.{info_at};
    ghost use Rattle.xr_model.specs.machine.HandlePlaces.{is_below};
    ghost use Rattle.xr_types.specs.declared.handles.Kind.TheVariants.{Space, Swapchain};
    ghost use Rattle.xr_core.specs.inside.Sights.{sight_is_sound};

    ghost look = { λ x. record {
      space = λ space. is_below x.handles.now Space x.session space;
      chain = λ chain. if is_below x.handles.now Swapchain x.session chain then info_at x.chains.now chain else None;
    } };

    fn space(&self, handle: u64) -> bool {
        self.handles.is_below(Kind::Space, self.session, handle)
    }

    fn chain(&self, handle: u64) -> Option<ChainInfo> {
        if self.handles.is_below(Kind::Swapchain, self.session, handle) {
            self.chains.info(handle)
        } else {
            None
        }
    }

    ghost sound = { λ x. sight_is_sound x.session x.handles.now x.chains.now x.few };
}
