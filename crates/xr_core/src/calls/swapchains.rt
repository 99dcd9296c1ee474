// The calls on swapchains and their images (OpenXR 1.0 chapter 10, "Swapchain Image Management").
ghost use Rattle.std.specs.Prelude.{◌≡◌, ◌≢◌, ◌<◌, ◌^◌, [], ◌∷◌, Bool, true, false, length};
ghost use Rattle.xr_types.specs.declared.handles.Kind.TheVariants as kind;
ghost use Rattle.xr_model.specs.machine.CellCalls.{MayCall, Leads, free_calls, stamp_calls};
ghost use Rattle.xr_model.specs.machine.Chains.{chain_at, chain_checks, no_place, is_wait_wrong, is_paint_wrong, oldest_image, waiting, releasing, new_chain, first_place, has_free_place};
ghost use Rattle.xr_model.specs.machine.Handles.{has_room, was_given};
ghost use Rattle.xr_model.specs.machine.Images.{unstamped};
ghost use Rattle.xr_model.specs.machine.Refusals.{when, first_of, unless};
ghost use Rattle.xr_types.specs.declared.calls.Call.TheVariants as ask;
ghost use Rattle.xr_model.specs.machine.Rule.{ahead};
ghost use Rattle.xr_model.specs.machine.Rules.Spaces.{session_above};
ghost use Rattle.xr_model.specs.machine.Rules.Swapchains.{with_swapchain, with_chain_gone, freed_with_chain, with_changed_chain, create_swapchain_rule, acquire_image_rule, is_up};
ghost use Rattle.xr_chains.specs.Waited.{waited_images};
ghost use Rattle.xr_core.specs.inside.Deciding.{Decides, DecidesCells, MayTouch};
ghost use Rattle.xr_core.specs.inside.Groups.{IsChainCall};
ghost use Rattle.xr_model.specs.machine.PartAnswers.{or_refused};
ghost use Rattle.xr_core.specs.inside.Refusing.{success_on, unless_refused};

use crate::halt::{Halt, done, giving, refused};
use crate::parts::{Parts, give};
use xr_chains::Chains;
use xr_model::Cells;
use xr_types::{Call, Code, Gives, Image, Kind, Reply};

/// The longest timeout, in ns, which never ends.
const FOREVER: i64 = i64::MAX;

/// Whether the time of a wait is up, told the device's clock, all in ns of device time.
pub(crate) fn is_up(clock: i64, timeout: &i64, start: &i64) -> bool
    ensures { result ≡ is_up clock timeout.now start.now }
{
    if *timeout == FOREVER {
        return false;
    }
    match clock.checked_sub(*start) {
        Some(waited) => waited >= *timeout,
        None => *start < 0,
    }
}

impl Parts {
    #[inline(never)]
    pub(crate) fn chain_call<C: Cells>(
        &mut self,
        cells: &mut C,
        call: &Call<'_>,
    ) -> Result<Reply, Halt>
        requires given { length self.old.handles.given < 2 ^ 44 }
        requires group { IsChainCall call.now }
        requires may { MayTouch C.may C.does self.old cells.old call.now }
        ensures { DecidesCells C.does self.old call.now self.new result cells.old cells.new }
    {
        match call {
            Call::CreateSwapchain {
                session,
                format,
                width,
                height,
                fixed,
            } => self.create_swapchain(cells, *session, *format, *width, *height, *fixed),
            Call::DestroySwapchain { chain } => self.destroy_swapchain(cells, *chain),
            Call::WaitImage {
                chain,
                timeout,
                start,
            } => self.wait_image(cells, *chain, timeout, start),
            Call::Paint { chain, stamp } => self.paint(cells, *chain, *stamp),
            Call::ReleaseImage { chain } => self.release_image(cells, *chain),
            _ => unreachable!(),
        }
    }

    /// What refuses a call on the images of a swapchain ahead of the call order, or what its plain success is answered as.
    fn may_use_images(&self, chain: u64) -> Result<Code, Code>
        ensures { result ≡ or_refused (first_of (ahead (acquire_image_rule self.now chain))) (success_on self.now (session_above self.now.handles chain)) }
    {
        let session = self.session_of(Kind::Swapchain, chain)?;
        self.on_session(session)
    }

    /// Acquires the next image, and gives its index.
    #[tactic(auto, using(crate::proofs::Swept::length_unless))]
    #[inline(never)]
    pub(crate) fn acquire_image(&mut self, chain: u64) -> Result<Reply, Halt>
        ensures { Decides self.old (ask.AcquireImage chain) self.new result }
    {
        let success = self.may_use_images(chain)?;
        let answer = self.chains.acquire(chain);
        let Code::Success = answer.code else {
            return refused(answer.code);
        };
        giving(success, Gives::Number(answer.number))
    }

    /// The image that may be waited for, where one may.
    fn front(&self, chain: u64) -> Result<Image, Code>
        ensures { result ≡ or_refused (first_of (when (is_wait_wrong (chain_at self.now.chains chain)) Code.CallOrderInvalid ∷ [])) (oldest_image self.now.chains chain) }
    {
        self.chains.front(chain).ok_or(Code::CallOrderInvalid)
    }

    /// The image that may be waited for was.
    #[tactic(auto, using(xr_model::proofs::ChainPlaces::length_changed))]
    fn set_waited(&mut self, chain: u64)
        ensures { self.new ≡ with_changed_chain self.old chain waiting }
    {
        self.chains.waited(chain);
    }

    /// Whether the time of a wait is up, in ns of device time.
    fn is_late(&self, timeout: &i64, start: &i64) -> bool
        ensures { result ≡ is_up self.now.device.clock timeout.now start.now }
    {
        is_up(self.device.clock(), timeout, start)
    }

    /// Waits for the image that was acquired first, until no frame uses it or its time is up, in ns of device time.
    fn wait_image<C: Cells>(
        &mut self,
        cells: &mut C,
        chain: u64,
        timeout: &i64,
        start: &i64,
    ) -> Result<Reply, Halt>
        requires may { MayTouch C.may C.does self.old cells.old (ask.WaitImage chain timeout.now start.now) }
        ensures { DecidesCells C.does self.old (ask.WaitImage chain timeout.now start.now) self.new result cells.old cells.new }
    {
        let success = self.may_use_images(chain)?;
        let image = self.front(chain)?;
        if cells.claim(image) {
            self.set_waited(chain);
            return done(success);
        }
        if self.is_late(timeout, start) {
            return refused(Code::TimeoutExpired);
        }
        Err(Halt::NotReady)
    }

    /// The image that was waited for, where one was.
    fn held_image(&self, chain: u64) -> Result<Image, Code>
        ensures { result ≡ or_refused (first_of (when (is_paint_wrong (chain_at self.now.chains chain)) Code.CallOrderInvalid ∷ [])) (oldest_image self.now.chains chain) }
    {
        self.chains.held(chain).ok_or(Code::CallOrderInvalid)
    }

    /// Writes the stamp of the image that was waited for.
    fn paint<C: Cells>(&mut self, cells: &mut C, chain: u64, stamp: u64) -> Result<Reply, Halt>
        requires may { MayTouch C.may C.does self.old cells.old (ask.Paint chain stamp) }
        ensures { DecidesCells C.does self.old (ask.Paint chain stamp) self.new result cells.old cells.new }
    {
        let success = self.may_use_images(chain)?;
        let image = self.held_image(chain)?;
        cells.stamp(image, stamp);
        done(success)
    }

    /// The image that was waited for is released.
    #[tactic(auto, using(crate::proofs::Swept::length_unless))]
    fn release<C: Cells>(&mut self, cells: &mut C, chain: u64) -> Result<(), Code>
        requires may { MayCall C.may C.does cells.old (free_calls (waited_images self.old.chains chain)) }
        ensures code { result ≡ or_refused (first_of (when (is_paint_wrong (chain_at self.old.chains chain)) Code.CallOrderInvalid ∷ [])) tt }
        ensures state { self.new ≡ unless (first_of (when (is_paint_wrong (chain_at self.old.chains chain)) Code.CallOrderInvalid ∷ [])) self.old (with_changed_chain self.old chain releasing) }
        ensures cells { Leads C.does cells.old (free_calls (waited_images self.old.chains chain)) cells.new }
    {
        match self.chains.release(cells, chain) {
            Code::Success => Ok(()),
            code => Err(code),
        }
    }

    /// Releases the image that was waited for.
    fn release_image<C: Cells>(&mut self, cells: &mut C, chain: u64) -> Result<Reply, Halt>
        requires may { MayTouch C.may C.does self.old cells.old (ask.ReleaseImage chain) }
        ensures { DecidesCells C.does self.old (ask.ReleaseImage chain) self.new result cells.old cells.new }
    {
        let success = self.may_use_images(chain)?;
        if let Err(code) = self.release(cells, chain) {
            return refused(code);
        }
        done(success)
    }

    /// What refuses a swapchain by its format and its size in pixels.
    fn check_chain(&self, format: u64, width: u32, height: u32) -> Result<(), Code>
        ensures { result ≡ or_refused (first_of (chain_checks format width height)) tt }
    {
        match Chains::check(format, width, height) {
            Code::Success => Ok(()),
            code => Err(code),
        }
    }

    /// A new swapchain needs a place.
    fn place(&self) -> Result<(), Code>
        ensures { result ≡ or_refused (first_of (no_place self.now.chains ∷ [])) tt }
    {
        if self.chains.has_room() {
            Ok(())
        } else {
            Err(Code::LimitReached)
        }
    }

    /// What refuses a swapchain, or what its success is answered as.
    fn may_create_swapchain(
        &self,
        session: u64,
        format: u64,
        width: u32,
        height: u32,
    ) -> Result<Code, Code>
        ensures { (fixed : Bool) → result ≡ unless_refused (create_swapchain_rule self.now 0 session format width height fixed) (success_on self.now session) }
    {
        self.live(Kind::Session, session)?;
        let success = self.on_session(session)?;
        self.check_chain(format, width, height)?;
        self.place()?;
        self.room(Kind::Swapchain)?;
        Ok(success)
    }

    fn create_swapchain<C: Cells>(
        &mut self,
        cells: &mut C,
        session: u64,
        format: u64,
        width: u32,
        height: u32,
        fixed: bool,
    ) -> Result<Reply, Halt>
        requires given { length self.old.handles.given < 2 ^ 44 }
        requires may { MayTouch C.may C.does self.old cells.old (ask.CreateSwapchain session format width height fixed) }
        ensures { DecidesCells C.does self.old (ask.CreateSwapchain session format width height fixed) self.new result cells.old cells.new }
    {
        let success = self.may_create_swapchain(session, format, width, height)?;
        let handle = self.new_swapchain(cells, session, width, height, fixed);
        giving(success, Gives::Handle(handle))
    }

    /// Gives the handle of a new swapchain, where there is room for one.
    fn new_swapchain<C: Cells>(
        &mut self,
        cells: &mut C,
        session: u64,
        width: u32,
        height: u32,
        fixed: bool,
    ) -> u64
        requires given { length self.old.handles.given < 2 ^ 44 }
        requires room { has_room self.old.handles kind.Swapchain ≡ true }
        requires place { has_free_place self.old.chains ≡ true }
        requires may { MayCall C.may C.does cells.old (stamp_calls (unstamped (first_place self.old.chains))) }
        ensures state { self.new ≡ with_swapchain self.old session (new_chain result width height fixed) }
        ensures fresh { (result ≢ 0) × (was_given self.old.handles result ≡ false) }
        ensures cells { Leads C.does cells.old (stamp_calls (unstamped (first_place self.old.chains))) cells.new }
    {
        let handle = give(&mut self.handles, Kind::Swapchain, session);
        self.chains.add(cells, handle, width, height, fixed);
        handle
    }

    /// A swapchain goes, and nothing with it. Its image that was waited for is an application's no longer.
    fn remove_chain<C: Cells>(&mut self, cells: &mut C, chain: u64)
        requires may { MayCall C.may C.does cells.old (free_calls (freed_with_chain self.old chain)) }
        ensures state { self.new ≡ with_chain_gone self.old chain }
        ensures cells { Leads C.does cells.old (free_calls (freed_with_chain self.old chain)) cells.new }
    {
        self.handles.remove(Kind::Swapchain, chain);
        self.remove_chains(cells);
    }

    fn destroy_swapchain<C: Cells>(&mut self, cells: &mut C, chain: u64) -> Result<Reply, Halt>
        requires may { MayTouch C.may C.does self.old cells.old (ask.DestroySwapchain chain) }
        ensures { DecidesCells C.does self.old (ask.DestroySwapchain chain) self.new result cells.old cells.new }
    {
        self.live(Kind::Swapchain, chain)?;
        self.remove_chain(cells, chain);
        done(Code::Success)
    }
}
