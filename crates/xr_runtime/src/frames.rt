//! The calls of swapchains and frames.
ghost use Rattle.std.specs.Prelude.{◌≤ℤ◌, pos};
ghost use Rattle.xr_types.specs.declared.calls.Call.TheVariants as ask;
ghost use Rattle.xr_runtime.specs.Passes.{table_of, MayCall, AppAnswers};

use crate::calling::Runtime;
use crate::passes::AppPass;
use std::sync::Wait;
use xr_types::{Blend, Call, Items, Layer, Reply};

impl Runtime {
    /// Asks for a swapchain; `fixed` asks for one of a single image (OpenXR 1.0 chapter 10, xrCreateSwapchain).
    pub fn create_swapchain<R: Wait>(
        &self,
        rt: &R,
        pass: &mut AppPass,
        session: u64,
        format: u64,
        width: u32,
        height: u32,
        fixed: bool,
    ) -> Reply
        requires may { MayCall (table_of self.now) pass.old }
        ensures called { AppAnswers (table_of self.now) pass.old (ask.CreateSwapchain session format width height fixed) result pass.new }
    {
        self.call(
            rt,
            pass,
            &Call::CreateSwapchain {
                session,
                format,
                width,
                height,
                fixed,
            },
            &mut [],
        )
    }

    /// Ends a swapchain (chapter 10, xrDestroySwapchain).
    pub fn destroy_swapchain<R: Wait>(&self, rt: &R, pass: &mut AppPass, chain: u64) -> Reply
        requires may { MayCall (table_of self.now) pass.old }
        ensures called { AppAnswers (table_of self.now) pass.old (ask.DestroySwapchain chain) result pass.new }
    {
        self.call(rt, pass, &Call::DestroySwapchain { chain }, &mut [])
    }

    /// Takes the next image (chapter 10, xrAcquireSwapchainImage).
    pub fn acquire_image<R: Wait>(&self, rt: &R, pass: &mut AppPass, chain: u64) -> Reply
        requires may { MayCall (table_of self.now) pass.old }
        ensures called { AppAnswers (table_of self.now) pass.old (ask.AcquireImage chain) result pass.new }
    {
        self.call(rt, pass, &Call::AcquireImage { chain }, &mut [])
    }

    /// Waits until the oldest acquired image can be written, or the timeout has passed on the device's clock since
    /// the pass's clock (chapter 10, xrWaitSwapchainImage).
    pub fn wait_image<R: Wait>(&self, rt: &R, pass: &mut AppPass, chain: u64, timeout: i64) -> Reply
        requires may { MayCall (table_of self.now) pass.old }
        requires in_range { pos 0 ≤ℤ timeout }
        ensures called { AppAnswers (table_of self.now) pass.old (ask.WaitImage chain timeout pass.old.clock) result pass.new }
    {
        self.call(
            rt,
            pass,
            &Call::WaitImage {
                chain,
                timeout,
                start: 0,
            },
            &mut [],
        )
    }

    /// Writes the content of the waited image. This project's own.
    pub fn paint<R: Wait>(&self, rt: &R, pass: &mut AppPass, chain: u64, stamp: u64) -> Reply
        requires may { MayCall (table_of self.now) pass.old }
        ensures called { AppAnswers (table_of self.now) pass.old (ask.Paint chain stamp) result pass.new }
    {
        self.call(rt, pass, &Call::Paint { chain, stamp }, &mut [])
    }

    /// Gives the waited image back (chapter 10, xrReleaseSwapchainImage).
    pub fn release_image<R: Wait>(&self, rt: &R, pass: &mut AppPass, chain: u64) -> Reply
        requires may { MayCall (table_of self.now) pass.old }
        ensures called { AppAnswers (table_of self.now) pass.old (ask.ReleaseImage chain) result pass.new }
    {
        self.call(rt, pass, &Call::ReleaseImage { chain }, &mut [])
    }

    /// Waits for the next frame's time (chapter 10, xrWaitFrame).
    pub fn wait_frame<R: Wait>(&self, rt: &R, pass: &mut AppPass, session: u64) -> Reply
        requires may { MayCall (table_of self.now) pass.old }
        ensures called { AppAnswers (table_of self.now) pass.old (ask.WaitFrame session) result pass.new }
    {
        self.call(rt, pass, &Call::WaitFrame { session }, &mut [])
    }

    /// Begins the waited frame (chapter 10, xrBeginFrame).
    pub fn begin_frame<R: Wait>(&self, rt: &R, pass: &mut AppPass, session: u64) -> Reply
        requires may { MayCall (table_of self.now) pass.old }
        ensures called { AppAnswers (table_of self.now) pass.old (ask.BeginFrame session) result pass.new }
    {
        self.call(rt, pass, &Call::BeginFrame { session }, &mut [])
    }

    /// Ends the begun frame with its layers (chapter 10, xrEndFrame).
    pub fn end_frame<R: Wait>(
        &self,
        rt: &R,
        pass: &mut AppPass,
        session: u64,
        time: i64,
        blend: Blend,
        layers: &[Layer],
    ) -> Reply
        requires may { MayCall (table_of self.now) pass.old }
        ensures called { AppAnswers (table_of self.now) pass.old (ask.EndFrame session time blend layers.now) result pass.new }
    {
        self.call(
            rt,
            pass,
            &Call::EndFrame {
                session,
                time,
                blend,
                layers: Items::new(layers),
            },
            &mut [],
        )
    }
}
