//! The calls of sessions, and an application's own.
ghost use Rattle.std.specs.Prelude.{◌≡◌, true};
ghost use Rattle.xr_types.specs.Device.{is_mark};
ghost use Rattle.xr_types.specs.declared.calls.Call.TheVariants as ask;
ghost use Rattle.xr_runtime.specs.Passes.{table_of, MayCall, AppAnswers};

use crate::calling::Runtime;
use crate::passes::AppPass;
use std::sync::Wait;
use xr_types::{Call, Reply, ViewConfig};

impl Runtime {
    /// Asks for a session of a system (OpenXR 1.0 chapter 9, xrCreateSession).
    pub fn create_session<R: Wait>(
        &self,
        rt: &R,
        pass: &mut AppPass,
        instance: u64,
        system: u64,
    ) -> Reply
        requires may { MayCall (table_of self.now) pass.old }
        ensures called { AppAnswers (table_of self.now) pass.old (ask.CreateSession instance system) result pass.new }
    {
        self.call(rt, pass, &Call::CreateSession { instance, system }, &mut [])
    }

    /// Ends a session with all below it (chapter 9, xrDestroySession).
    pub fn destroy_session<R: Wait>(&self, rt: &R, pass: &mut AppPass, session: u64) -> Reply
        requires may { MayCall (table_of self.now) pass.old }
        ensures called { AppAnswers (table_of self.now) pass.old (ask.DestroySession session) result pass.new }
    {
        self.call(rt, pass, &Call::DestroySession { session }, &mut [])
    }

    /// Starts a session that is ready (chapter 9, xrBeginSession).
    pub fn begin_session<R: Wait>(
        &self,
        rt: &R,
        pass: &mut AppPass,
        session: u64,
        view: ViewConfig,
    ) -> Reply
        requires may { MayCall (table_of self.now) pass.old }
        ensures called { AppAnswers (table_of self.now) pass.old (ask.BeginSession session view) result pass.new }
    {
        self.call(rt, pass, &Call::BeginSession { session, view }, &mut [])
    }

    /// Ends a session that is stopping (chapter 9, xrEndSession).
    pub fn end_session<R: Wait>(&self, rt: &R, pass: &mut AppPass, session: u64) -> Reply
        requires may { MayCall (table_of self.now) pass.old }
        ensures called { AppAnswers (table_of self.now) pass.old (ask.EndSession session) result pass.new }
    {
        self.call(rt, pass, &Call::EndSession { session }, &mut [])
    }

    /// Asks for a session's end (chapter 9, xrRequestExitSession).
    pub fn request_exit_session<R: Wait>(&self, rt: &R, pass: &mut AppPass, session: u64) -> Reply
        requires may { MayCall (table_of self.now) pass.old }
        ensures called { AppAnswers (table_of self.now) pass.old (ask.RequestExitSession session) result pass.new }
    {
        self.call(rt, pass, &Call::RequestExitSession { session }, &mut [])
    }

    /// Sets a mark with a value. This project's own.
    pub fn mark<R: Wait>(&self, rt: &R, pass: &mut AppPass, mark: u8, value: u64) -> Reply
        requires may { MayCall (table_of self.now) pass.old }
        requires in_range { is_mark mark ≡ true }
        ensures called { AppAnswers (table_of self.now) pass.old (ask.Mark mark value) result pass.new }
    {
        self.call(rt, pass, &Call::Mark { mark, value }, &mut [])
    }

    /// Waits for a mark and asks for its value. This project's own.
    pub fn await_mark<R: Wait>(&self, rt: &R, pass: &mut AppPass, mark: u8) -> Reply
        requires may { MayCall (table_of self.now) pass.old }
        requires in_range { is_mark mark ≡ true }
        ensures called { AppAnswers (table_of self.now) pass.old (ask.AwaitMark mark) result pass.new }
    {
        self.call(rt, pass, &Call::AwaitMark { mark }, &mut [])
    }

    /// Says that the application makes no further call. This project's own.
    pub fn leave<R: Wait>(&self, rt: &R, pass: &mut AppPass) -> Reply
        requires may { MayCall (table_of self.now) pass.old }
        ensures called { AppAnswers (table_of self.now) pass.old ask.Leave result pass.new }
    {
        self.call(rt, pass, &Call::Leave, &mut [])
    }
}
