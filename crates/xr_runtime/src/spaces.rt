//! The calls of spaces.
ghost use Rattle.xr_types.specs.declared.calls.Call.TheVariants as ask;
ghost use Rattle.xr_runtime.specs.Passes.{table_of, MayCall, AppAnswers};

use crate::calling::Runtime;
use crate::passes::AppPass;
use std::sync::Wait;
use xr_types::{Call, RefKind, Reply};

impl Runtime {
    /// Asks for a reference space at an offset (OpenXR 1.0 chapter 7, xrCreateReferenceSpace).
    pub fn create_reference_space<R: Wait>(
        &self,
        rt: &R,
        pass: &mut AppPass,
        session: u64,
        kind: RefKind,
        offset: u64,
    ) -> Reply
        requires may { MayCall (table_of self.now) pass.old }
        ensures called { AppAnswers (table_of self.now) pass.old (ask.CreateReferenceSpace session kind offset) result pass.new }
    {
        self.call(
            rt,
            pass,
            &Call::CreateReferenceSpace {
                session,
                kind,
                offset,
            },
            &mut [],
        )
    }

    /// Asks for the space of a pose action at a user path, or at any where `sub` is 0 (chapter 7,
    /// xrCreateActionSpace).
    pub fn create_action_space<R: Wait>(
        &self,
        rt: &R,
        pass: &mut AppPass,
        session: u64,
        action: u64,
        sub: u64,
        offset: u64,
    ) -> Reply
        requires may { MayCall (table_of self.now) pass.old }
        ensures called { AppAnswers (table_of self.now) pass.old (ask.CreateActionSpace session action sub offset) result pass.new }
    {
        self.call(
            rt,
            pass,
            &Call::CreateActionSpace {
                session,
                action,
                sub,
                offset,
            },
            &mut [],
        )
    }

    /// Ends a space (chapter 7, xrDestroySpace).
    pub fn destroy_space<R: Wait>(&self, rt: &R, pass: &mut AppPass, space: u64) -> Reply
        requires may { MayCall (table_of self.now) pass.old }
        ensures called { AppAnswers (table_of self.now) pass.old (ask.DestroySpace space) result pass.new }
    {
        self.call(rt, pass, &Call::DestroySpace { space }, &mut [])
    }

    /// Asks where a space is in a base at a time (chapter 7, xrLocateSpace).
    pub fn locate_space<R: Wait>(
        &self,
        rt: &R,
        pass: &mut AppPass,
        space: u64,
        base: u64,
        time: i64,
    ) -> Reply
        requires may { MayCall (table_of self.now) pass.old }
        ensures called { AppAnswers (table_of self.now) pass.old (ask.LocateSpace space base time) result pass.new }
    {
        self.call(rt, pass, &Call::LocateSpace { space, base, time }, &mut [])
    }
}
