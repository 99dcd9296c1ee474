//! The calls of instances, paths and events.
ghost use Rattle.std.specs.Prelude.{length};
ghost use Rattle.xr_types.specs.declared.calls.Call.TheVariants as ask;
ghost use Rattle.xr_runtime.specs.Passes.{table_of, MayCall, AnswersText, AppAnswers};

use crate::calling::Runtime;
use crate::passes::AppPass;
use std::sync::Wait;
use xr_types::{Call, Form, Items, Reply};

impl Runtime {
    /// Asks for an instance of this version of the API (OpenXR 1.0 section 4.2, xrCreateInstance).
    pub fn create_instance<R: Wait>(
        &self,
        rt: &R,
        pass: &mut AppPass,
        major: u32,
        minor: u32,
    ) -> Reply
        requires may { MayCall (table_of self.now) pass.old }
        ensures called { AppAnswers (table_of self.now) pass.old (ask.CreateInstance major minor) result pass.new }
    {
        self.call(rt, pass, &Call::CreateInstance { major, minor }, &mut [])
    }

    /// Ends an instance with all below it (section 4.2, xrDestroyInstance).
    pub fn destroy_instance<R: Wait>(&self, rt: &R, pass: &mut AppPass, instance: u64) -> Reply
        requires may { MayCall (table_of self.now) pass.old }
        ensures called { AppAnswers (table_of self.now) pass.old (ask.DestroyInstance instance) result pass.new }
    {
        self.call(rt, pass, &Call::DestroyInstance { instance }, &mut [])
    }

    /// Asks for the system of a form (chapter 5, xrGetSystem).
    pub fn get_system<R: Wait>(
        &self,
        rt: &R,
        pass: &mut AppPass,
        instance: u64,
        form: Form,
    ) -> Reply
        requires may { MayCall (table_of self.now) pass.old }
        ensures called { AppAnswers (table_of self.now) pass.old (ask.GetSystem instance form) result pass.new }
    {
        self.call(rt, pass, &Call::GetSystem { instance, form }, &mut [])
    }

    /// Asks for the atom of a path text (section 6.2, xrStringToPath).
    pub fn string_to_path<R: Wait>(
        &self,
        rt: &R,
        pass: &mut AppPass,
        instance: u64,
        text: &[u8],
    ) -> Reply
        requires may { MayCall (table_of self.now) pass.old }
        ensures called { AppAnswers (table_of self.now) pass.old (ask.StringToPath instance text.now) result pass.new }
    {
        let text = Items::new(text);
        self.call(rt, pass, &Call::StringToPath { instance, text }, &mut [])
    }

    /// Asks for the next event (chapter 2, xrPollEvent).
    pub fn poll_event<R: Wait>(&self, rt: &R, pass: &mut AppPass, instance: u64) -> Reply
        requires may { MayCall (table_of self.now) pass.old }
        ensures called { AppAnswers (table_of self.now) pass.old (ask.PollEvent instance) result pass.new }
    {
        self.call(rt, pass, &Call::PollEvent { instance }, &mut [])
    }

    /// Asks for the text of an atom, which is put in front of `out` where that has room for it and its terminating zero (section 6.2,
    /// xrPathToString).
    pub fn path_to_string<R: Wait>(
        &self,
        rt: &R,
        pass: &mut AppPass,
        instance: u64,
        path: u64,
        out: &mut [u8],
    ) -> Reply
        requires may { MayCall (table_of self.now) pass.old }
        ensures called { AnswersText (table_of self.now) pass.old (ask.PathToString instance path (length out.old)) out.old out.new result pass.new }
    {
        let capacity = out.len() as u64;
        let call = Call::PathToString {
            instance,
            path,
            capacity,
        };
        self.call(rt, pass, &call, out)
    }
}
