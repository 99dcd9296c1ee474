//! The calls of actions.
ghost use Rattle.xr_types.specs.declared.calls.Call.TheVariants as ask;
ghost use Rattle.xr_runtime.specs.Passes.{table_of, MayCall, AppAnswers};

use crate::calling::Runtime;
use crate::passes::AppPass;
use std::sync::Wait;
use xr_types::{ActionType, ActiveSet, Binding, Call, Items, Reply};

impl Runtime {
    /// Asks for an action set (OpenXR 1.0 chapter 11, xrCreateActionSet).
    pub fn create_action_set<R: Wait>(
        &self,
        rt: &R,
        pass: &mut AppPass,
        instance: u64,
        name: &[u8],
        localized: &[u8],
        priority: u32,
    ) -> Reply
        requires may { MayCall (table_of self.now) pass.old }
        ensures called { AppAnswers (table_of self.now) pass.old (ask.CreateActionSet instance name.now localized.now priority) result pass.new }
    {
        self.call(
            rt,
            pass,
            &Call::CreateActionSet {
                instance,
                name: Items::new(name),
                localized: Items::new(localized),
                priority,
            },
            &mut [],
        )
    }

    /// Ends an action set with its actions (chapter 11, xrDestroyActionSet).
    pub fn destroy_action_set<R: Wait>(&self, rt: &R, pass: &mut AppPass, set: u64) -> Reply
        requires may { MayCall (table_of self.now) pass.old }
        ensures called { AppAnswers (table_of self.now) pass.old (ask.DestroyActionSet set) result pass.new }
    {
        self.call(rt, pass, &Call::DestroyActionSet { set }, &mut [])
    }

    /// Asks for an action that tells the listed user paths apart (chapter 11, xrCreateAction).
    pub fn create_action<R: Wait>(
        &self,
        rt: &R,
        pass: &mut AppPass,
        set: u64,
        name: &[u8],
        kind: ActionType,
        subs: &[u64],
        localized: &[u8],
    ) -> Reply
        requires may { MayCall (table_of self.now) pass.old }
        ensures called { AppAnswers (table_of self.now) pass.old (ask.CreateAction set name.now kind subs.now localized.now) result pass.new }
    {
        self.call(
            rt,
            pass,
            &Call::CreateAction {
                set,
                name: Items::new(name),
                kind,
                subs: Items::new(subs),
                localized: Items::new(localized),
            },
            &mut [],
        )
    }

    /// Ends an action (chapter 11, xrDestroyAction).
    pub fn destroy_action<R: Wait>(&self, rt: &R, pass: &mut AppPass, action: u64) -> Reply
        requires may { MayCall (table_of self.now) pass.old }
        ensures called { AppAnswers (table_of self.now) pass.old (ask.DestroyAction action) result pass.new }
    {
        self.call(rt, pass, &Call::DestroyAction { action }, &mut [])
    }

    /// Suggests all bindings for a profile (chapter 11, xrSuggestInteractionProfileBindings).
    pub fn suggest_bindings<R: Wait>(
        &self,
        rt: &R,
        pass: &mut AppPass,
        instance: u64,
        profile: u64,
        list: &[Binding],
    ) -> Reply
        requires may { MayCall (table_of self.now) pass.old }
        ensures called { AppAnswers (table_of self.now) pass.old (ask.SuggestBindings instance profile list.now) result pass.new }
    {
        self.call(
            rt,
            pass,
            &Call::SuggestBindings {
                instance,
                profile,
                list: Items::new(list),
            },
            &mut [],
        )
    }

    /// Attaches action sets to a session, once (chapter 11, xrAttachSessionActionSets).
    pub fn attach_sets<R: Wait>(
        &self,
        rt: &R,
        pass: &mut AppPass,
        session: u64,
        sets: &[u64],
    ) -> Reply
        requires may { MayCall (table_of self.now) pass.old }
        ensures called { AppAnswers (table_of self.now) pass.old (ask.AttachSets session sets.now) result pass.new }
    {
        let sets = Items::new(sets);
        self.call(rt, pass, &Call::AttachSets { session, sets }, &mut [])
    }

    /// Takes the inputs' values for the listed sets (chapter 11, xrSyncActions).
    pub fn sync_actions<R: Wait>(
        &self,
        rt: &R,
        pass: &mut AppPass,
        session: u64,
        active: &[ActiveSet],
    ) -> Reply
        requires may { MayCall (table_of self.now) pass.old }
        ensures called { AppAnswers (table_of self.now) pass.old (ask.SyncActions session active.now) result pass.new }
    {
        let active = Items::new(active);
        self.call(rt, pass, &Call::SyncActions { session, active }, &mut [])
    }

    /// Asks for a boolean action's state (chapter 11, xrGetActionStateBoolean). It never waits.
    pub fn get_boolean(&self, pass: &mut AppPass, session: u64, action: u64, sub: u64) -> Reply
        requires may { MayCall (table_of self.now) pass.old }
        ensures called { AppAnswers (table_of self.now) pass.old (ask.GetBoolean session action sub) result pass.new }
    {
        self.getter(
            pass,
            &Call::GetBoolean {
                session,
                action,
                sub,
            },
        )
    }

    /// Asks for a float action's state (chapter 11, xrGetActionStateFloat). It never waits.
    pub fn get_float(&self, pass: &mut AppPass, session: u64, action: u64, sub: u64) -> Reply
        requires may { MayCall (table_of self.now) pass.old }
        ensures called { AppAnswers (table_of self.now) pass.old (ask.GetFloat session action sub) result pass.new }
    {
        self.getter(
            pass,
            &Call::GetFloat {
                session,
                action,
                sub,
            },
        )
    }

    /// Asks for a vector action's state (chapter 11, xrGetActionStateVector2f). It never waits.
    pub fn get_vector(&self, pass: &mut AppPass, session: u64, action: u64, sub: u64) -> Reply
        requires may { MayCall (table_of self.now) pass.old }
        ensures called { AppAnswers (table_of self.now) pass.old (ask.GetVector session action sub) result pass.new }
    {
        self.getter(
            pass,
            &Call::GetVector {
                session,
                action,
                sub,
            },
        )
    }

    /// Asks whether a pose action is active (chapter 11, xrGetActionStatePose). It never waits.
    pub fn get_pose_active(&self, pass: &mut AppPass, session: u64, action: u64, sub: u64) -> Reply
        requires may { MayCall (table_of self.now) pass.old }
        ensures called { AppAnswers (table_of self.now) pass.old (ask.GetPoseActive session action sub) result pass.new }
    {
        self.getter(
            pass,
            &Call::GetPoseActive {
                session,
                action,
                sub,
            },
        )
    }
}
