// Threads that ask for an action's state beside a thread that syncs, or for the system under the lock; and how long that takes.
ghost use Rattle.std.specs.Prelude.{◌≡◌, ◌≤◌, ◌<◌, ◌^◌, ℕ, IsTrue, false, length, slice_index_or};
ghost use Rattle.xr_runtime.specs.Passes.{table_of, IsApp};

use std::alloc::Global;
use std::io;
use std::io::Print;
use std::sync::atomic::Ordering::SeqCst;
use std::sync::atomic::{AtomicBool, AtomicU64};
use std::sync::{Mutex, Wait};
use std::thread::{Threads, for_each_mut, yield_now};
use std::time::{Clock, Instant};
use xr_runtime::{AppPass, Runtime};
use xr_types::{ActionType, ActiveSet, Code, Form, Gives, NoMemory, Reply};

/// How many threads make how many calls each; whether these take the lock, and whether one more thread syncs meanwhile.
#[derive(Clone, Copy)]
pub(crate) struct Reading {
    pub(crate) threads: u8,
    pub(crate) calls: u64,
    pub(crate) locked: bool,
    pub(crate) beside: bool,
}

/// What the threads ask for.
#[derive(Clone, Copy)]
struct Scene {
    instance: u64,
    session: u64,
    set: u64,
    action: u64,
}

/// What the threads share beside the runtime: what they ask for, once it is there; how many are done, how many calls succeeded, and how
/// many syncs there were.
#[derive(Drop)]
struct Shared {
    scene: Mutex<Option<Scene>>,
    came: AtomicBool,
    done: AtomicU64,
    right: AtomicU64,
    syncs: AtomicU64,
}

/// Whether a pass may make one more call.
fn goes_on(pass: &AppPass) -> bool
    ensures { IsTrue result → (pass.now.left ≡ false) × (pass.now.calls < 2 ^ 40) }
{
    !pass.left() && pass.calls() < 1 << 40
}

/// The handle that a call gave, and else 0.
fn handle(reply: &Reply) -> u64 {
    match reply.gives {
        Gives::Handle(handle) => handle,
        _ => 0,
    }
}

/// Makes a session with an attached action; nothing where that went wrong.
fn set_out<R: Wait>(rt: &R, runtime: &Runtime, pass: &mut AppPass) -> Option<Scene>
    requires is { IsApp (table_of runtime.now) pass.old }
    ensures is { IsApp (table_of runtime.now) pass.new }
{
    if !goes_on(pass) {
        return None;
    }
    let instance = handle(&runtime.create_instance(rt, pass, 1, 0));
    if !goes_on(pass) {
        return None;
    }
    let session = handle(&runtime.create_session(rt, pass, instance, 1));
    if !goes_on(pass) {
        return None;
    }
    let set = handle(&runtime.create_action_set(rt, pass, instance, b"set", b"Set", 0));
    if !goes_on(pass) {
        return None;
    }
    let kind = ActionType::Boolean;
    let action = handle(&runtime.create_action(rt, pass, set, b"grab", kind, &[], b"Grab"));
    if !goes_on(pass) {
        return None;
    }
    let attached = runtime.attach_sets(rt, pass, session, &[set]);
    if attached.code != Code::Success {
        return None;
    }
    Some(Scene {
        instance,
        session,
        set,
        action,
    })
}

/// Asks once; whether that went well.
fn ask<R: Wait>(rt: &R, runtime: &Runtime, pass: &mut AppPass, scene: Scene, locked: bool) -> bool
    requires is { IsApp (table_of runtime.now) pass.old }
    ensures is { IsApp (table_of runtime.now) pass.new }
{
    if !goes_on(pass) {
        return false;
    }
    let reply = if locked {
        runtime.get_system(rt, pass, scene.instance, Form::Head)
    } else {
        runtime.get_boolean(pass, scene.session, scene.action, 0)
    };
    reply.code == Code::Success
}

/// Syncs once.
fn sync<R: Wait>(rt: &R, runtime: &Runtime, pass: &mut AppPass, scene: Scene)
    requires is { IsApp (table_of runtime.now) pass.old }
    ensures is { IsApp (table_of runtime.now) pass.new }
{
    let active = ActiveSet {
        set: scene.set,
        sub: 0,
    };
    if goes_on(pass) {
        runtime.sync_actions(rt, pass, scene.session, &[active]);
    }
}

/// What the threads ask for: the first makes it, the others wait for it.
fn meet<R: Wait>(
    rt: &R,
    runtime: &Runtime,
    place: usize,
    pass: &mut AppPass,
    shared: &Shared,
) -> Option<Scene>
    requires is { IsApp (table_of runtime.now) pass.old }
    ensures is { IsApp (table_of runtime.now) pass.new }
{
    if place == 0 {
        let scene = set_out(rt, runtime, pass);
        *shared.scene.lock(rt) = scene;
        shared.came.store(true, SeqCst);
        return scene;
    }
    for _ in rt.forever() {
        if shared.came.load(SeqCst) {
            break;
        }
        yield_now();
    }
    *shared.scene.lock(rt)
}

/// Asks so often; how many calls succeeded.
fn ask_all<R: Wait>(
    rt: &R,
    runtime: &Runtime,
    pass: &mut AppPass,
    scene: Scene,
    reading: Reading,
) -> u64
    requires is { IsApp (table_of runtime.now) pass.old }
    ensures is { IsApp (table_of runtime.now) pass.new }
{
    let mut right = 0u64;
    for _ in 0..reading.calls {
        if ask(rt, runtime, pass, scene, reading.locked) {
            right = right.wrapping_add(1);
        }
    }
    right
}

/// Syncs until so many threads are done.
fn sync_beside<R: Wait>(
    rt: &R,
    runtime: &Runtime,
    pass: &mut AppPass,
    scene: Scene,
    reading: Reading,
    shared: &Shared,
)
    requires is { IsApp (table_of runtime.now) pass.old }
    ensures is { IsApp (table_of runtime.now) pass.new }
{
    for _ in rt.forever() {
        if shared.done.load(SeqCst) >= reading.threads as u64 {
            return;
        }
        sync(rt, runtime, pass, scene);
        shared.syncs.fetch_add(1, SeqCst);
    }
}

/// A thread asks as often as it should; the last one syncs meanwhile, where that is wanted.
fn work<R: Wait>(
    rt: &R,
    runtime: &Runtime,
    place: usize,
    pass: &mut AppPass,
    reading: Reading,
    shared: &Shared,
)
    requires is { IsApp (table_of runtime.now) pass.old }
    ensures is { IsApp (table_of runtime.now) pass.new }
{
    let Some(scene) = meet(rt, runtime, place, pass, shared) else {
        return;
    };
    if place < reading.threads as usize {
        let right = ask_all(rt, runtime, pass, scene, reading);
        shared.right.fetch_add(right, SeqCst);
        shared.done.fetch_add(1, SeqCst);
    } else if reading.beside {
        sync_beside(rt, runtime, pass, scene, reading, shared);
    }
}

/// Each pass works on a thread of its own.
fn work_on<R: Threads + Wait + Sync>(
    rt: &R,
    runtime: &Runtime,
    passes: &mut [AppPass],
    reading: Reading,
    shared: &Shared,
)
    requires are { (i : ℕ) (d : _) → i < length passes.old → IsApp (table_of runtime.now) (slice_index_or passes.old i d) }
{
    for_each_mut(
        rt,
        passes,
        8,
        &|place, pass: &mut AppPass| work(rt, runtime, place, pass, reading, shared),
    );
}

/// Makes the calls on threads; whether memory was found.
fn make_calls<R: Threads + Wait + Sync>(
    rt: &R,
    alloc: Global,
    reading: Reading,
    shared: &Shared,
) -> Result<(), NoMemory>
    requires few { reading.threads ≤ 7 }
{
    let (runtime, mut passes) = Runtime::start(alloc, reading.threads + 1)?;
    work_on(rt, &runtime, passes.apps.as_mut_slice(), reading, shared);
    Ok(())
}

/// Makes the calls on threads, and prints how long they took; whether memory was found.
pub(crate) fn measure_getters<R: Threads + Wait + Sync + Clock + Print>(
    rt: &R,
    alloc: Global,
    reading: Reading,
) -> io::Result<bool>
    requires few { reading.threads ≤ 7 }
{
    let shared = Shared {
        scene: Mutex::new(None),
        came: AtomicBool::new(false),
        done: AtomicU64::new(0),
        right: AtomicU64::new(0),
        syncs: AtomicU64::new(0),
    };
    let start = Instant::now(rt)?;
    if make_calls(rt, alloc, reading, &shared).is_err() {
        return Ok(false);
    }
    let spent = start.elapsed(rt)?.as_nanos();
    println!(rt;
        "{} calls in {spent} ns beside {} syncs",
        shared.right.load(SeqCst),
        shared.syncs.load(SeqCst)
    )?;
    Ok(true)
}
