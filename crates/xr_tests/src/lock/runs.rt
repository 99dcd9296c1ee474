// Runs of eight applications on threads, each looked at whether one history explains its replies.
ghost use Rattle.std.specs.Prelude.{◌+◌, ◌<◌, ◌≤◌, ℕ, length, slice_index_or};
ghost use Rattle.xr_runtime.specs.Passes.{table_of, IsApp, IsFirst};

use super::calling::make_calls;
use super::calls::{APPS, Made, STEPS, Steps, call_of, is_own, is_same};
use std::alloc::Global;
use std::sync::atomic::AtomicU64;
use std::sync::atomic::Ordering::SeqCst;
use std::sync::{Mutex, Wait};
use std::test::Fail;
use std::thread::{Threads, for_each_mut, yield_now};
use xr_core::PlainCore;
use xr_runtime::{AppPass, Passes, Runtime};
use xr_types::{Actor, NoMemory, Shown, Step};

/// How often a thread looks whether the others have come.
const PATIENCE: u32 = 10_000;

/// The calls of all applications.
#[derive(Clone, Copy)]
pub(crate) struct Story {
    pub(crate) apps: [Steps; APPS as usize],
}

/// What the threads of a run share beside the table: the story, and how many of them have come.
#[derive(Drop)]
struct Meeting {
    story: Mutex<Story>,
    came: AtomicU64,
}

impl Meeting {
    /// Waits for the others, but not for long.
    fn wait(&self) {
        self.came.fetch_add(1, SeqCst);
        for _ in 0..PATIENCE {
            if self.came.load(SeqCst) >= APPS as u64 {
                return;
            }
            yield_now();
        }
    }
}

/// The calls of the application at this place, which go into the story.
fn tell<R: Wait>(
    rt: &R,
    runtime: &Runtime,
    place: usize,
    pass: &mut AppPass,
    run: u64,
    meeting: &Meeting,
)
    requires first { IsFirst (table_of runtime.now) (place + 1) pass.old }
    requires few { place < 8 }
    ensures is { IsApp (table_of runtime.now) pass.new }
{
    meeting.wait();
    let steps = make_calls(rt, runtime, pass, place as u8 + 1, run);
    meeting.story.lock(rt).apps[place] = steps;
}

/// Each application makes its calls on a thread of its own.
fn tell_all<R: Threads + Wait + Sync>(
    rt: &R,
    runtime: &Runtime,
    passes: &mut [AppPass],
    run: u64,
    meeting: &Meeting,
)
    requires first { (i : ℕ) (d : _) → i < length passes.old → IsFirst (table_of runtime.now) (i + 1) (slice_index_or passes.old i d) }
    requires few { length passes.old ≤ 8 }
    ensures are { (i : ℕ) (d : _) → i < length passes.old → IsApp (table_of runtime.now) (slice_index_or passes.new i d) }
{
    for_each_mut(
        rt,
        passes,
        8,
        &|place, pass: &mut AppPass| { tell(rt, runtime, place, pass, run, meeting) },
    );
}

/// The call that was answered with this place, and its application.
fn made_at(story: &Story, place: u64) -> Option<(u8, Made)> {
    for app in 0..APPS {
        for step in 0..STEPS {
            if let Some(made) = story.apps[app as usize][step] {
                if made.reply.place == place {
                    return Some((app + 1, made));
                }
            }
        }
    }
    None
}

/// Whether a core answers this call so.
fn answers(core: &mut PlainCore, app: u8, made: &Made) -> bool {
    let call = call_of(made.kind, made.instance);
    if !is_own(app, &call) || !core.is_present(app) || core.calls() >= 1 << 44 {
        return false;
    }
    match core.apply(Actor::App(app), &call, &mut [], &mut Shown::default()) {
        Step::Done(reply) => is_same(&reply, &made.reply),
        Step::NotReady => false,
    }
}

/// How many calls were made.
fn count(story: &Story) -> u64 {
    let mut count = 0u64;
    for app in 0..APPS {
        for step in 0..STEPS {
            if story.apps[app as usize][step].is_some() {
                count = count.wrapping_add(1);
            }
        }
    }
    count
}

/// Whether the calls in the order of their places are answered so by a new core on one thread, and there are no others.
fn is_legal(alloc: Global, story: &Story, calls: u64) -> Result<bool, NoMemory> {
    let mut core = PlainCore::start(alloc, APPS)?;
    for place in 0..count(story) {
        match made_at(story, place.wrapping_add(1)) {
            Some((app, made)) if answers(&mut core, app, &made) => {}
            _ => return Ok(false),
        }
    }
    Ok(core.calls() == calls)
}

/// Makes a run; whether it was legal.
pub(crate) fn run<R: Threads + Wait + Sync>(
    rt: &R,
    alloc: Global,
    run: u64,
) -> Result<bool, NoMemory> {
    let (runtime, passes) = Runtime::start(alloc, APPS)?;
    let Passes {
        mut apps,
        compositor,
        device,
    } = passes;
    let meeting = Meeting {
        story: Mutex::new(Story {
            apps: [[None; STEPS]; APPS as usize],
        }),
        came: AtomicU64::new(0),
    };
    tell_all(rt, &runtime, apps.as_mut_slice(), run, &meeting);
    let calls = runtime
        .close(Passes {
            apps,
            compositor,
            device,
        })
        .places;
    let told = *meeting.story.lock(rt);
    is_legal(alloc, &told, calls)
}

/// How many runs are made.
const RUNS: u64 = 500;

#[test]
fn calls_on_threads_under_the_lock_are_one_history(rt: HostRuntime) -> Result<(), Fail> {
    for each in 0..RUNS {
        let is_legal = run(&rt, rt.alloc(), each).ok().ok_or("memory")?;
        assert!(rt; is_legal, "run {each}");
    }
    Ok(())
}
