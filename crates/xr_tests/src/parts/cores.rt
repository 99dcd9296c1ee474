// A core over cells that are lent, beside one over cells of its own, and the words of what getters answer from.
ghost use Rattle.std.specs.Prelude.{ℕ, ◌<◌, ◌^◌, IsTrue, length};
ghost use Rattle.xr_types.specs.declared.calls.Actor.TheVariants.{App, Compositor, Device};
ghost use Rattle.xr_model.specs.machine.CoreCalls.{MayAsk, MayMake};
ghost use Rattle.xr_model.specs.machine.OverCells.{AppliesOver, world};
ghost use Rattle.xr_model.specs.machine.PlainImages.{PlainDoes};

use super::cells::Lent;
use std::test::Fail;
use xr_chains::PlainCells;
use xr_core::{Core, PlainCore};
use xr_types::{
    ActionType, Actor, Blend, Call, Code, DeviceEvent, Gives, Items, Layer, RefKind, Shown, Step,
    SubImage, View, ViewConfig, Wish,
};

/// Makes a call of a core over a loan of its cells, which ends. They have had what the machine's step calls on them.
fn apply_lent(
    core: &mut Core,
    cells: &mut PlainCells,
    who: Actor,
    call: &Call<'_>,
    text: &mut [u8],
    shown: &mut Shown,
) -> Step
    requires calls { core.old.kept.locked < 2 ^ 44 }
    requires may { MayMake core.old.kept who call.now (length text.old) }
    ensures { AppliesOver PlainDoes (world core.old cells.old text.old shown.old) (world core.new cells.new text.new shown.new) who call.now result }
{
    let mut lent = Lent::of(cells);
    core.apply(&mut lent, who, call, text, shown)
}

/// Whether an application may make this call, and be lent no bytes.
pub(crate) fn is_own(call: &Call<'_>) -> bool
    ensures { IsTrue result → (app : ℕ) → MayAsk (App app) call.now 0 }
{
    matches!(
        call,
        Call::CreateInstance { .. }
            | Call::CreateSession { .. }
            | Call::BeginSession { .. }
            | Call::StringToPath { .. }
            | Call::CreateActionSet { .. }
            | Call::CreateAction { .. }
            | Call::AttachSets { .. }
            | Call::GetBoolean { .. }
            | Call::CreateReferenceSpace { .. }
            | Call::CreateSwapchain { .. }
            | Call::AcquireImage { .. }
            | Call::WaitImage {
                timeout: 0 | 10,
                start: 0,
                ..
            }
            | Call::Paint { .. }
            | Call::ReleaseImage { .. }
            | Call::WaitFrame { .. }
            | Call::BeginFrame { .. }
            | Call::EndFrame { .. }
    )
}

/// Whether the compositor may make this call.
fn is_compositors(call: &Call<'_>) -> bool
    ensures { IsTrue result → MayAsk Compositor call.now 0 }
{
    matches!(call, Call::NextFrame | Call::ImageDone)
}

/// Whether the device may make this call: it wishes something, or its clock goes on.
fn is_devices(call: &Call<'_>) -> bool
    ensures { IsTrue result → MayAsk Device call.now 0 }
{
    matches!(
        call,
        Call::Device(DeviceEvent::Wish(_) | DeviceEvent::Clock(9 | 10))
    )
}

/// A core of one application, by which calls are made; nothing where one can't be made.
trait Machine {
    fn make(&mut self, call: &Call<'_>, shown: &mut Shown) -> Option<Step>;
}

impl Machine for PlainCore {
    fn make(&mut self, call: &Call<'_>, shown: &mut Shown) -> Option<Step> {
        if self.calls() >= 1 << 44 {
            return None;
        }
        if is_own(call) && self.is_present(1) {
            return Some(self.apply(Actor::App(1), call, &mut [], shown));
        }
        if is_compositors(call) {
            return Some(self.apply(Actor::Compositor, call, &mut [], shown));
        }
        if is_devices(call) {
            return Some(self.apply(Actor::Device, call, &mut [], shown));
        }
        None
    }
}

/// A core, and the cells that it is lent for each call.
#[derive(Drop)]
struct Apart {
    core: Core,
    cells: PlainCells,
}

impl Machine for Apart {
    fn make(&mut self, call: &Call<'_>, shown: &mut Shown) -> Option<Step> {
        let Apart { core, cells } = self;
        if core.calls() >= 1 << 44 {
            return None;
        }
        if is_own(call) && core.is_present(1) {
            return Some(apply_lent(core, cells, Actor::App(1), call, &mut [], shown));
        }
        if is_compositors(call) {
            return Some(apply_lent(core, cells, Actor::Compositor, call, &mut [], shown));
        }
        if is_devices(call) {
            return Some(apply_lent(core, cells, Actor::Device, call, &mut [], shown));
        }
        None
    }
}

/// What a call gives, nothing where it waits or isn't made.
fn given<M: Machine>(machine: &mut M, call: &Call<'_>) -> Gives {
    match machine.make(call, &mut Shown::default()) {
        Some(Step::Done(reply)) => reply.gives,
        _ => Gives::Nothing,
    }
}

/// The handle that a call gives, or 0.
fn handle<M: Machine>(machine: &mut M, call: &Call<'_>) -> u64 {
    match given(machine, call) {
        Gives::Handle(handle) => handle,
        _ => 0,
    }
}

/// The code of a call's answer, nothing where it waits or isn't made.
fn code<M: Machine>(machine: &mut M, call: &Call<'_>) -> Option<Code> {
    match machine.make(call, &mut Shown::default()) {
        Some(Step::Done(reply)) => Some(reply.code),
        _ => None,
    }
}

/// A session that runs, with its swapchain and its space.
#[derive(Clone, Copy)]
struct Scene {
    session: u64,
    chain: u64,
    space: u64,
}

fn set_out<M: Machine>(machine: &mut M) -> Scene {
    let _ = given(machine, &Call::Device(DeviceEvent::Wish(Wish::Focused)));
    let instance = handle(machine, &Call::CreateInstance { major: 1, minor: 0 });
    let system = 1;
    let session = handle(machine, &Call::CreateSession { instance, system });
    let view = ViewConfig::Stereo;
    let _ = given(machine, &Call::BeginSession { session, view });
    let chain = handle(
        machine,
        &Call::CreateSwapchain {
            session,
            format: 1,
            width: 64,
            height: 64,
            fixed: false,
        },
    );
    let space = handle(
        machine,
        &Call::CreateReferenceSpace {
            session,
            kind: RefKind::Local,
            offset: 1,
        },
    );
    Scene {
        session,
        chain,
        space,
    }
}

/// An image is painted with this stamp and released; the codes of these calls.
fn paint<M: Machine>(machine: &mut M, chain: u64, stamp: u64) -> [Option<Code>; 4] {
    [
        code(machine, &Call::AcquireImage { chain }),
        code(
            machine,
            &Call::WaitImage {
                chain,
                timeout: 0,
                start: 0,
            },
        ),
        code(machine, &Call::Paint { chain, stamp }),
        code(machine, &Call::ReleaseImage { chain }),
    ]
}

/// A frame shows the swapchain as a quad; the code of its end.
fn submit<M: Machine>(machine: &mut M, scene: Scene) -> Option<Code> {
    let Scene {
        session,
        chain,
        space,
    } = scene;
    let Gives::Frame(state) = given(machine, &Call::WaitFrame { session }) else {
        return None;
    };
    let _ = given(machine, &Call::BeginFrame { session });
    let image = SubImage {
        chain,
        x: 0,
        y: 0,
        w: 64,
        h: 64,
    };
    let quad = Layer::Quad {
        space,
        image,
        pose: 1,
    };
    code(
        machine,
        &Call::EndFrame {
            session,
            time: state.time,
            blend: Blend::Opaque,
            layers: Items::new(&[quad]),
        },
    )
}

const DONE: Option<Code> = Some(Code::Success);

const WRONG: Option<Code> = Some(Code::CallOrderInvalid);

const LATE: Option<Code> = Some(Code::TimeoutExpired);

/// Waits for an image with this timeout, in ns, since the time 0.
fn wait<M: Machine>(machine: &mut M, chain: u64, timeout: i64) -> Option<Code> {
    code(
        machine,
        &Call::WaitImage {
            chain,
            timeout,
            start: 0,
        },
    )
}

/// The device's clock goes on.
fn set_clock<M: Machine>(machine: &mut M, time: i64) -> Option<Code> {
    code(machine, &Call::Device(DeviceEvent::Clock(time)))
}

/// What calls come to: an image is shown, and is in use until the compositor gives it back, however often it is waited for.
fn story<M: Machine>(machine: &mut M) -> [[Option<Code>; 4]; 6] {
    let scene = set_out(machine);
    let chain = scene.chain;
    let first = paint(machine, chain, 5);
    let shown = submit(machine, scene);
    let second = paint(machine, chain, 6);
    let third = paint(machine, chain, 7);
    let again = code(machine, &Call::AcquireImage { chain });
    let pending = wait(machine, chain, 0);
    let taken = code(machine, &Call::NextFrame);
    let held = [wait(machine, chain, 0), wait(machine, chain, 10)];
    let clocks = [
        set_clock(machine, 9),
        wait(machine, chain, 10),
        set_clock(machine, 10),
        wait(machine, chain, 10),
    ];
    let next = code(machine, &Call::NextFrame);
    let back = code(machine, &Call::ImageDone);
    let last = wait(machine, chain, 0);
    [
        first,
        second,
        third,
        [shown, again, pending, taken],
        clocks,
        [held[0], held[1], next, back.and(last)],
    ]
}

/// No answer: the call waits.
const WAITS: Option<Code> = None;

const STORY: [[Option<Code>; 4]; 6] = [
    [DONE, DONE, DONE, DONE],
    [DONE, DONE, DONE, DONE],
    [DONE, DONE, DONE, DONE],
    [DONE, DONE, LATE, DONE],
    [DONE, WAITS, DONE, LATE],
    [LATE, WAITS, WRONG, DONE],
];

#[test]
fn a_core_answers_alike_over_cells_that_are_lent(rt: HostRuntime) -> Result<(), Fail> {
    let mut own = PlainCore::start(rt.alloc(), 1).ok().ok_or("memory")?;
    let mut apart = Apart {
        core: Core::start(rt.alloc(), 1).ok().ok_or("memory")?,
        cells: PlainCells::new(),
    };
    assert_eq!(rt; story(&mut own), STORY);
    assert_eq!(rt; story(&mut apart), STORY);
    Ok(())
}

#[test]
fn a_core_shows_nothing_at_first(rt: HostRuntime) -> Result<(), Fail> {
    let core = Core::start(rt.alloc(), 1).ok().ok_or("memory")?;
    let mut view = View::start();
    core.view(&mut view);
    core.view(&mut view);
    assert!(rt; view.words.as_slice() == [0; 7].as_slice());
    Ok(())
}

/// A vector action at the left hand, attached: its session, the hand's atom and its handle.
fn attach<M: Machine>(machine: &mut M) -> [u64; 3] {
    let instance = handle(machine, &Call::CreateInstance { major: 1, minor: 0 });
    let system = 1;
    let session = handle(machine, &Call::CreateSession { instance, system });
    let text = Items::new(b"/user/hand/left");
    let left = match given(machine, &Call::StringToPath { instance, text }) {
        Gives::Number(atom) => atom,
        _ => 0,
    };
    let set = handle(
        machine,
        &Call::CreateActionSet {
            instance,
            name: Items::new(b"play"),
            localized: Items::new(b"Play"),
            priority: 0,
        },
    );
    let action = handle(
        machine,
        &Call::CreateAction {
            set,
            name: Items::new(b"aim"),
            kind: ActionType::Vector,
            subs: Items::new(&[left]),
            localized: Items::new(b"Aim"),
        },
    );
    let _ = given(
        machine,
        &Call::AttachSets {
            session,
            sets: Items::new(&[set]),
        },
    );
    [session, left, action]
}

#[test]
fn a_core_shows_an_action_that_is_attached(rt: HostRuntime) -> Result<(), Fail> {
    let mut apart = Apart {
        core: Core::start(rt.alloc(), 1).ok().ok_or("memory")?,
        cells: PlainCells::new(),
    };
    let [session, left, action] = attach(&mut apart);
    let mut view = View::start();
    apart.core.view(&mut view);
    let words = view.words.as_slice();
    assert!(rt; words.get(..7) == Some([6, 4_294_967_297, left, 0, 0, 0, 0].as_slice()));
    assert!(rt; words.get(7..12) == Some([action, 10, session, 0, 1].as_slice()));
    assert!(rt; words.get(12..) == Some([0; 12].as_slice()));
    Ok(())
}
