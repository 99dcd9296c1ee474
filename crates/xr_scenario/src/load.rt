// The scenario of a load, made from its number of frames.
ghost use Rattle.std.specs.Prelude.{◌≡◌, ◌≤◌, ◌<◌, ◌+◌, ◌^◌, ◌++◌, ◌∷◌, [], false, length, IfOk, OnOk};
ghost use Rattle.xr_model.specs.scenario.LoadScenario.{the_session, instance_ops, session_ops, opening_ops, one_round, rounds_by, image_ops, wrong_end_by, whole_quad, right_end, begun_ops, frame_ops, frame_ops_from, load_script, load_scenario};
ghost use Rattle.xr_scenario.specs.LoadLaws.{IsOneShortScript};
ghost use Rattle.xr_scenario.specs.Pushed.{HasRoom, Pushed};

use std::alloc::Global;
use xr_types::{
    Blend, Form, LayerUse, MOST_LOAD, NoMemory, Op, RefKind, Scenario, Script, Several,
    SubImageUse, Use, VERSION, ViewConfig,
};

// The ops whose values the others use, by their places.
const INSTANCE: Use = Use::Of(2);

const SYSTEM: Use = Use::Of(3);

const SESSION: Use = Use::Of(4);

const SPACE: Use = Use::Of(5);

const CHAIN: Use = Use::Of(6);

#[inline(always)]
fn push(ops: &mut Vec<Op>, op: Op)
    requires { HasRoom ops.old (op ∷ []) }
    ensures { Pushed ops.old ops.new (op ∷ []) }
{
    ops.push_reserved(op);
}

fn push_instance(ops: &mut Vec<Op>)
    requires { HasRoom ops.old instance_ops }
    ensures { Pushed ops.old ops.new instance_ops }
{
    let instance = INSTANCE;
    let form = Form::Head;
    let system = SYSTEM;
    push(ops, Op::Await { mark: 1 });
    push(ops, Op::CreateInstance { major: 1, minor: 0 });
    push(ops, Op::GetSystem { instance, form });
    push(ops, Op::CreateSession { instance, system });
}

fn create_space() -> Op
    ensures { result ≡ Op.CreateReferenceSpace the_session RefKind.Local 1 }
{
    Op::CreateReferenceSpace {
        session: SESSION,
        kind: RefKind::Local,
        offset: 1,
    }
}

fn create_chain() -> Op
    ensures { result ≡ Op.CreateSwapchain the_session 1 64 64 false }
{
    Op::CreateSwapchain {
        session: SESSION,
        format: 1,
        width: 64,
        height: 64,
        fixed: false,
    }
}

fn push_session(ops: &mut Vec<Op>)
    requires { HasRoom ops.old session_ops }
    ensures { Pushed ops.old ops.new session_ops }
{
    let session = SESSION;
    let view = ViewConfig::Stereo;
    push(ops, create_space());
    push(ops, create_chain());
    push(ops, Op::BeginSession { session, view });
}

fn push_opening(ops: &mut Vec<Op>)
    requires { HasRoom ops.old opening_ops }
    ensures { Pushed ops.old ops.new opening_ops }
{
    push_instance(ops);
    push_session(ops);
}

fn push_round(ops: &mut Vec<Op>)
    requires { HasRoom ops.old one_round }
    ensures { Pushed ops.old ops.new one_round }
{
    push(ops, Op::WaitFrame { session: SESSION });
    push(ops, Op::BeginFrame { session: SESSION });
}

fn push_rounds(ops: &mut Vec<Op>, tenth: bool)
    requires { HasRoom ops.old (rounds_by tenth) }
    ensures { Pushed ops.old ops.new (rounds_by tenth) }
{
    if tenth {
        push_round(ops);
    }
    push_round(ops);
}

fn push_image(ops: &mut Vec<Op>, number: u32)
    requires { HasRoom ops.old (image_ops number) }
    ensures { Pushed ops.old ops.new (image_ops number) }
{
    let chain = CHAIN;
    let timeout = i64::MAX;
    let stamp = u64::from(number);
    push(ops, Op::AcquireImage { chain });
    push(ops, Op::WaitImage { chain, timeout });
    push(ops, Op::Paint { chain, stamp });
    push(ops, Op::ReleaseImage { chain });
}

/// The end of a frame with these layers.
fn end_frame(time: Use, layers: Several<LayerUse>) -> Op
    ensures { result ≡ Op.EndFrame the_session time Blend.Opaque layers }
{
    Op::EndFrame {
        session: SESSION,
        time,
        blend: Blend::Opaque,
        layers,
    }
}

fn push_wrong_end(alloc: Global, ops: &mut Vec<Op>, seventh: bool)
    requires { HasRoom ops.old (wrong_end_by seventh) }
    ensures { Pushed ops.old ops.new (wrong_end_by seventh) }
{
    if !seventh {
        return;
    }
    let none = Several::new(Vec::new(alloc));
    push(ops, end_frame(Use::Number(0), none));
}

fn whole_quad(alloc: Global) -> Result<Several<LayerUse>, NoMemory>
    ensures { IfOk result (λ layers. layers ≡ whole_quad ∷ []) }
{
    let mut layers = Vec::with_capacity(alloc, 1)?;
    let image = SubImageUse {
        chain: CHAIN,
        x: 0,
        y: 0,
        w: 64,
        h: 64,
    };
    let quad = LayerUse::Quad {
        space: SPACE,
        image,
        pose: 1,
    };
    layers.push(quad)?;
    Ok(Several::new(layers))
}

/// What comes before the end of a frame.
fn push_begun(alloc: Global, ops: &mut Vec<Op>, number: u32)
    requires { HasRoom ops.old (begun_ops number) }
    ensures { Pushed ops.old ops.new (begun_ops number) }
{
    push_rounds(ops, number % 10 == 0);
    push_image(ops, number);
    push_wrong_end(alloc, ops, number % 7 == 0);
}

/// How many ops a frame has.
fn frame_count(number: u32) -> usize
    ensures { result ≡ length (begun_ops number) + 1 }
{
    let rounds = if number % 10 == 0 { 4 } else { 2 };
    let wrong = if number % 7 == 0 { 1 } else { 0 };
    rounds + 4 + wrong + 1
}

/// Pushes a frame. Its room is asked for at once, so that its ops are pushed without an error's way.
fn push_frame(alloc: Global, ops: &mut Vec<Op>, number: u32) -> Result<(), NoMemory>
    requires few { length ops.old.items < 2 ^ 22 }
    ensures { OnOk result (ops.new.items ≡ ops.old.items ++ frame_ops number (length ops.old.items + 1)) }
{
    let place = ops.len() as u32 + 1;
    let wait = if number % 10 == 0 { place + 2 } else { place };
    let layers = whole_quad(alloc)?;
    ops.reserve(frame_count(number))?;
    push_begun(alloc, ops, number);
    push(ops, end_frame(Use::Of(wait), layers));
    Ok(())
}

fn push_frames(alloc: Global, ops: &mut Vec<Op>, n: u32) -> Result<(), NoMemory>
    requires most { n ≤ MOST_LOAD }
    requires opened { length ops.old.items ≡ 7 }
    ensures { OnOk result (ops.new.items ≡ ops.old.items ++ frame_ops_from n 1 8) }
{
    for i in 0..n {
        push_frame(alloc, ops, i + 1)?;
    }
    Ok(())
}

/// How many ops there are.
fn op_count(n: u32) -> usize
    requires { n ≤ MOST_LOAD }
    ensures { result ≡ length (load_script n) }
{
    let n = n as usize;
    7 + 7 * n + 2 * (n / 10) + n / 7
}

fn load_script(alloc: Global, n: u32) -> Result<Script, NoMemory>
    requires { n ≤ MOST_LOAD }
    ensures { IfOk result (λ ops. ops ≡ load_script n) }
{
    let mut ops = Vec::with_capacity(alloc, op_count(n))?;
    push_opening(&mut ops);
    push_frames(alloc, &mut ops, n)?;
    Ok(Several::new(ops))
}

/// The scenario of a load of so many frames. It has one script, and its ops are in form and fewer than 2^22, so it can be run.
/// The room for its ops is taken once. Refused only by want of memory.
pub fn generate(alloc: Global, n: u32) -> Result<Scenario, NoMemory>
    requires { n ≤ MOST_LOAD }
    ensures load { IfOk result (λ scenario. scenario ≡ load_scenario n) }
    ensures fits { IfOk result (λ scenario. IsOneShortScript scenario) }
{
    let script = load_script(alloc, n)?;
    let mut scripts = Vec::with_capacity(alloc, 1)?;
    scripts.push(script)?;
    Ok(Scenario {
        version: VERSION,
        scripts: Several::new(scripts),
    })
}
