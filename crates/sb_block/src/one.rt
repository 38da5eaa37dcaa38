//! One step of a core over copies of frames.

ghost use Rattle.std.specs.Prelude.{◌≡◌, Ok, nat_lt};
ghost use Rattle.sb_memory.specs.Physical.{frame_count};
ghost use Rattle.sb_insn.specs.Grammar.{IsValid};
ghost use Rattle.sb_walks.specs.Entry.{frame_in};
ghost use Rattle.sb_agree.specs.Noted.{noted_rule};
ghost use Rattle.sb_machine.specs.OwnSteps.{HasWalks};
ghost use Rattle.sb_machine.specs.Outcomes.{home_line, home_state, line_by, regs_behind};
ghost use Rattle.sb_block.specs.Answers.{ComesTo, Stepped, stop_of};
ghost use Rattle.sb_block.specs.Run.{at};
ghost use Rattle.sb_block.specs.Step.{fetch_outcome, state_behind, state_in_flight, switch_outcome, with_made};

use crate::fact::{Fact, MadeStep};
use sb_abi::{COMPARE_KEY, VMFUNC_PHASE};
use sb_bus::BusStop;
use sb_copy_bus::{CopyBus, fetch_next};
use sb_exec::{Effect, execute};
use sb_insn::{Insn, Regs};
use sb_machine::{CoreState, home_line, home_state, line_by, phase_behind, regs_behind};
use sb_memory::{Frame, Phys};
use sb_partial::Partial;
use sb_root::{Switch, switch};
use sb_state::{eax, ecx};
use sb_trace::{Event, touches_scratch};
use sb_walks::frame_number;

/// Why a core makes no step by itself.
#[derive(Clone, Copy, Debug, PartialEq, Eq)]
pub enum StepStop {
    /// The step meets this frame, which is not there.
    NeedFrame(Frame),
    /// The step is the kernels' to do: a SYSCALL, a fault, or a VMFUNC that the list refuses.
    Kernel,
}

/// Why a refused access makes no step.
fn stop_of(stop: BusStop) -> StepStop
    ensures { result ≡ stop_of stop }
{
    match stop {
        BusStop::Missing(frame) => StepStop::NeedFrame(frame),
        BusStop::Fault(_, _) => StepStop::Kernel,
    }
}

// ---- an instruction that goes on

/// The core goes on with these registers, and has made one line more.
fn go_on(core: &mut CoreState, regs: Regs) -> Event
    ensures line { result ≡ line_by core.old.phase core.old.view core.old.regs.rip regs }
    ensures core { core.new ≡ state_behind core.old regs }
{
    let line = line_by(core.phase, core.view, core.regs.rip, &regs);
    core.phase = phase_behind(core.phase, regs.rip);
    core.regs = regs;
    core.made = core.made.wrapping_add(1);
    line
}

// ---- VMFUNC

/// The core goes on in its home view, and has made one line more.
fn come_home(core: &mut CoreState, insn: &Insn, eptp: u64) -> Event
    requires { IsValid insn.now }
    ensures line { result ≡ home_line core.old.phase core.old.view }
    ensures core { core.new ≡ with_made (home_state eptp core.old (regs_behind insn.now core.old.regs)) }
{
    let line = home_line(core.phase, core.view);
    let made = core.made.wrapping_add(1);
    let home = home_state(eptp, core, regs_behind(insn, &core.regs));
    *core = CoreState { made, ..home };
    line
}

/// The core goes on in the view of a server, where a flight begins, and has made one line more.
fn depart(core: &mut CoreState, insn: &Insn, index: u16, eptp: u64) -> Event
    requires { IsValid insn.now }
    ensures line { result ≡ Event.Landing VMFUNC_PHASE }
    ensures core { core.new ≡ with_made (state_in_flight core.old insn.now index eptp) }
{
    *core = CoreState {
        regs: regs_behind(insn, &core.regs),
        eptp,
        view: index,
        phase: Some(COMPARE_KEY),
        made: core.made.wrapping_add(1),
        ..*core
    };
    Event::Landing {
        phase: VMFUNC_PHASE,
    }
}

/// Whether an EPT pointer leads to a frame of this memory.
fn has_root<P: Phys>(phys: &P, eptp: u64) -> bool
    ensures { result ≡ nat_lt (frame_in eptp) (frame_count (P.meaning phys.now)) }
{
    frame_number(eptp) < u64::from(phys.frames())
}

/// VMFUNC of a core, by its list.
#[tactic(auto, unfolding(sb_root::specs::Switch::switch_result))]
fn switch_view<P: Phys>(phys: &mut P, core: &mut CoreState, insn: &Insn) -> Result<Event, StepStop>
    requires walks { HasWalks (frame_count (P.meaning phys.old)) core.old }
    requires valid { IsValid insn.now }
    ensures outcome { ComesTo (switch_outcome P.rule core.old insn.now (P.meaning phys.old) (P.account phys.old))
        (at core.old (P.meaning phys.old) (P.account phys.old))
        (at core.new (P.meaning phys.new) (P.account phys.new)) result }
    ensures walks { HasWalks (frame_count (P.meaning phys.new)) core.new }
    ensures same { P.meaning phys.new ≡ P.meaning phys.old }
    ensures kept { P.kept phys.new ≡ P.kept phys.old }
{
    let index = ecx(&core.regs);
    match switch(phys, core.list, eax(&core.regs), index) {
        Ok(Switch::To { eptp }) if !has_root(phys, eptp) => Err(StepStop::Kernel),
        Ok(Switch::To { eptp }) if index == 0 => Ok(come_home(core, insn, eptp)),
        Ok(Switch::To { eptp }) => Ok(depart(core, insn, index as u16, eptp)),
        Ok(Switch::Unbound | Switch::BadLeaf) => Err(StepStop::Kernel),
        Err(gap) => Err(StepStop::NeedFrame(gap.frame)),
    }
}

// ---- the step

/// The instruction that was fetched.
#[tactic(auto, using(crate::proofs::Frames::frames_kept))]
fn execute_next(part: &mut Partial, core: &mut CoreState, insn: &Insn) -> Result<Event, StepStop>
    requires walks { HasWalks (frame_count part.old.memory) core.old }
    requires valid { IsValid insn.now }
    ensures outcome { ComesTo (fetch_outcome noted_rule core.old part.old.memory part.old.noted (Ok insn.now))
        (at core.old part.old.memory part.old.noted) (at core.new part.new.memory part.new.noted) result }
    ensures walks { HasWalks (frame_count part.new.memory) core.new }
    ensures frames { frame_count part.new.memory ≡ frame_count part.old.memory }
    ensures given { part.new.given ≡ part.old.given }
    ensures began { part.new.began ≡ part.old.began }
{
    let mut regs = core.regs;
    match execute(
        insn,
        &mut regs,
        &mut CopyBus::new(part, core.eptp, core.cr3),
    ) {
        Ok(Effect::Next) => Ok(go_on(core, regs)),
        Ok(Effect::Switch) => switch_view(part, core, insn),
        Ok(Effect::Syscall | Effect::Undefined) => Err(StepStop::Kernel),
        Err(stop) => Err(stop_of(stop)),
    }
}

/// Makes a step of a core over copies, and answers its line and its fact. The core counts it.
///
/// # Errors
///
/// `NeedFrame` comes exactly where the fetch, the instruction or the entry of the list for a VMFUNC meets a frame that is not
/// there, and names the frame of the first byte or word that is. `Kernel` comes exactly where none is met and the step is the
/// kernels'. The core and the memory are as they were; what is noted may have grown.
#[tactic(auto, using(crate::proofs::Stops::fetch_stops))]
pub fn step(part: &mut Partial, core: &mut CoreState) -> Result<MadeStep, StepStop>
    requires walks { HasWalks (frame_count part.old.memory) core.old }
    ensures step { Stepped noted_rule (at core.old part.old.memory part.old.noted)
        (at core.new part.new.memory part.new.noted) result }
    ensures walks { HasWalks (frame_count part.new.memory) core.new }
    ensures frames { frame_count part.new.memory ≡ frame_count part.old.memory }
    ensures given { part.new.given ≡ part.old.given }
    ensures began { part.new.began ≡ part.old.began }
{
    match fetch_next(part, core.eptp, core.cr3, core.regs.rip) {
        Ok(insn) => {
            let view = core.view;
            let scratch = touches_scratch(&insn, &core.regs);
            let event = execute_next(part, core, &insn)?;
            let next = core.regs.rip;
            Ok(MadeStep {
                event,
                fact: Fact {
                    view,
                    next,
                    scratch,
                },
            })
        }
        Err(stop) => Err(stop_of(stop)),
    }
}
