//! The threads of the plain machine, and what its processes register.

use crate::bindings::Bindings;
use crate::end_kind::EndKind;
use sb_insn::Regs;

/// What a server told at its registration.
#[derive(Clone, Copy, Debug, PartialEq, Eq)]
pub struct Registration {
    /// The address at which calls enter it.
    pub handler: u64,
    /// How many server stacks it has.
    pub stacks: u32,
}

/// A binding of a thread to a server.
#[derive(Clone, Copy, Debug, Default, PartialEq, Eq)]
pub struct Binding {
    /// Its index in the thread's list of views, from 1.
    pub index: u16,
    /// The process that it leads to.
    pub server: u32,
    /// The word that a call has to show.
    pub key: u64,
}

/// How a call through a binding was decided.
#[derive(Clone, Copy, Debug, PartialEq, Eq)]
pub enum Decision {
    /// The key is not that of the binding.
    WrongKey,
    /// Each stack of the server was taken.
    PoolEmpty,
    /// The thread has a stack and enters the handler.
    Entered,
}

/// A thread's way from a VMFUNC into a server to the handler or back home: the landing that runs on the server page.
#[derive(Clone, Copy, Debug, PartialEq, Eq)]
pub struct Flight {
    /// The index of the binding.
    pub index: u16,
    /// The phase of the landing that the thread's next step does.
    pub phase: u8,
    /// The pool word that was loaded last; 0 before.
    pub mask: u64,
    /// How the call was decided, once it was.
    pub decided: Option<Decision>,
}

/// A thread of the plain machine.
#[derive(Debug, Drop)]
pub struct Thread {
    /// The process that it belongs to, for good.
    pub home: u32,
    /// In flight and before the decision, those at the VMFUNC.
    pub regs: Regs,
    /// 0 for its home view, else the index of a binding. In flight and before the decision, the one at the VMFUNC.
    pub view: u16,
    pub bindings: Bindings,
    pub state: EndKind,
}
