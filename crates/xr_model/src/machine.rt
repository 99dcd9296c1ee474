// A machine: a value that stands for states of the machine of one thread.
ghost use Rattle.xr_model.specs.machine.State.{State};

/// What a lock can hold as the machine of one thread. It says for which states it stands, and no more: a core leaves out what
/// others may change meanwhile, the images' counts and stamps and the images that are held.
pub trait Machine {
    /// Whether a value stands for a state.
    ghost stands: { Self → State → Type 0 };
}
