// What each call does, a method a call.
mod bindings;
mod device;
mod frames;
mod getters;
mod instance;
mod own;
mod paths;
mod session;
mod sets;
mod spaces;
mod swapchains;
mod sync;

pub(crate) use swapchains::is_up;
