// What no run shows of parts: a core over cells that are lent, the words of what getters answer from, numbers of inputs at both sides
// of each threshold, what paths pick, texts that are no UTF-8, and a device that is a list.
mod cells;
pub(crate) mod cores;
mod devices;
mod names;
mod numbers;
mod profiles;
