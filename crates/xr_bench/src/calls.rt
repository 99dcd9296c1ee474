// Calls on a core of one application: rounds of calls, locating, frames without and with images, waits in vain, suggestions, and
// syncs.
mod asking;
mod frames;
mod images;
mod locates;
mod measures;
mod reads;
mod round;
mod suggests;
mod syncs;

pub(crate) use measures::measure_each;
