// Runs of eight applications on threads of their own, which call under the lock: a core on one thread has to answer the calls in the
// order of their places as they were answered. And images that are given back, and getters, without the lock.
mod calling;
mod calls;
mod images;
mod reading;
mod runs;
