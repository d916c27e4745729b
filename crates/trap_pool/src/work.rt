use crate::LineWork;
use crate::slot::{Lines, Slot};
use crate::station::Station;
use std::alloc::Global;
use std::sync::{Mutex, Wait};

/// A hook that is called after each line that a worker took from the queue. It has no effect, and must return.
pub trait TakeGate {
    /// Called when a worker took this line.
    fn taken(&self, line: u32);
}

/// A gate that does nothing.
#[derive(Clone, Copy, Debug, Drop)]
pub struct OpenTakes;

impl TakeGate for OpenTakes {
    fn taken(&self, _line: u32) {}
}

// What all workers share: a slot for each line, the desks that are idle, and the gate.
#[derive(Drop)]
pub(crate) struct PageWork<'a, L: Lines, H, G> {
    pub rt: &'a H,
    pub alloc: Global,
    pub slots: &'a [Mutex<Slot<L>>],
    pub stations: &'a Mutex<Vec<Station>>,
    pub gate: &'a G,
}

impl<'a, L: Lines, H: Wait, G: TakeGate> LineWork<()> for PageWork<'a, L, H, G> {
    ghost makes = { λ work line made. Unit {0} };

    fn make(&self, line: u32) {
        self.gate.taken(line);
        if let Some(slot) = self.slots.get(line as usize) {
            let idle = self.stations.lock(self.rt).pop();
            if let Some(station) = slot.lock(self.rt).work(self.alloc, idle) {
                let _full = self.stations.lock(self.rt).push(station);
            }
        }
    }
}
