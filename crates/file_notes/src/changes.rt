// Changes of a ring that are refused.

use plain_notes::{Notes, Sentence};
use ring_faults::{OrderFault, RingFault};
use std::alloc::Global;

/// Says why the ring isn't changed. Of a file that isn't a ring's, of the store and of memory nothing is said here.
pub fn explain_change(alloc: Global, fault: &RingFault, notes: &mut Notes) {
    match fault {
        RingFault::Known(kid) => notes.say(
            Sentence::of(alloc, b"the key ")
                .and(kid.as_slice())
                .and(b" is in the ring already"),
        ),
        RingFault::Unknown(kid) => notes.say(
            Sentence::of(alloc, b"there is no key ")
                .and(kid.as_slice())
                .and(b" in the ring"),
        ),
        RingFault::Order(fault) => notes.say(Sentence::of(alloc, order_fault(*fault))),
        RingFault::Shape | RingFault::StoreFault | RingFault::Memory => {},
    }
}

fn order_fault(fault: OrderFault) -> &'static [u8] {
    match fault {
        OrderFault::Exp => b"the new key would end no later than it begins",
        OrderFault::NotLive => b"the key isn't in a state for this change",
        OrderFault::LastLive => b"no live key would remain; add a new one first",
        OrderFault::Full => b"the ring has 16 keys, and takes no more",
    }
}
