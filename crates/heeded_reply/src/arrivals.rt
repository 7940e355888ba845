// What came of posts, for what a person reads of them. No clause speaks of it.

use fed_ports::{LinkFault, Page};

// How many posts are told of: one for each mark of a reply.
const MOST: usize = 16;

/// What came of a post.
#[derive(Clone, Copy, Debug, PartialEq, Eq, Drop)]
pub enum Arrival {
    /// A text.
    Text,
    /// Another status than 200.
    Refusal(u16),
    /// What isn't HTTP, or a body that isn't of its form.
    Garbled,
    /// A body of more than 262,144 bytes.
    TooLong,
    /// Nothing was posted: no route has the URL's host.
    NoRoute,
    /// Nothing: the network failed.
    Nothing,
}

impl Arrival {
    /// What came where this was answered.
    pub(crate) fn of(answer: &Result<Page, LinkFault>) -> Arrival {
        match answer {
            Ok(Page::Document(_)) => Arrival::Text,
            Ok(Page::Refusal(status)) => Arrival::Refusal(*status),
            Ok(Page::Garbled) => Arrival::Garbled,
            Ok(Page::TooLong) => Arrival::TooLong,
            Ok(Page::NoRoute) => Arrival::NoRoute,
            Err(_) => Arrival::Nothing,
        }
    }
}

/// What came of the first sixteen posts of a call, in order.
#[derive(Clone, Copy, Drop)]
pub struct Arrivals {
    came: [Arrival; MOST],
    count: usize,
}

impl Arrivals {
    /// Nothing was posted.
    pub(crate) fn new() -> Arrivals {
        Arrivals {
            came: [Arrival::Nothing; MOST],
            count: 0,
        }
    }

    /// Adds what came of the next post.
    pub(crate) fn add(&mut self, arrival: Arrival) {
        if let Some(place) = self.came.get_mut(self.count) {
            *place = arrival;
        }
        self.count = self.count.saturating_add(1);
    }

    /// What came of the post of this number, from 0 on.
    pub fn at(&self, number: usize) -> Arrival {
        match self.came.get(number) {
            Some(arrival) => *arrival,
            None => Arrival::Nothing,
        }
    }
}
