//! What follows for lists of calls on a part of the cache and on the book, whoever made them, and a part as a plain list.
ghost use Rattle.statement_shelf.specs.Laws.{EpochsRise, HitTellsLastPut, PartsStaySmall, PutIsTold, ReadIsAsNew, ReadTellsLastRotate};

pub use crate::plain::PlainPart;

/// A Look right after a Put of its URL, before the text ends, is told that text, and no key of the text that it replaced.
pub fn put_is_told()
    ensures { PutIsTold }
{}

/// A Hit tells the text of the last Put of its URL, before the end that this Put gave it.
pub fn hit_tells_last_put()
    ensures { HitTellsLastPut }
{}

/// A part holds at most 32 entries, of at most four keys each.
pub fn parts_stay_small()
    ensures { PartsStaySmall }
{}

/// The book's epoch never falls.
pub fn epochs_rise()
    ensures { EpochsRise }
{}

/// A Read tells the keys of the last Rotate of its anchor before it, or those that the book was opened with.
pub fn read_tells_last_rotate()
    ensures { ReadTellsLastRotate }
{}

/// A Read's epoch is at least that of the book after any calls before it, as those that its caller had seen.
pub fn read_is_as_new()
    ensures { ReadIsAsNew }
{}
