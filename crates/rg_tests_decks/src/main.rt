//! Plays the decks of standard input over volumes in memory, and prints what each comes to.
//!
//! 1. Outside a deck a line is an order, a remark that begins with `#`, or empty. It is printed as
//!    it is, and what the order comes to follows.
//! 2. `volume LOG PAGES` makes a volume of zeros, whose log has so many pages, and each copy so
//!    many. `fails N` behind it has its call N fail, `wrote N` the same where a read has what was
//!    to be written, and `stops N` has all calls fail after so many.
//! 3. `tear SET PAGE` fills a page of the volume with bytes that no page of the engine has.
//! 4. `play` is followed by a deck, which is played over the volume as the decks before it left
//!    it. Its print comes with brief layouts, after `play full` with full ones, and what the judge
//!    says. After `play counted` the numbers follow of which the print does not tell: of each
//!    entry how many calls of the volume were made up to it, the moment of the operator's answer,
//!    the bytes that an opening found used, and what LOGFULL was short of; and the moment of the
//!    answer that the operator would give next.
//! 5. `operator` is followed by the answers of the operator to the next deck. Answers and a deck
//!    end before a line that is a full stop.
//! 6. After `crash N` the next order to play, or `records`, is for an image of the volume, which is
//!    left as it was: page p has, of the contents that a crash may leave it, numbered from 0 with
//!    the oldest first, the one numbered N + p, counted round. After `crash with A B` the first two
//!    pages of the log have those numbered A and B, and each other page the oldest.
//! 7. `records` prints what each record of the log is.
#![tactic(auto)]

/// What a line asks for.
mod order;
/// What is kept from line to line.
mod stage;
/// The text of a run.
mod told;

use stage::Stage;
use std::io::{self, Write};

fn main(rt: HostRuntime) -> io::Result<()> {
    let mut stage = Stage::new(rt.alloc());
    for line in rt.lines(rt.alloc()) {
        match stage.take_line(line?.as_str()) {
            Ok(text) => rt.stdout().write_all(text.as_slice())?,
            Err(_) => return Err(io::ErrorKind::OutOfMemory.into()),
        }
    }
    Ok(())
}
